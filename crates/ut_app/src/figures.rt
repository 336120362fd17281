//! The one line that a run of the benchmark writes.
ghost use Rattle.std.specs.Prelude.{◌≡◌, ◌++◌, false, codes, OnOk, IfOk};
ghost use Rattle.ut_plain.specs.Journal.{current};
ghost use Rattle.ut_store.specs.Stands.{StandsFor};
ghost use Rattle.ut_app.specs.Figures.{rows_named, rows_of, sum_text, figures_text};

use itoa::{Buffer, Integer};
use std::alloc::{AllocError, Global};
use ut_engine::Engine;
use ut_outside::Disk;
use ut_value::Name;

/// What a run of the benchmark came to.
#[derive(Clone, Copy, Debug, PartialEq, Eq)]
pub struct Figures {
    pub lines: u32,
    pub commits: u32,
    pub refused: u32,
    pub rows: u64,
    pub total: Option<i128>,
}

/// Puts the line at the end.
pub(crate) fn put_figures(text: &mut Vec<u8>, figures: &Figures) -> Result<(), AllocError>
    ensures { OnOk result (text.new.items ≡ text.old.items ++ figures_text figures.now) }
{
    put_named(text, b"bench lines ", figures.lines)?;
    put_named(text, b" commits ", figures.commits)?;
    put_named(text, b" refused ", figures.refused)?;
    put_named(text, b" rows ", figures.rows)?;
    put_total(text, figures.total)?;
    text.extend_from_slice(b"\n")?;
    Ok(())
}

// A word or two, and a number.
fn put_named<I: Integer>(text: &mut Vec<u8>, name: &[u8], number: I) -> Result<(), AllocError>
    ensures { OnOk result (text.new.items ≡ text.old.items ++ (name.now ++ I.text number)) }
{
    let mut buffer = Buffer::new();
    text.extend_from_slice(name)?;
    text.extend_from_slice(buffer.format(number).as_bytes())
}

fn put_total(text: &mut Vec<u8>, total: Option<i128>) -> Result<(), AllocError>
    ensures { OnOk result (text.new.items ≡ text.old.items ++ (codes " total " ++ sum_text total)) }
{
    match total {
        None => text.extend_from_slice(b" total none"),
        Some(number) => put_named(text, b" total ", number),
    }
}

/// How many rows the store's tables have in the state of the whole journal.
pub(crate) fn rows_of<D: Disk>(alloc: Global, engine: &Engine<'_, D>) -> Result<u64, AllocError>
    requires up { engine.now.store.down ≡ false }
    ensures { IfOk result (λ rows. (p : _) → StandsFor engine.now.store.store p → rows ≡ rows_of (current p.journal)) }
{
    let mut rows = 0u64;
    for place in 0..engine.tables() {
        let more = table_rows(alloc, engine, engine.table_name(place))?;
        rows = match rows.checked_add(more) {
            Some(sum) => sum,
            None => return Err(AllocError),
        };
    }
    Ok(rows)
}

// How many rows the table of a name has.
fn table_rows<D: Disk>(
    alloc: Global,
    engine: &Engine<'_, D>,
    table: &Name,
) -> Result<u64, AllocError>
    requires up { engine.now.store.down ≡ false }
    ensures { IfOk result (λ rows. (p : _) → StandsFor engine.now.store.store p → rows ≡ rows_named (current p.journal) table.now) }
{
    match engine.rows(alloc, table)? {
        Some(rows) => Ok(rows.len() as u64),
        None => Ok(0),
    }
}
