//! The bytes of what is captured: those of the parts, and the directory that names them.
ghost use Rattle.std.specs.Prelude.{◌≡◌, ◌<◌, ◌^◌, ◌++◌, length, drop, IfOk, OnOk};
ghost use Rattle.ut_savepoint.specs.Planning.{pages_of, spelled_in, spelled_all, refs_of, directory_of};

use crate::captured::{CapturedPart, CapturedTable};
use crate::cut::{first_of, pages_for};
use std::alloc::{AllocError, Global};
use ut_image::{PartRef, image_front, image_start};
use ut_main::part_bytes;
use ut_value::Seq;

// Adds the bytes of each part of a table.
fn add_spelled(
    alloc: Global,
    parts: &[CapturedPart],
    spelled: &mut Seq<Seq<u8>>,
) -> Result<(), AllocError>
    ensures { OnOk result (spelled.new ≡ spelled.old ++ spelled_in parts.now) }
{
    for part in parts {
        let mut bytes = Vec::new(alloc);
        part_bytes(&part.part, &mut bytes)?;
        spelled.push(Seq::from_vec(bytes))?;
    }
    Ok(())
}

/// The bytes of the parts of all tables, in order.
pub(crate) fn spell_parts(
    alloc: Global,
    tables: &[CapturedTable],
) -> Result<Seq<Seq<u8>>, AllocError>
    ensures { IfOk result (λ spelled. spelled ≡ spelled_all tables.now) }
{
    let mut spelled = Seq::new(alloc);
    for table in tables {
        add_spelled(alloc, &table.parts, &mut spelled)?;
    }
    Ok(spelled)
}

// The pages behind so many.
fn behind(pages: &[u32], count: usize) -> &[u32]
    ensures { result.now ≡ drop count pages.now }
{
    &pages[count.min(pages.len())..]
}

// What a directory says of parts whose chains stand on these pages, and the pages behind them.
// Without pages each chain begins at page 0.
fn refs_of<'a>(
    alloc: Global,
    parts: &[CapturedPart],
    spelled: &[Seq<u8>],
    pages: &'a [u32],
) -> Result<(Vec<PartRef>, &'a [u32]), AllocError>
    requires { spelled.now ≡ spelled_in parts.now }
    ensures refs { IfOk result (λ r. r.0.items ≡ refs_of pages.now parts.now) }
    ensures behind { IfOk result (λ r. r.1.now ≡ drop (pages_of spelled.now) pages.now) }
{
    let mut refs = Vec::with_capacity(alloc, parts.len())?;
    let mut left = pages;
    for i in 0..parts.len() {
        let live = Vec::from_slice(alloc, parts[i].live.as_slice())?;
        let len = spelled[i].len();
        refs.push(PartRef {
            first: first_of(left),
            length: len as u64,
            rows: parts[i].part.len(),
            live: Seq::from_vec(live),
        })?;
        left = behind(left, pages_for(len));
    }
    Ok((refs, left))
}

/// The directory, where the parts' chains stand on these pages.
pub(crate) fn directory_of(
    alloc: Global,
    tables: &[CapturedTable],
    spelled: &[Seq<u8>],
    pages: &[u32],
) -> Result<Vec<u8>, AllocError>
    requires few { length tables.now < 2 ^ 32 }
    requires spelled { spelled.now ≡ spelled_all tables.now }
    ensures { IfOk result (λ bytes. bytes.items ≡ directory_of pages.now tables.now) }
{
    let mut out = Vec::new(alloc);
    image_start(tables.len() as u32, &mut out)?;
    let mut left = pages;
    let mut more = spelled;
    for table in tables {
        let (mine, others) = more.split_at(table.parts.len());
        let (refs, rest) = refs_of(alloc, &table.parts, mine, left)?;
        image_front(&table.table, &refs, &mut out)?;
        out.extend_from_slice(&table.deltas)?;
        left = rest;
        more = others;
    }
    Ok(out)
}
