//! What a store holds that is opened with the image that is selected, and with the entries of another behind it.
ghost use Rattle.std.specs.Prelude.{◌≡◌, IfOk};
ghost use Rattle.std.specs.FinMap as finmap;
ghost use Rattle.ut_plain.specs.State.{empty_state};
ghost use Rattle.ut_plain.specs.Journal.{after_all, since};
ghost use Rattle.ut_plain.specs.Plain.{no_savepoint, opened_store};
ghost use Rattle.ut_plain.specs.Reached.{IsPlain, MayOpen};
ghost use Rattle.check_oracle.specs.Store.{plain_of, selected_of, IsSelected};

use crate::held::{Held, entries_copied, nobody};
use crate::image::Image;
use crate::sight::state_at;
use check_rows::{load_of, next_of};
use check_stages::{has_at_most, replayed};
use std::alloc::{AllocError, Global};
use ut_plain::Progress;
use ut_value::Entry;

/// What is held once the entries behind an image are opened with it. No image has more rows outside main than its state: one that had
/// would be out of memory.
pub(crate) fn reopened(
    alloc: Global,
    held: &Held,
    image: &Image,
    rows_limit: u32,
) -> Result<Held, AllocError>
    requires plain { IsPlain (plain_of held.now) }
    requires image { IsSelected (selected_of image.now) (plain_of held.now) }
    ensures opens { IfOk result (λ next. plain_of next ≡ opened_store (record { stages = image.now.stages; image_pages = no_savepoint.image_pages; root_pages = held.now.root_pages }) (since (plain_of held.now).journal image.now.length) rows_limit) }
    ensures may { IfOk result (λ next. MayOpen image.now.stages (since (plain_of held.now).journal image.now.length)) }
{
    let base = state_at(alloc, held, image.length)?;
    let rows = base.rows.len();
    if !has_at_most(image.stages.as_slice(), rows) {
        return Err(AllocError);
    }
    let (before, behind) = held
        .entries
        .as_slice()
        .split_at(image.length as usize - held.first.len());
    let mut first = entries_copied(alloc, held.first.as_slice())?;
    let mut more = entries_copied(alloc, before)?;
    first.append(&mut more)?;
    let mut next = opened(alloc, first, rows, behind, image)?;
    next.root_pages = held.root_pages;
    next.rows_limit = rows_limit;
    Ok(next)
}

// What is held with an image of the first entries, whose state has so many rows, and with those behind them.
fn opened(
    alloc: Global,
    first: Vec<Entry>,
    rows: usize,
    behind: &[Entry],
    image: &Image,
) -> Result<Held, AllocError>
    requires may { MayOpen image.now.stages (record { base = after_all empty_state first.items; entries = behind.now }) }
    requires rows { rows ≡ finmap.len (after_all empty_state first.items).rows }
    ensures { IfOk result (λ next. plain_of next ≡ opened_store (record { stages = image.now.stages; image_pages = no_savepoint.image_pages; root_pages = 0 }) (record { base = after_all empty_state first.items; entries = behind.now }) 0) }
{
    let entries = entries_copied(alloc, behind)?;
    let stages = replayed(alloc, image.stages.as_slice(), behind)?;
    let sessions = nobody(alloc)?;
    let next = next_of(first.as_slice(), behind);
    let load = rows as u64 + load_of(behind) + 1;
    Ok(Held {
        opening: (first.len() + behind.len()) as u32,
        first,
        entries,
        sessions,
        next_id: next.max(load) as u32,
        rows_limit: 0,
        pending: None,
        progress: Progress::Idle,
        captured: Image::new(alloc),
        root_pages: 0,
        told: 0,
        stages,
    })
}
