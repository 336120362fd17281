//! What the begin and the end of a merge make of the stages of its table.
ghost use Rattle.std.specs.Prelude.{◌≡◌, [], IfOk};
ghost use Rattle.std.specs.Option.{unwrap_or};
ghost use Rattle.ut_plain.specs.Journal.{Journal};
ghost use Rattle.ut_plain.specs.Plain.{Sessions};
ghost use Rattle.ut_plain.specs.Merges.{staying, arranged, merged, closing, switched, has_places, has_part_room};
ghost use Rattle.check_stages.specs.Needed.{AreNeeded};

use crate::flags::flags;
use crate::places::{flagged_all, lists_of, parts_copied};
use crate::sorted::resorted;
use std::alloc::{AllocError, Global};
use ut_plain::{Placed, TableStages};
use ut_value::{Duplicate, MergeKind, PARTS_LIMIT, ROWS_LIMIT, Seq};

/// The most parts of a table.
const MAX_PARTS: usize = PARTS_LIMIT as usize;

/// The most places that are merged.
const MAX_PLACES: usize = ROWS_LIMIT as usize - 1;

// How many parts stay as they are, of so many.
fn staying(kind: MergeKind, parts: usize) -> usize
    ensures { result ≡ staying kind parts }
{
    match kind {
        MergeKind::Classic => 0,
        MergeKind::Resort => 0,
        MergeKind::Partial => { if parts < 2 { parts } else { parts - 1 } }
        MergeKind::Extend => parts,
    }
}

fn arranged(alloc: Global, kind: MergeKind, places: Seq<Placed>) -> Result<Seq<Placed>, AllocError>
    ensures { IfOk result (λ copy. copy ≡ arranged kind places) }
{
    match kind {
        MergeKind::Resort => resorted(alloc, places.as_slice()),
        MergeKind::Classic => Ok(places),
        MergeKind::Partial => Ok(places),
        MergeKind::Extend => Ok(places),
    }
}

// The parts behind a merge: those that stay, and one more.
fn merged(
    alloc: Global,
    kind: MergeKind,
    parts: &[Seq<Placed>],
    closed: &[Placed],
    keep: &[Seq<bool>],
) -> Result<Seq<Seq<Placed>>, AllocError>
    ensures { IfOk result (λ all. all ≡ merged kind parts.now closed.now keep.now) }
{
    let stay = staying(kind, parts.len());
    let lists = lists_of(alloc, parts, closed)?;
    let (_, rebuilt) = lists.as_slice().split_at(stay);
    let (_, keep) = keep.split_at(stay.min(keep.len()));
    let kept = flagged_all(alloc, rebuilt, keep)?;
    let last = arranged(alloc, kind, kept)?;
    let mut all = parts_copied(alloc, &parts[..stay])?;
    all.push(last)?;
    Ok(all)
}

/// The stages of a table behind the begin of a merge that keeps the rows of these ids.
pub fn closing(
    alloc: Global,
    ids: &[u32],
    kind: MergeKind,
    stages: &TableStages,
) -> Result<TableStages, AllocError>
    ensures { (j : Journal) (sessions : Sessions) → AreNeeded ids.now j sessions → IfOk result (λ next. next ≡ closing j sessions kind stages.now) }
{
    let parts = stages.parts.as_slice();
    let lists = lists_of(alloc, parts, stages.l2.as_slice())?;
    let keep = flags(alloc, ids, staying(kind, parts.len()), lists.as_slice())?;
    let closed = stages.l2.duplicate(alloc)?;
    let mut next = stages.duplicate(alloc)?;
    next.closed = Some(closed);
    next.l2 = Seq::new(alloc);
    next.keep = keep;
    Ok(next)
}

/// The stages of a table behind the end of its merge.
pub fn switched(
    alloc: Global,
    kind: MergeKind,
    stages: &TableStages,
) -> Result<TableStages, AllocError>
    ensures { IfOk result (λ next. next ≡ switched kind stages.now) }
{
    let parts = merged(
        alloc,
        kind,
        stages.parts.as_slice(),
        closed_places(stages),
        stages.keep.as_slice(),
    )?;
    let mut next = stages.duplicate(alloc)?;
    next.closed = None;
    next.parts = parts;
    next.keep = Seq::new(alloc);
    Ok(next)
}

/// The places of the closed stage, none where nothing is closed.
pub(crate) fn closed_places(stages: &TableStages) -> &[Placed]
    ensures { result.now ≡ unwrap_or stages.now.closed [] }
{
    match &stages.closed {
        None => &[],
        Some(places) => places.as_slice(),
    }
}

/// Whether fewer than 2 ^ 31 places come together.
pub fn has_places(stages: &TableStages) -> bool
    ensures { result ≡ has_places stages.now }
{
    let mut left = MAX_PLACES;
    for part in stages.parts.as_slice() {
        if part.len() > left {
            return false;
        }
        left -= part.len();
    }
    stages.l2.len() <= left
}

/// Whether there are at most eight parts behind a merge.
pub fn has_part_room(kind: MergeKind, parts: usize) -> bool
    ensures { result ≡ has_part_room kind parts }
{
    match kind {
        MergeKind::Extend => parts < MAX_PARTS,
        MergeKind::Classic => true,
        MergeKind::Resort => true,
        MergeKind::Partial => true,
    }
}
