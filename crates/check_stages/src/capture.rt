//! What a savepoint captures of the stages, where the rows that are there are told by their ids.
ghost use Rattle.std.specs.Prelude.{◌≡◌, map, IfOk};
ghost use Rattle.std.specs.List.{filter};
ghost use Rattle.ut_plain.specs.State.{State};
ghost use Rattle.ut_plain.specs.Capture.{capture};
ghost use Rattle.check_stages.specs.There.{AreThere, is_live_by, place_by, table_by};

use crate::flags::has;
use crate::merges::closed_places;
use std::alloc::{AllocError, Global};
use ut_plain::{Placed, TableStages};
use ut_value::{Duplicate, Seq};

fn is_live(ids: &[u32], place: &Placed) -> bool
    ensures { result ≡ is_live_by ids.now place.now }
{
    if place.dead {
        return false;
    }
    has(ids, place.id)
}

// The live ones of these places.
fn rows_of(alloc: Global, ids: &[u32], places: &[Placed]) -> Result<Seq<Placed>, AllocError>
    ensures { IfOk result (λ rows. rows ≡ filter (is_live_by ids.now) places.now) }
{
    let mut rows = Seq::new(alloc);
    for place in places {
        if is_live(ids, place) {
            let row = place.duplicate(alloc)?;
            rows.push(row)?;
        }
    }
    Ok(rows)
}

fn place_of(alloc: Global, ids: &[u32], place: &Placed) -> Result<Placed, AllocError>
    ensures { IfOk result (λ copy. copy ≡ place_by ids.now place.now) }
{
    let mut copy = place.duplicate(alloc)?;
    copy.dead = !is_live(ids, place);
    Ok(copy)
}

// A part, in which each place that isn't live is dead.
fn part_of(alloc: Global, ids: &[u32], part: &[Placed]) -> Result<Seq<Placed>, AllocError>
    ensures { IfOk result (λ copy. copy ≡ map (place_by ids.now) part.now) }
{
    let mut copies = Seq::new(alloc);
    for place in part {
        let copy = place_of(alloc, ids, place)?;
        copies.push(copy)?;
    }
    Ok(copies)
}

fn parts_of(
    alloc: Global,
    ids: &[u32],
    parts: &[Seq<Placed>],
) -> Result<Seq<Seq<Placed>>, AllocError>
    ensures { IfOk result (λ copy. copy ≡ map (map (place_by ids.now)) parts.now) }
{
    let mut copies = Seq::new(alloc);
    for part in parts {
        let copy = part_of(alloc, ids, part.as_slice())?;
        copies.push(copy)?;
    }
    Ok(copies)
}

fn table_of(alloc: Global, ids: &[u32], stages: &TableStages) -> Result<TableStages, AllocError>
    ensures { IfOk result (λ image. image ≡ table_by ids.now stages.now) }
{
    let l1 = rows_of(alloc, ids, stages.l1.as_slice())?;
    let mut l2 = rows_of(alloc, ids, closed_places(stages))?;
    let behind = rows_of(alloc, ids, stages.l2.as_slice())?;
    l2.append(behind)?;
    let parts = parts_of(alloc, ids, stages.parts.as_slice())?;
    Ok(TableStages {
        l1,
        l2,
        closed: None,
        parts,
        keep: Seq::new(alloc),
    })
}

/// The stages that a savepoint captures, where these are the ids of the rows that are there.
pub fn captured(
    alloc: Global,
    ids: &[u32],
    stages: &[TableStages],
) -> Result<Seq<TableStages>, AllocError>
    ensures { (s : State) → AreThere ids.now s.rows → IfOk result (λ image. image ≡ (capture s stages.now).stages) }
{
    let mut image = Seq::new(alloc);
    for table in stages {
        let copy = table_of(alloc, ids, table)?;
        image.push(copy)?;
    }
    Ok(image)
}
