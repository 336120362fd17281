//! How many rows stand in each stage.
ghost use Rattle.std.specs.Prelude.{◌≡◌, ◌<◌, ◌+◌, [], nat_le, length, map, IfOk, IfSome, IfNone};
ghost use Rattle.std.specs.List.{sum_by};
ghost use Rattle.std.specs.Option.{option_map, unwrap_or};
ghost use Rattle.ut_plain.specs.Stages.{places_of, all_places, shape_of};
ghost use Rattle.ut_plain.specs.Merges.{main_places};

use crate::merges::closed_places;
use std::alloc::{AllocError, Global};
use ut_plain::{Placed, Shape, TableStages};
use ut_value::Seq;

/// How many rows stand in each stage of a table.
pub fn shape_of(alloc: Global, stages: &TableStages) -> Result<Shape, AllocError>
    requires few { places_of stages.now < 4294967296 }
    requires main { main_places stages.now < 4294967296 }
    ensures { IfOk result (λ shape. shape ≡ shape_of stages.now) }
{
    let parts = lengths(alloc, stages.parts.as_slice())?;
    Ok(Shape {
        l1: stages.l1.len() as u32,
        l2: stages.l2.len() as u32,
        closed: closed_len(&stages.closed),
        parts,
    })
}

fn lengths(alloc: Global, parts: &[Seq<Placed>]) -> Result<Seq<u32>, AllocError>
    requires { sum_by length parts.now < 4294967296 }
    ensures { IfOk result (λ lengths. lengths ≡ map length parts.now) }
{
    let mut lengths = Seq::new(alloc);
    for part in parts {
        lengths.push(part.len() as u32)?;
    }
    Ok(lengths)
}

fn closed_len(closed: &Option<Seq<Placed>>) -> Option<u32>
    requires { length (unwrap_or closed.now []) < 4294967296 }
    ensures { result ≡ option_map length closed.now }
{
    match closed {
        None => None,
        Some(places) => Some(places.len() as u32),
    }
}

/// Whether at most so many rows stand outside main.
pub fn has_at_most(stages: &[TableStages], rows: usize) -> bool
    ensures { result ≡ nat_le (all_places stages.now) rows }
{
    let mut left = rows;
    for table in stages {
        match left_by(left, table) {
            None => return false,
            Some(rest) => left = rest,
        }
    }
    true
}

// What is left of a room behind the rows of a table that stand outside main, none where they need more.
fn left_by(room: usize, stages: &TableStages) -> Option<usize>
    ensures left { IfSome result (λ left. left + places_of stages.now ≡ room) }
    ensures more { IfNone result (room < places_of stages.now) }
{
    let left = room.checked_sub(stages.l1.len())?;
    let left = left.checked_sub(stages.l2.len())?;
    left.checked_sub(closed_places(stages).len())
}
