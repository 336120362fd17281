//! The ids of rows: whether they are given ones, and no two equal.
ghost use Rattle.std.specs.Prelude.{◌≡◌, ◌≢◌, ◌↔◌, ◌<◌, ◌≤◌, ◌++◌, IsTrue, IfOk, OnOk, map};
ghost use Rattle.std.specs.Bool.{Decides};
ghost use Rattle.std.specs.List.{All, AllPairs};
ghost use Rattle.std.specs.List.Sorted.{IsStrictlyIncreasing};
ghost use Rattle.ut_image.specs.Rules.{AreOwnIds, ids_of};

use crate::Drawn;
use std::alloc::{AllocError, Global};
use ut_value::Row;

/// The ids of the rows in the deltas.
pub fn ids_of(alloc: Global, tables: &[Drawn]) -> Result<Vec<u32>, AllocError>
    ensures { IfOk result (λ ids. ids.items ≡ ids_of tables.now) }
{
    let mut ids = Vec::new(alloc);
    for drawn in tables {
        add_ids(&mut ids, drawn.l2.as_slice())?;
        add_ids(&mut ids, drawn.l1.as_slice())?;
    }
    Ok(ids)
}

fn add_ids(ids: &mut Vec<u32>, rows: &[Row]) -> Result<(), AllocError>
    ensures { OnOk result (ids.new.items ≡ ids.old.items ++ map (λ r. r.id) rows.now) }
{
    for row in rows {
        ids.push(row.id)?;
    }
    Ok(())
}

/// Whether these are ids from 1 to the one before the next, no two equal.
pub fn are_own_ids(alloc: Global, ids: &[u32], next: u32) -> Result<bool, AllocError>
    ensures { IfOk result (λ b. IsTrue b ↔ AreOwnIds next ids.now) }
{
    if !are_within(ids, next) {
        return Ok(false);
    }
    do_differ(alloc, ids)
}

fn are_within(ids: &[u32], next: u32) -> bool
    ensures { IsTrue result ↔ All (λ id. (1 ≤ id) × (id < next)) ids.now }
{
    ids.iter().all(|id| *id >= 1 && *id < next)
}

// Whether each is greater than the one before it.
fn is_ascending(ids: &[u32]) -> bool
    ensures { Decides result (IsStrictlyIncreasing ids.now) }
{
    for i in 1..ids.len() {
        if ids[i] <= ids[i - 1] {
            return false;
        }
    }
    true
}

// Whether no two are equal. They are ordered first, unless they ascend as they are.
fn do_differ(alloc: Global, ids: &[u32]) -> Result<bool, AllocError>
    ensures { IfOk result (λ b. Decides b (AllPairs (λ a b. a ≢ b) ids.now)) }
{
    if is_ascending(ids) {
        return Ok(true);
    }
    let mut ordered = Vec::from_slice(alloc, ids)?;
    ordered.sort_unstable();
    Ok(is_ascending(ordered.as_slice()))
}
