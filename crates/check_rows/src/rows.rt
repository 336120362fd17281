//! Rows by ascending id, and operations on them.
ghost use Rattle.std.specs.Prelude.{◌≡◌, ◌≤◌, ◌<◌, ◌++◌, ℕ, OnOk, length, take, drop, slice_index_or};
ghost use Rattle.ut_plain.specs.declared.table.Stored.{Stored};
ghost use Rattle.std.specs.FinMap.Entries.{put};
ghost use Rattle.std.specs.Ordering.{nat_cmp};
ghost use Rattle.check_rows.specs.Listed.{listed, listed_all};

use std::alloc::{AllocError, Global};
use ut_plain::Stored;
use ut_value::{Duplicate, Op};

// Puts a row in its place. A row that stands under its id is replaced.
fn put(rows: &mut Vec<(u32, Stored)>, id: u32, row: Stored) -> Result<(), AllocError>
    ensures { OnOk result (rows.new.items ≡ put nat_cmp id row rows.old.items) }
{
    let place = place_for(rows.as_slice(), id);
    if place < rows.len() && rows[place].0 == id {
        rows[place] = (id, row);
        return Ok(());
    }
    rows.insert(place, (id, row))?;
    Ok(())
}

// How many rows stand before an id.
fn place_for(rows: &[(u32, Stored)], id: u32) -> usize
    ensures within { result ≤ length rows.now }
    ensures before { (v : Stored) → put nat_cmp id v rows.now ≡ take result rows.now ++ put nat_cmp id v (drop result rows.now) }
    ensures here { (k : ℕ × Stored) → result < length rows.now → id ≤ (slice_index_or rows.now result k).0 }
{
    for (place, row) in rows.iter().enumerate() {
        if id <= row.0 {
            return place;
        }
    }
    rows.len()
}

// The rows after an operation.
fn apply(alloc: Global, rows: &mut Vec<(u32, Stored)>, op: &Op) -> Result<(), AllocError>
    ensures { OnOk result (rows.new.items ≡ listed rows.old.items op.now) }
{
    match op {
        Op::Insert { table, id, values } => {
            let values = values.duplicate(alloc)?;
            put(
                rows,
                *id,
                Stored {
                    table: *table,
                    values,
                },
            )
        }
        Op::Delete { id, .. } => {
            let gone = *id;
            rows.retain(|row| row.0 != gone);
            Ok(())
        }
    }
}

/// The rows after these operations.
pub fn apply_all(alloc: Global, rows: &mut Vec<(u32, Stored)>, ops: &[Op]) -> Result<(), AllocError>
    ensures { OnOk result (rows.new.items ≡ listed_all rows.old.items ops.now) }
{
    for op in ops {
        apply(alloc, rows, op)?;
    }
    Ok(())
}
