//! The value of a column at an end of the order.
ghost use Rattle.std.specs.Prelude.{◌≡◌, ◌<◌, ℕ, List, length, map, option_map, Some, IfOk, IfSome, IsTrue};
ghost use Rattle.ut_names.specs.Resolved.{beats};
ghost use Rattle.ut_plain.specs.Tables.{column_of};
ghost use Rattle.ut_plain.specs.Query.{column_values, best, best_from};
ghost use Rattle.ut_staged.specs.Staged.{row_at};
ghost use Rattle.ut_table.specs.Finds.{rows_at};
ghost use Rattle.ut_ops.specs.Fit.{is_row, Fit, cell};

use crate::cell::{compare_at, value_at};
use std::alloc::{AllocError, Global};
use std::cmp::Ordering;
use ut_names::End;
use ut_scan::Found;
use ut_table::Table;
use ut_value::Value;

/// The least or the greatest value of a column. There is none where no row was found.
pub fn extreme(
    alloc: Global,
    table: &Table,
    column: usize,
    hits: &[Found],
    end: End,
) -> Result<Option<Value>, AllocError>
    requires column { column < length table.now.stages.columns }
    requires fit { Fit table.now.stages hits.now }
    ensures { let s = table.now.stages in
        IfOk result (λ value. (n : ℕ) (name : List ℕ) → column_of s.columns name ≡ Some column
        → value ≡ best (beats end) (column_values s.columns name (rows_at n s hits.now))) }
{
    match extreme_at(table, column, hits, end) {
        None => Ok(None),
        Some(hit) => Ok(Some(value_at(alloc, table, hit, column)?)),
    }
}

/// The row with that value, the first one on a tie.
fn extreme_at(table: &Table, column: usize, hits: &[Found], end: End) -> Option<Found>
    requires fit { Fit table.now.stages hits.now }
    requires column { column < length table.now.stages.columns }
    ensures fits { IfSome result (λ hit. IsTrue (is_row table.now.stages.columns (row_at table.now.stages hit.place))) }
    ensures best { option_map (cell table.now.stages column) result ≡ best (beats end) (map (cell table.now.stages column) hits.now) }
{
    match hits {
        [] => None,
        [first, rest @ ..] => Some(extreme_from(table, column, *first, rest, end)),
    }
}

fn extreme_from(table: &Table, column: usize, first: Found, rest: &[Found], end: End) -> Found
    requires first { IsTrue (is_row table.now.stages.columns (row_at table.now.stages first.place)) }
    requires fit { Fit table.now.stages rest.now }
    requires column { column < length table.now.stages.columns }
    ensures fits { IsTrue (is_row table.now.stages.columns (row_at table.now.stages result.place)) }
    ensures best { cell table.now.stages column result ≡ best_from (beats end) (cell table.now.stages column first) (map (cell table.now.stages column) rest.now) }
{
    let mut best = first;
    for hit in rest {
        if beats(end, compare_at(table, *hit, best, column)) {
            best = *hit;
        }
    }
    best
}

/// Whether a value that compares so with the best so far is better.
fn beats(end: End, order: Ordering) -> bool
    ensures { result ≡ beats end order }
{
    match end {
        End::Least => order.is_lt(),
        End::Greatest => order.is_gt(),
    }
}
