//! The sum of a column.
ghost use Rattle.std.specs.Prelude.{◌≡◌, ◌≤◌, ◌^◌, ℕ, pos, neg_ℤ, ◌≤ℤ◌, List, length, map, slice_get, option_map, Some};
ghost use Rattle.ut_value.specs.declared.value.Column.{Column};
ghost use Rattle.ut_plain.specs.Tables.{column_of};
ghost use Rattle.ut_plain.specs.Query.{column_values, total};
ghost use Rattle.ut_table.specs.Finds.{rows_at};
ghost use Rattle.ut_ops.specs.Fit.{Fit, cell};
ghost use Rattle.ut_ops.specs.Noted.{AreNoted};

use crate::numbers::{NONE, Noted, main_notes, noted_number};
use std::alloc::Global;
use ut_scan::Found;
use ut_table::Table;
use ut_value::Kind;

/// How many codes have their numbers noted.
const ROOM: usize = 1024;

/// The sum of a column of numbers. Where there are many rows, the numbers of their codes are noted:
/// of main's all at once, where these are many and the rows not fewer. Where memory is refused keys
/// are read one by one.
pub fn sum(alloc: Global, table: &Table, column: usize, hits: &[Found]) -> i128
    requires numbers { option_map (λ (c : Column). c.kind) (slice_get table.now.stages.columns column) ≡ Some Kind.Int }
    requires few { length hits.now ≤ 2 ^ 31 }
    requires fit { Fit table.now.stages hits.now }
    ensures { let s = table.now.stages in
        (n : ℕ) (name : List ℕ) → column_of s.columns name ≡ Some column
        → result ≡ total (column_values s.columns name (rows_at n s hits.now)) }
{
    let codes = table.codes(column);
    if ROOM < codes && codes <= hits.len() {
        if let Ok(all) = main_notes(alloc, table, column) {
            let mut notes = all;
            return sum_at(table, column, hits, notes.as_mut_slice());
        }
    }
    sum_noted(table, column, hits)
}

/// The sum, the numbers of some codes noted.
pub(crate) fn sum_noted(table: &Table, column: usize, hits: &[Found]) -> i128
    requires numbers { option_map (λ (c : Column). c.kind) (slice_get table.now.stages.columns column) ≡ Some Kind.Int }
    requires few { length hits.now ≤ 2 ^ 31 }
    requires fit { Fit table.now.stages hits.now }
    ensures sum { result ≡ total (map (cell table.now.stages column) hits.now) }
    ensures low { neg_ℤ (pos 19807040628566084398385987584) ≤ℤ result }
    ensures high { result ≤ℤ pos 19807040628566084398385987584 }
{
    if hits.len() < ROOM {
        return sum_at(table, column, hits, &mut []);
    }
    let mut notes = [NONE; ROOM];
    sum_at(table, column, hits, &mut notes)
}

fn sum_at(table: &Table, column: usize, hits: &[Found], notes: &mut [Noted]) -> i128
    requires numbers { option_map (λ (c : Column). c.kind) (slice_get table.now.stages.columns column) ≡ Some Kind.Int }
    requires few { length hits.now ≤ 2 ^ 31 }
    requires fit { Fit table.now.stages hits.now }
    requires noted { AreNoted table.now.stages column notes.old }
    ensures sum { result ≡ total (map (cell table.now.stages column) hits.now) }
    ensures low { neg_ℤ (pos 19807040628566084398385987584) ≤ℤ result }
    ensures high { result ≤ℤ pos 19807040628566084398385987584 }
{
    let mut sum: i128 = 0;
    for hit in hits {
        sum += i128::from(noted_number(table, *hit, column, notes));
    }
    sum
}
