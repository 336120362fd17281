//! One value of a row that was found.
ghost use Rattle.std.specs.Prelude.{◌≡◌, ◌<◌, length, slice_get, option_map, Some, IsTrue, IfOk};
ghost use Rattle.ut_value.specs.declared.value.Column.{Column};
ghost use Rattle.ut_value.specs.KeyOrder.{value_cmp};
ghost use Rattle.ut_staged.specs.Staged.{row_at};
ghost use Rattle.ut_ops.specs.Fit.{is_row, cell, values_at};

use std::alloc::{AllocError, Global};
use std::cmp::Ordering;
use ut_key::Key;
use ut_scan::Found;
use ut_table::Table;
use ut_value::{Kind, Seq, Value, int_of};

/// A copy of a row's values.
pub(crate) fn values_at(alloc: Global, table: &Table, hit: Found) -> Result<Seq<Value>, AllocError>
    requires { IsTrue (is_row table.now.stages.columns (row_at table.now.stages hit.place)) }
    ensures { IfOk result (λ values. values ≡ values_at table.now.stages hit) }
{
    table.values(alloc, hit.place)
}

/// A copy of a row's value in a column.
pub(crate) fn value_at(
    alloc: Global,
    table: &Table,
    hit: Found,
    column: usize,
) -> Result<Value, AllocError>
    requires row { IsTrue (is_row table.now.stages.columns (row_at table.now.stages hit.place)) }
    requires column { column < length table.now.stages.columns }
    ensures { IfOk result (λ value. value ≡ cell table.now.stages column hit) }
{
    table.value(alloc, hit.place, column)
}

/// A row's number in a column of numbers.
pub(crate) fn number_at(table: &Table, hit: Found, column: usize) -> i64
    requires row { IsTrue (is_row table.now.stages.columns (row_at table.now.stages hit.place)) }
    requires column { option_map (λ (c : Column). c.kind) (slice_get table.now.stages.columns column) ≡ Some Kind.Int }
    ensures { cell table.now.stages column hit ≡ Value.Int result }
{
    let mut room = Key::new();
    int_of(table.key(hit.place, column, &mut room)).unwrap_or(0)
}

/// How two rows are ordered by their values in a column.
pub(crate) fn compare_at(table: &Table, first: Found, second: Found, column: usize) -> Ordering
    requires first { IsTrue (is_row table.now.stages.columns (row_at table.now.stages first.place)) }
    requires second { IsTrue (is_row table.now.stages.columns (row_at table.now.stages second.place)) }
    requires column { column < length table.now.stages.columns }
    ensures { result ≡ value_cmp (cell table.now.stages column first) (cell table.now.stages column second) }
{
    let mut room = Key::new();
    let mut other_room = Key::new();
    let key = table.key(first.place, column, &mut room);
    key.cmp(&table.key(second.place, column, &mut other_room))
}
