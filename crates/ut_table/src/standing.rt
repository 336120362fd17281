//! The values of a row, as its stage holds it.
ghost use Rattle.std.specs.Prelude.{◌≡◌, ◌<◌, length, get_or, slice_get, Some, IfOk};
ghost use Rattle.ut_value.specs.declared.value.Value.{Value};
ghost use Rattle.ut_value.specs.KeyBytes.{key_of, IsKeyOf};
ghost use Rattle.ut_l2.specs.KeyRows.{no_row, key_at};
ghost use Rattle.ut_table.specs.Decoded.{decoded};
ghost use Rattle.ut_table.specs.Kept.{HoldsRow};
ghost use Rattle.ut_table.specs.Standing.{values_held, Stands};

use std::alloc::{AllocError, Global};
use std::marker::Brand;
use std::sync::ledger::{Blank, Ledger};
use ut_key::{Key, Steps};
use ut_l2::L2;
use ut_main::Part;
use ut_value::{Column, Duplicate, Kind, Row, Seq, Text, Value, int_key, int_of};

/// A row of the first stage, or the place of one that is held by its keys.
#[derive(Clone, Copy)]
pub(crate) enum Standing<'a> {
    Row(&'a Row),
    Delta(&'a L2, u32),
    Part(&'a Part, u32),
}

/// The value of a key.
fn decoded(alloc: Global, kind: Kind, key: &[u8]) -> Result<Value, AllocError>
    requires { IsKeyOf kind key.now (decoded kind key.now) }
    ensures { IfOk result (λ value. value ≡ decoded kind key.now) }
{
    match kind {
        Kind::Int => Ok(Value::Int(int_of(key).unwrap_or(0))),
        Kind::Text => Ok(Value::Text(Text::from_slice(alloc, key)?)),
    }
}

/// The key of a row of a part, with a counter for its step over a new ledger.
fn counted_key<L: Ledger>(part: &Part, i: u32, column: u8, blank: Blank) -> Key
    requires name { blank.name ≡ L.name }
    requires parts { blank.parts ≡ L.parts }
    requires positive { 0 < blank.parts }
    requires column { column < length part.now.before }
    requires place { i < length part.now.rows }
    ensures { result ≡ key_at column (get_or part.now.rows i no_row) }
{
    let mut steps = Steps::<L>::new(blank);
    part.key(column, i, &mut steps)
}

/// The key of a row of a part.
fn part_key(columns: &[Column], part: &Part, i: u32, column: usize) -> Key
    requires row { HoldsRow columns.now (length part.now.before) part.now.rows i }
    requires column { column < length columns.now }
    ensures { result ≡ key_at column (get_or part.now.rows i no_row) }
{
    counted_key::<Brand>(part, i, column as u8, Blank::new(1))
}

/// The key of a row of a delta.
fn delta_key<'a>(columns: &[Column], l2: &'a L2, i: u32, column: usize) -> &'a [u8]
    requires row { HoldsRow columns.now l2.now.width l2.now.rows i }
    requires column { column < length columns.now }
    ensures { result.now ≡ key_at column (get_or l2.now.rows i no_row) }
{
    l2.bytes(column as u8, i)
}

/// The key of a value, where that of a number is written into `room`.
fn value_key<'a>(value: &'a Value, room: &'a mut Key) -> &'a [u8]
    ensures { result.now ≡ key_of value.now }
{
    match value {
        Value::Int(number) => {
            room.splice(0, &int_key(*number));
            room.as_slice()
        }
        Value::Text(text) => text.as_slice(),
    }
}

/// The key of a row's value in a column. `room` is for one that isn't held as bytes.
pub(crate) fn key_of<'a>(
    columns: &[Column],
    standing: Standing<'a>,
    column: usize,
    room: &'a mut Key,
) -> &'a [u8]
    requires stands { Stands columns.now standing }
    requires column { column < length columns.now }
    ensures { (value : Value) → slice_get (values_held columns.now standing.entry) column ≡ Some value → result.now ≡ key_of value }
{
    match standing {
        Standing::Row(row) => value_key(&row.values.as_slice()[column], room),
        Standing::Delta(l2, i) => delta_key(columns, l2, i, column),
        Standing::Part(part, i) => {
            *room = part_key(columns, part, i, column);
            room.as_slice()
        }
    }
}

/// A copy of a row's value in a column.
pub(crate) fn value_of_row(
    alloc: Global,
    columns: &[Column],
    standing: Standing<'_>,
    column: usize,
) -> Result<Value, AllocError>
    requires stands { Stands columns.now standing }
    requires column { column < length columns.now }
    ensures { IfOk result (λ value. slice_get (values_held columns.now standing.entry) column ≡ Some value) }
{
    let kind = columns[column].kind;
    match standing {
        Standing::Row(row) => row.values.as_slice()[column].copy(alloc),
        Standing::Delta(l2, i) => decoded(alloc, kind, delta_key(columns, l2, i, column)),
        Standing::Part(part, i) => {
            decoded(alloc, kind, part_key(columns, part, i, column).as_slice())
        }
    }
}

/// A copy of a row's values.
pub(crate) fn values_of(
    alloc: Global,
    columns: &[Column],
    standing: Standing<'_>,
) -> Result<Seq<Value>, AllocError>
    requires { Stands columns.now standing }
    ensures { IfOk result (λ values. values ≡ values_held columns.now standing.entry) }
{
    let mut values = Seq::new(alloc);
    for column in 0..columns.len() {
        let value = value_of_row(alloc, columns, standing, column)?;
        values.push(value)?;
    }
    Ok(values)
}
