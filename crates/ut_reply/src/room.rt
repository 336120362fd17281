//! How many bytes the text of a reply may have.
ghost use Rattle.std.specs.Prelude.{◌≡◌, ◌<◌, ◌+◌, ◌*◌, ◌^◌, [], All, IfOk, SomeIff, length, get_or, map, sum_by};
ghost use Rattle.ut_rows.specs.Columns.{values_at};
ghost use Rattle.ut_reply.specs.Texts.{reply_room, items_room, value_room, tuple_room, value_or_none_room};

use crate::columns::are_shared;
use std::alloc::{AllocError, Global};
use ut_plain::{Group, Reply};
use ut_rows::{Cells, Rows};
use ut_value::Value;

/// A reply without rows, groups, values and parts has at most so many bytes.
pub const SMALL_REPLY: usize = 96;

/// At most so many bytes has the text of a reply; none where the number is too large.
pub(crate) fn room_of(alloc: Global, reply: &Reply) -> Option<usize>
    ensures { SomeIff result (reply_room reply.now < 2 ^ 64) (reply_room reply.now) }
{
    let items = items_room(alloc, reply)?;
    items.checked_add(SMALL_REPLY)
}

fn items_room(alloc: Global, reply: &Reply) -> Option<usize>
    ensures { SomeIff result (items_room reply.now < 2 ^ 64) (items_room reply.now) }
{
    match reply {
        Reply::Rows(tuples) => tuples_room(alloc, tuples),
        Reply::Groups(groups) => groups_room(groups.as_slice()),
        Reply::Min(value) => value_or_none_room(value),
        Reply::Max(value) => value_or_none_room(value),
        Reply::Shape(shape) => shape.parts.len().checked_mul(11),
        _ => Some(0),
    }
}

fn tuples_room(alloc: Global, rows: &Rows) -> Option<usize>
    ensures { SomeIff result
        (sum_by (λ t. tuple_room t + 1) rows.now < 2 ^ 64)
        (sum_by (λ t. tuple_room t + 1) rows.now) }
{
    match rows.columns() {
        Some(columns) => columns_room(alloc, columns, rows.len()),
        None => lists_room(rows),
    }
}

// Of rows that are held by columns: a byte for each row, and what each column takes.
fn columns_room(alloc: Global, columns: &[Cells], rows: usize) -> Option<usize>
    ensures { SomeIff result
        (rows + sum_by tuple_room columns.now < 2 ^ 64)
        (rows + sum_by tuple_room columns.now) }
{
    let mut room = rows;
    for column in columns {
        let more = column_room(alloc, column)?;
        room = room.checked_add(more)?;
    }
    Some(room)
}

// Where many rows share the values of a column and there is memory, the room of each value is taken once.
fn column_room(alloc: Global, column: &Cells) -> Option<usize>
    ensures { SomeIff result (tuple_room column.now < 2 ^ 64) (tuple_room column.now) }
{
    let (values, places) = column.shared();
    if are_shared(values, places) {
        if let Ok(rooms) = rooms_of(alloc, values) {
            return shared_room(&rooms, places);
        }
    }
    values_room(values, places)
}

// What each value takes, and a byte in front of it.
fn rooms_of(alloc: Global, values: &[Value]) -> Result<Vec<u16>, AllocError>
    ensures { IfOk result (λ rooms. rooms.items ≡ map (λ v. value_room v + 1) values.now) }
{
    let mut rooms = Vec::with_capacity(alloc, values.len())?;
    for value in values {
        rooms.push((value_room(value) + 1) as u16)?;
    }
    Ok(rooms)
}

fn shared_room(rooms: &[u16], places: &[u32]) -> Option<usize>
    requires { All (λ place. place < length rooms.now) places.now }
    ensures { SomeIff result
        (sum_by (λ place. get_or rooms.now place 0) places.now < 2 ^ 64)
        (sum_by (λ place. get_or rooms.now place 0) places.now) }
{
    let mut room = 0usize;
    for place in places {
        room = room.checked_add(usize::from(rooms[*place as usize]))?;
    }
    Some(room)
}

fn values_room(values: &[Value], places: &[u32]) -> Option<usize>
    requires { All (λ place. place < length values.now) places.now }
    ensures { SomeIff result
        (tuple_room (values_at values.now places.now) < 2 ^ 64)
        (tuple_room (values_at values.now places.now)) }
{
    let mut room = 0usize;
    for place in places {
        let more = value_room(&values[*place as usize]) + 1;
        room = room.checked_add(more)?;
    }
    Some(room)
}

fn lists_room(rows: &Rows) -> Option<usize>
    ensures { SomeIff result
        (sum_by (λ t. tuple_room t + 1) rows.now < 2 ^ 64)
        (sum_by (λ t. tuple_room t + 1) rows.now) }
{
    let mut room = 0usize;
    for row in 0..rows.len() {
        let more = tuple_room(rows, row)?.checked_add(1)?;
        room = room.checked_add(more)?;
    }
    Some(room)
}

fn tuple_room(rows: &Rows, row: usize) -> Option<usize>
    requires { row < length rows.now }
    ensures { SomeIff result
        (tuple_room (get_or rows.now row []) < 2 ^ 64)
        (tuple_room (get_or rows.now row [])) }
{
    let mut room = 0usize;
    for column in 0..rows.width(row) {
        let more = value_room(rows.value(row, column)) + 1;
        room = room.checked_add(more)?;
    }
    Some(room)
}

fn groups_room(groups: &[Group]) -> Option<usize>
    ensures { SomeIff result
        (sum_by (λ g. value_room g.key + 42) groups.now < 2 ^ 64)
        (sum_by (λ g. value_room g.key + 42) groups.now) }
{
    let mut room = 0usize;
    for group in groups {
        let more = value_room(&group.key) + 42;
        room = room.checked_add(more)?;
    }
    Some(room)
}

fn value_or_none_room(value: &Option<Value>) -> Option<usize>
    ensures { SomeIff result (value_or_none_room value.now < 2 ^ 64) (value_or_none_room value.now) }
{
    match value {
        None => Some(0),
        Some(value) => Some(value_room(value)),
    }
}

pub(crate) fn value_room(value: &Value) -> usize
    ensures value { result ≡ value_room value.now }
    ensures small { result < 1000 }
{
    match value {
        Value::Int(_) => 20,
        Value::Text(text) => 2 * text.as_slice().len() + 2,
    }
}
