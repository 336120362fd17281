//! How many bytes the parts of a directory have; none where the number is too large.
ghost use Rattle.std.specs.Prelude.{◌≡◌, ◌<◌, ◌+◌, ◌^◌, SomeIff, length};
ghost use Rattle.std.specs.List.{sum_by};
ghost use Rattle.ut_value.specs.Spelling.{column_len};
ghost use Rattle.ut_image.specs.Bytes.{marks_len};
ghost use Rattle.ut_image.specs.Steps.{cell_len, row_len, rows_len, part_len, front_len, drawn_len};

use crate::PartRef;
use crate::marks::marks_len;
use ut_plain::Table;
use ut_value::{Column, Row, Value};

fn cell_len(value: &Value) -> usize
    ensures { result ≡ cell_len value.now }
{
    match value {
        Value::Int(_) => 8,
        Value::Text(text) => text.as_slice().len() + 1,
    }
}

pub(crate) fn row_len(row: &Row) -> Option<usize>
    ensures { SomeIff result (row_len row.now < 2 ^ 64) (row_len row.now) }
{
    let mut len = 0usize;
    for value in row.values.as_slice() {
        len = len.checked_add(cell_len(value))?;
    }
    len.checked_add(4)
}

pub(crate) fn rows_len(rows: &[Row]) -> Option<usize>
    ensures { SomeIff result (rows_len rows.now < 2 ^ 64) (rows_len rows.now) }
{
    let mut len = 0usize;
    for row in rows {
        len = len.checked_add(row_len(row)?)?;
    }
    len.checked_add(4)
}

fn columns_len(columns: &[Column]) -> Option<usize>
    ensures { SomeIff result (sum_by column_len columns.now < 2 ^ 64) (sum_by column_len columns.now) }
{
    let mut len = 0usize;
    for column in columns {
        len = len.checked_add(column.name.as_slice().len() + 2)?;
    }
    Some(len)
}

fn parts_len(parts: &[PartRef]) -> Option<usize>
    ensures { SomeIff result (sum_by part_len parts.now < 2 ^ 64) (sum_by part_len parts.now) }
{
    let mut len = 0usize;
    for part in parts {
        len = len.checked_add(marks_len(part.live.len()) + 16)?;
    }
    Some(len)
}

pub(crate) fn front_len(table: &Table, parts: &[PartRef]) -> Option<usize>
    ensures { SomeIff result (front_len table.now parts.now < 2 ^ 64) (front_len table.now parts.now) }
{
    let columns = columns_len(table.columns.as_slice())?;
    let parts = parts_len(parts)?;
    let named = table.name.as_slice().len().checked_add(columns)?;
    named.checked_add(parts)?.checked_add(3)
}

pub(crate) fn table_len(table: &Table, parts: &[PartRef], l2: &[Row], l1: &[Row]) -> Option<usize>
    ensures { SomeIff result (drawn_len table.now parts.now l2.now l1.now < 2 ^ 64) (drawn_len table.now parts.now l2.now l1.now) }
{
    let front = front_len(table, parts)?;
    let l2 = rows_len(l2)?;
    let l1 = rows_len(l1)?;
    front.checked_add(l2)?.checked_add(l1)
}
