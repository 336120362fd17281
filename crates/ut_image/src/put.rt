//! Puts the parts of a directory where there is room. This takes no memory.
ghost use Rattle.std.specs.Prelude.{◌≡◌, ◌+◌, ◌<◌, ◌≤◌, ◌^◌, ◌++◌, length, vec_len, vec_capacity};
ghost use Rattle.std.specs.List.{flat_map, sum_by};
ghost use Rattle.ut_image.specs.Bytes.{cell_bytes, row_bytes, rows_bytes, part_bytes, parts_bytes, head_bytes};
ghost use Rattle.ut_image.specs.Steps.{cell_len, row_len, rows_len, part_len, front_len};

use crate::PartRef;
use crate::marks::put_marks;
use ut_entry::{put, put_columns, put_text};
use ut_plain::Table;
use ut_value::{Row, Value, int_key};

fn put_cell(value: &Value, out: &mut Vec<u8>)
    requires { vec_len out.old + cell_len value.now ≤ vec_capacity out.old }
    ensures items { out.new.items ≡ out.old.items ++ cell_bytes value.now }
    ensures len { vec_len out.new ≡ vec_len out.old + cell_len value.now }
    ensures room { vec_capacity out.old ≤ vec_capacity out.new }
{
    match value {
        Value::Int(number) => put(&int_key(*number), out),
        Value::Text(text) => put_text(text.as_slice(), out),
    }
}

fn put_cells(values: &[Value], out: &mut Vec<u8>)
    requires { vec_len out.old + sum_by cell_len values.now ≤ vec_capacity out.old }
    ensures items { out.new.items ≡ out.old.items ++ flat_map cell_bytes values.now }
    ensures len { vec_len out.new ≡ vec_len out.old + sum_by cell_len values.now }
    ensures room { vec_capacity out.old ≤ vec_capacity out.new }
{
    for value in values {
        put_cell(value, out);
    }
}

pub(crate) fn put_row(row: &Row, out: &mut Vec<u8>)
    requires { vec_len out.old + row_len row.now ≤ vec_capacity out.old }
    ensures items { out.new.items ≡ out.old.items ++ row_bytes row.now }
    ensures len { vec_len out.new ≡ vec_len out.old + row_len row.now }
    ensures room { vec_capacity out.old ≤ vec_capacity out.new }
{
    put(&row.id.to_le_bytes(), out);
    put_cells(row.values.as_slice(), out);
}

fn put_each_row(rows: &[Row], out: &mut Vec<u8>)
    requires { vec_len out.old + sum_by row_len rows.now ≤ vec_capacity out.old }
    ensures items { out.new.items ≡ out.old.items ++ flat_map row_bytes rows.now }
    ensures len { vec_len out.new ≡ vec_len out.old + sum_by row_len rows.now }
    ensures room { vec_capacity out.old ≤ vec_capacity out.new }
{
    for row in rows {
        put_row(row, out);
    }
}

/// The number of rows, and each.
pub(crate) fn put_rows(rows: &[Row], out: &mut Vec<u8>)
    requires few { length rows.now ≤ 2 ^ 31 }
    requires room { vec_len out.old + rows_len rows.now ≤ vec_capacity out.old }
    ensures items { out.new.items ≡ out.old.items ++ rows_bytes rows.now }
    ensures len { vec_len out.new ≡ vec_len out.old + rows_len rows.now }
    ensures room { vec_capacity out.old ≤ vec_capacity out.new }
{
    let count = rows.len() as u32;
    put(&count.to_le_bytes(), out);
    put_each_row(rows, out);
}

fn put_part(part: &PartRef, out: &mut Vec<u8>)
    requires { vec_len out.old + part_len part.now ≤ vec_capacity out.old }
    ensures items { out.new.items ≡ out.old.items ++ part_bytes part.now }
    ensures len { vec_len out.new ≡ vec_len out.old + part_len part.now }
    ensures room { vec_capacity out.old ≤ vec_capacity out.new }
{
    put(&part.first.to_le_bytes(), out);
    put(&part.length.to_le_bytes(), out);
    put(&part.rows.to_le_bytes(), out);
    put_marks(part.live.as_slice(), out);
}

fn put_parts(parts: &[PartRef], out: &mut Vec<u8>)
    requires { vec_len out.old + sum_by part_len parts.now ≤ vec_capacity out.old }
    ensures items { out.new.items ≡ out.old.items ++ flat_map part_bytes parts.now }
    ensures len { vec_len out.new ≡ vec_len out.old + sum_by part_len parts.now }
    ensures room { vec_capacity out.old ≤ vec_capacity out.new }
{
    for part in parts {
        put_part(part, out);
    }
}

/// A table's name, its columns and its parts.
pub(crate) fn put_front(table: &Table, parts: &[PartRef], out: &mut Vec<u8>)
    requires columns { length table.now.columns ≤ 64 }
    requires parts { length parts.now ≤ 8 }
    requires room { vec_len out.old + front_len table.now parts.now ≤ vec_capacity out.old }
    ensures items { out.new.items ≡ out.old.items ++ (head_bytes table.now ++ parts_bytes parts.now) }
    ensures len { vec_len out.new ≡ vec_len out.old + front_len table.now parts.now }
    ensures room { vec_capacity out.old ≤ vec_capacity out.new }
{
    put_text(table.name.as_slice(), out);
    out.push_reserved(table.columns.len() as u8);
    put_columns(table.columns.as_slice(), out);
    out.push_reserved(parts.len() as u8);
    put_parts(parts, out);
}
