//! Writes entries into a vector with room for them. Only `entry_bytes` takes memory.
ghost use Rattle.std.specs.Prelude.{◌≡◌, ◌+◌, ◌<◌, ◌≤◌, ◌++◌, length, IsTrue, OnOk, OnErr, vec_len, vec_capacity};
ghost use Rattle.std.specs.List.{flat_map, list_all, sum_by};
ghost use Rattle.ut_value.specs.declared.entry.Op.TheVariants.{Insert};
ghost use Rattle.ut_value.specs.Spelling.{value_spelling, value_len, column_spelling, column_len, text_spelling, op_spelling, op_len, ops_len, is_op, spelling, entry_len, has_spelling, merge_kind_byte, kind_byte};

use crate::length::entry_len;
use std::alloc::AllocError;
use ut_value::{Column, Entry, Kind, MergeKind, Op, Value, int_key};

/// Appends bytes where there is room. This takes no memory.
pub fn put(bytes: &[u8], out: &mut Vec<u8>)
    requires { vec_len out.old + length bytes.now ≤ vec_capacity out.old }
    ensures items { out.new.items ≡ out.old.items ++ bytes.now }
    ensures len { vec_len out.new ≡ vec_len out.old + length bytes.now }
    ensures room { vec_capacity out.old ≤ vec_capacity out.new }
{
    // There is room, so that it takes no memory, and can't fail.
    let _ = out.extend_from_slice(bytes);
}

/// Appends counted bytes where there is room. This takes no memory.
pub fn put_text(bytes: &[u8], out: &mut Vec<u8>)
    requires short { length bytes.now ≤ 255 }
    requires room { vec_len out.old + (length bytes.now + 1) ≤ vec_capacity out.old }
    ensures items { out.new.items ≡ out.old.items ++ text_spelling bytes.now }
    ensures len { vec_len out.new ≡ vec_len out.old + (length bytes.now + 1) }
    ensures room { vec_capacity out.old ≤ vec_capacity out.new }
{
    out.push_reserved(bytes.len() as u8);
    put(bytes, out);
}

fn put_value(value: &Value, out: &mut Vec<u8>)
    requires { vec_len out.old + value_len value.now ≤ vec_capacity out.old }
    ensures items { out.new.items ≡ out.old.items ++ value_spelling value.now }
    ensures len { vec_len out.new ≡ vec_len out.old + value_len value.now }
    ensures room { vec_capacity out.old ≤ vec_capacity out.new }
{
    match value {
        Value::Int(number) => {
            let [a, b, c, d, e, f, g, h] = int_key(*number);
            put(&[0, a, b, c, d, e, f, g, h], out);
        }
        Value::Text(text) => {
            out.push_reserved(1);
            put_text(text.as_slice(), out);
        }
    }
}

fn put_values(values: &[Value], out: &mut Vec<u8>)
    requires { vec_len out.old + sum_by value_len values.now ≤ vec_capacity out.old }
    ensures items { out.new.items ≡ out.old.items ++ flat_map value_spelling values.now }
    ensures len { vec_len out.new ≡ vec_len out.old + sum_by value_len values.now }
    ensures room { vec_capacity out.old ≤ vec_capacity out.new }
{
    for value in values {
        put_value(value, out);
    }
}

/// Appends the bytes of an insert of these values where there is room. This takes no memory.
pub fn put_insert(table: u16, id: u32, values: &[Value], out: &mut Vec<u8>)
    requires rule { IsTrue (is_op (Insert table id values.now)) }
    requires room { vec_len out.old + op_len (Insert table id values.now) ≤ vec_capacity out.old }
    ensures items { out.new.items ≡ out.old.items ++ op_spelling (Insert table id values.now) }
    ensures len { vec_len out.new ≡ vec_len out.old + op_len (Insert table id values.now) }
    ensures room { vec_capacity out.old ≤ vec_capacity out.new }
{
    let [a, b] = table.to_le_bytes();
    let [c, d, e, f] = id.to_le_bytes();
    let count = values.len() as u8;
    put(&[1, a, b, c, d, e, f, count], out);
    put_values(values, out);
}

/// Appends an operation's bytes where there is room. This takes no memory.
pub fn put_op(op: &Op, out: &mut Vec<u8>)
    requires rule { IsTrue (is_op op.now) }
    requires room { vec_len out.old + op_len op.now ≤ vec_capacity out.old }
    ensures items { out.new.items ≡ out.old.items ++ op_spelling op.now }
    ensures len { vec_len out.new ≡ vec_len out.old + op_len op.now }
    ensures room { vec_capacity out.old ≤ vec_capacity out.new }
{
    match op {
        Op::Insert { table, id, values } => put_insert(*table, *id, values.as_slice(), out),
        Op::Delete { table, id } => {
            let [a, b] = table.to_le_bytes();
            let [c, d, e, f] = id.to_le_bytes();
            put(&[2, a, b, c, d, e, f], out);
        }
    }
}

fn put_ops(ops: &[Op], out: &mut Vec<u8>)
    requires rule { IsTrue (list_all is_op ops.now) }
    requires room { vec_len out.old + ops_len ops.now ≤ vec_capacity out.old }
    ensures items { out.new.items ≡ out.old.items ++ flat_map op_spelling ops.now }
    ensures len { vec_len out.new ≡ vec_len out.old + ops_len ops.now }
    ensures room { vec_capacity out.old ≤ vec_capacity out.new }
{
    for op in ops {
        put_op(op, out);
    }
}

fn put_column(column: &Column, out: &mut Vec<u8>)
    requires { vec_len out.old + column_len column.now ≤ vec_capacity out.old }
    ensures items { out.new.items ≡ out.old.items ++ column_spelling column.now }
    ensures len { vec_len out.new ≡ vec_len out.old + column_len column.now }
    ensures room { vec_capacity out.old ≤ vec_capacity out.new }
{
    out.push_reserved(kind_byte(column.kind));
    put_text(column.name.as_slice(), out);
}

/// Appends the names and kinds of columns where there is room. This takes no memory.
pub fn put_columns(columns: &[Column], out: &mut Vec<u8>)
    requires { vec_len out.old + sum_by column_len columns.now ≤ vec_capacity out.old }
    ensures items { out.new.items ≡ out.old.items ++ flat_map column_spelling columns.now }
    ensures len { vec_len out.new ≡ vec_len out.old + sum_by column_len columns.now }
    ensures room { vec_capacity out.old ≤ vec_capacity out.new }
{
    for column in columns {
        put_column(column, out);
    }
}

fn kind_byte(kind: Kind) -> u8
    ensures { result ≡ kind_byte kind }
{
    match kind {
        Kind::Int => 0,
        Kind::Text => 1,
    }
}

fn merge_kind_byte(kind: MergeKind) -> u8
    ensures { result ≡ merge_kind_byte kind }
{
    match kind {
        MergeKind::Classic => 0,
        MergeKind::Resort => 1,
        MergeKind::Partial => 2,
        MergeKind::Extend => 3,
    }
}

/// Appends an entry's bytes where there is room. This takes no memory.
pub fn put_entry(entry: &Entry, out: &mut Vec<u8>)
    requires rule { IsTrue (has_spelling entry.now) }
    requires room { vec_len out.old + entry_len entry.now ≤ vec_capacity out.old }
    ensures { out.new.items ≡ out.old.items ++ spelling entry.now }
{
    match entry {
        Entry::Create { name, columns } => {
            out.push_reserved(1);
            put_text(name.as_slice(), out);
            out.push_reserved(columns.len() as u8);
            put_columns(columns.as_slice(), out);
        }
        Entry::Txn { ops } => {
            let count = ops.len() as u32;
            let [a, b, c, d] = count.to_le_bytes();
            put(&[2, a, b, c, d], out);
            put_ops(ops.as_slice(), out);
        }
        Entry::Begun { n, table, kind } => {
            let [a, b, c, d] = n.to_le_bytes();
            let [e, f] = table.to_le_bytes();
            put(&[3, a, b, c, d, e, f, merge_kind_byte(*kind)], out);
        }
        Entry::Ended { n } => {
            let [a, b, c, d] = n.to_le_bytes();
            put(&[4, a, b, c, d], out);
        }
    }
}

/// Appends an entry's bytes.
pub fn entry_bytes(entry: &Entry, out: &mut Vec<u8>) -> Result<(), AllocError>
    requires { IsTrue (has_spelling entry.now) }
    ensures ok { OnOk result (out.new.items ≡ out.old.items ++ spelling entry.now) }
    ensures err { OnErr result (out.new.items ≡ out.old.items) }
{
    out.reserve(entry_len(entry) as usize)?;
    put_entry(entry, out);
    Ok(())
}
