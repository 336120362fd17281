//! The operations that a statement makes.
ghost use Rattle.std.specs.Prelude.{◌≡◌, ◌<◌, ◌+◌, [], ◌∷◌, length, IfOk};
ghost use Rattle.ut_plain.specs.Made.{rows_of, inserts, deletes_all, updates, changed_value};

use std::alloc::{AllocError, Global};
use ut_plain::{Stored, column_of};
use ut_value::{Column, Duplicate, Op, Seq, Value};

/// One insert.
pub fn insert(
    alloc: Global,
    table: u16,
    next: u32,
    values: &Seq<Value>,
) -> Result<Seq<Op>, AllocError>
    ensures { IfOk result (λ ops. ops ≡ inserts table next (values.now ∷ [])) }
{
    let mut ops = Seq::new(alloc);
    let values = values.duplicate(alloc)?;
    ops.push(Op::Insert {
        table,
        id: next,
        values,
    })?;
    Ok(ops)
}

/// How many rows of a width values are.
pub fn row_count(width: usize, values: &[Value]) -> usize
    requires { 0 < width }
    ensures { result ≡ length (rows_of width values.now) }
{
    let mut rest = values;
    let mut count = 0;
    while rest.len() > 0 {
        let (_, others) = rest.split_at(width.min(rest.len()));
        rest = others;
        count += 1;
    }
    count
}

fn values_copied(alloc: Global, values: &[Value]) -> Result<Seq<Value>, AllocError>
    ensures { IfOk result (λ copy. copy ≡ values.now) }
{
    let mut copy = Seq::new(alloc);
    for value in values {
        let value = value.copy(alloc)?;
        copy.push(value)?;
    }
    Ok(copy)
}

/// An insert for each row that values are loaded as.
pub fn load(
    alloc: Global,
    table: u16,
    next: u32,
    width: usize,
    values: &[Value],
) -> Result<Seq<Op>, AllocError>
    requires width { 0 < width }
    requires ids { next + length (rows_of width values.now) < 4294967296 }
    ensures { IfOk result (λ ops. ops ≡ inserts table next (rows_of width values.now)) }
{
    let mut ops = Seq::new(alloc);
    let mut id = next;
    let mut rest = values;
    while rest.len() > 0 {
        let (row, others) = rest.split_at(width.min(rest.len()));
        let values = values_copied(alloc, row)?;
        ops.push(Op::Insert { table, id, values })?;
        rest = others;
        id += 1;
    }
    Ok(ops)
}

/// A delete of each row.
pub fn delete(alloc: Global, table: u16, rows: &[(u32, Stored)]) -> Result<Seq<Op>, AllocError>
    ensures { IfOk result (λ ops. ops ≡ deletes_all table rows.now) }
{
    let mut ops = Seq::new(alloc);
    for row in rows {
        ops.push(Op::Delete { table, id: row.0 })?;
    }
    Ok(ops)
}

fn changed(
    alloc: Global,
    columns: &[Column],
    name: &[u8],
    value: &Value,
    row: &Seq<Value>,
) -> Result<Seq<Value>, AllocError>
    ensures { IfOk result (λ copy. copy ≡ changed_value columns.now name.now value.now row.now) }
{
    let place = column_of(columns, name).unwrap_or(0);
    let mut values = row.duplicate(alloc)?.into_vec();
    if place < values.len() {
        values[place] = value.copy(alloc)?;
    }
    Ok(Seq::from_vec(values))
}

/// A delete of each row, and an insert of its changed copy.
pub fn update(
    alloc: Global,
    table: u16,
    next: u32,
    columns: &[Column],
    name: &[u8],
    value: &Value,
    rows: &[(u32, Stored)],
) -> Result<Seq<Op>, AllocError>
    requires { next + length rows.now < 4294967296 }
    ensures { IfOk result (λ ops. ops ≡ updates table next (changed_value columns.now name.now value.now) rows.now) }
{
    let mut ops = Seq::new(alloc);
    let mut id = next;
    for row in rows {
        ops.push(Op::Delete { table, id: row.0 })?;
        let values = changed(alloc, columns, name, value, &row.1.values)?;
        ops.push(Op::Insert { table, id, values })?;
        id += 1;
    }
    Ok(ops)
}
