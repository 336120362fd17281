//! Answers to questions, over the rows that a session sees.
ghost use Rattle.std.specs.Prelude.{◌≡◌, map, IfOk};
ghost use Rattle.std.specs.List.{filter_map};
ghost use Rattle.ut_plain.specs.Rows.{table_rows};
ghost use Rattle.ut_plain.specs.Condition.{value_in, those, found};
ghost use Rattle.ut_plain.specs.Query.{picked, column_values, same_value, with_value, total, groups};

use crate::values::{distinct, total};
use std::alloc::{AllocError, Global};
use ut_plain::{Group, Pred, Stored, Table, columns_in, meets, place_of, value_cmp, value_in};
use ut_value::{Column, Duplicate, Name, Seq, Value};

/// The rows of a table that meet a condition.
pub fn found(
    alloc: Global,
    tables: &[Table],
    rows: &[(u32, Stored)],
    name: &[u8],
    preds: &[Pred],
) -> Result<Vec<(u32, Stored)>, AllocError>
    ensures { IfOk result (λ hits. hits.items ≡ found tables.now rows.now name.now preds.now) }
{
    let columns = columns_in(tables, name);
    let place = place_of(tables, name).unwrap_or(0);
    those_of(alloc, columns, place, preds, rows)
}

fn those_of(
    alloc: Global,
    columns: &[Column],
    place: usize,
    preds: &[Pred],
    rows: &[(u32, Stored)],
) -> Result<Vec<(u32, Stored)>, AllocError>
    ensures { IfOk result (λ hits. hits.items ≡ those columns.now preds.now (table_rows place rows.now)) }
{
    let mut hits = Vec::new(alloc);
    for row in rows {
        if usize::from(row.1.table) != place {
            continue;
        }
        if !meets(columns, preds, row.1.values.as_slice()) {
            continue;
        }
        let stored = row.1.duplicate(alloc)?;
        hits.push((row.0, stored))?;
    }
    Ok(hits)
}

/// The values of a column.
pub(crate) fn column_values(
    alloc: Global,
    columns: &[Column],
    name: &[u8],
    rows: &[(u32, Stored)],
) -> Result<Vec<Value>, AllocError>
    ensures { IfOk result (λ values. values.items ≡ column_values columns.now name.now rows.now) }
{
    let mut values = Vec::new(alloc);
    for row in rows {
        let Some(value) = value_in(columns, row.1.values.as_slice(), name) else {
            continue;
        };
        let copy = value.copy(alloc)?;
        values.push(copy)?;
    }
    Ok(values)
}

fn picked(
    alloc: Global,
    columns: &[Column],
    names: &Option<Seq<Name>>,
    row: &Seq<Value>,
) -> Result<Seq<Value>, AllocError>
    ensures { IfOk result (λ tuple. tuple ≡ picked columns.now names.now row.now) }
{
    match names {
        None => row.duplicate(alloc),
        Some(names) => picked_by(alloc, columns, names.as_slice(), row.as_slice()),
    }
}

fn picked_by(
    alloc: Global,
    columns: &[Column],
    names: &[Name],
    row: &[Value],
) -> Result<Seq<Value>, AllocError>
    ensures { IfOk result (λ values. values ≡ filter_map (value_in columns.now row.now) names.now) }
{
    let mut values = Seq::new(alloc);
    for name in names {
        let Some(value) = value_in(columns, row, name.as_slice()) else {
            continue;
        };
        let copy = value.copy(alloc)?;
        values.push(copy)?;
    }
    Ok(values)
}

/// The columns that are named, or all, of each row.
pub(crate) fn select(
    alloc: Global,
    columns: &[Column],
    names: &Option<Seq<Name>>,
    rows: &[(u32, Stored)],
) -> Result<Seq<Seq<Value>>, AllocError>
    ensures { IfOk result (λ tuples. tuples ≡ map (λ e. picked columns.now names.now e.1.values) rows.now) }
{
    let mut tuples = Seq::new(alloc);
    for row in rows {
        let tuple = picked(alloc, columns, names, &row.1.values)?;
        tuples.push(tuple)?;
    }
    Ok(tuples)
}

fn has_key(columns: &[Column], name: &[u8], key: &Value, row: &[Value]) -> bool
    ensures { result ≡ same_value (value_in columns.now row.now name.now) (Some key.now) }
{
    match value_in(columns, row, name) {
        None => false,
        Some(value) => value_cmp(value, key).is_eq(),
    }
}

fn with_value(
    alloc: Global,
    columns: &[Column],
    name: &[u8],
    key: &Value,
    rows: &[(u32, Stored)],
) -> Result<Vec<(u32, Stored)>, AllocError>
    ensures { IfOk result (λ hits. hits.items ≡ with_value columns.now name.now key.now rows.now) }
{
    let mut hits = Vec::new(alloc);
    for row in rows {
        if !has_key(columns, name, key, row.1.values.as_slice()) {
            continue;
        }
        let stored = row.1.duplicate(alloc)?;
        hits.push((row.0, stored))?;
    }
    Ok(hits)
}

fn sum_for(
    alloc: Global,
    columns: &[Column],
    key_column: &[u8],
    key: &Value,
    column: &[u8],
    rows: &[(u32, Stored)],
) -> Result<i128, AllocError>
    ensures { IfOk result (λ sum. sum ≡ total (column_values columns.now column.now (with_value columns.now key_column.now key.now rows.now))) }
{
    let hits = with_value(alloc, columns, key_column, key, rows)?;
    let values = column_values(alloc, columns, column, hits.as_slice())?;
    Ok(total(values.as_slice()))
}

/// For each key that occurs, ascending, the sum over the rows that have it.
pub(crate) fn groups(
    alloc: Global,
    columns: &[Column],
    key_column: &[u8],
    column: &[u8],
    rows: &[(u32, Stored)],
) -> Result<Seq<Group>, AllocError>
    ensures { IfOk result (λ said. said ≡ groups columns.now key_column.now column.now rows.now) }
{
    let values = column_values(alloc, columns, key_column, rows)?;
    let keys = distinct(alloc, values.as_slice())?;
    groups_for(alloc, columns, key_column, column, keys.as_slice(), rows)
}

fn groups_for(
    alloc: Global,
    columns: &[Column],
    key_column: &[u8],
    column: &[u8],
    keys: &[Value],
    rows: &[(u32, Stored)],
) -> Result<Seq<Group>, AllocError>
    ensures { IfOk result (λ said. said ≡ map (λ k. record { key = k; sum = total (column_values columns.now column.now (with_value columns.now key_column.now k rows.now)) }) keys.now) }
{
    let mut groups = Seq::new(alloc);
    for key in keys {
        let sum = sum_for(alloc, columns, key_column, key, column, rows)?;
        let key = key.copy(alloc)?;
        groups.push(Group { key, sum })?;
    }
    Ok(groups)
}
