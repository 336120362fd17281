//! The answer to a question.
ghost use Rattle.std.specs.Prelude.{◌≡◌, ◌<◌, ◌^◌, ◌++◌, [], length, map, IfOk};
ghost use Rattle.std.specs.List.{filter};
ghost use Rattle.ut_plain.specs.Tables.{columns_in};
ghost use Rattle.ut_plain.specs.Condition.{value_in, found};
ghost use Rattle.ut_plain.specs.Query.{picked, same_value, joined, groups, column_values, told};

use crate::query::{column_values, found, groups, select};
use crate::values::{greatest, least, total};
use std::alloc::{AllocError, Global};
use ut_plain::{Pred, Query, Reply, Stored, Table, columns_in, value_cmp, value_in};
use ut_rows::Rows;
use ut_value::{Column, Duplicate, Name, Seq, Value};

fn agree(left: &[Column], l: &[Value], c: &[u8], right: &[Column], r: &[Value], d: &[u8]) -> bool
    ensures { result ≡ same_value (value_in left.now l.now c.now) (value_in right.now r.now d.now) }
{
    match value_in(left, l, c) {
        None => false,
        Some(v) => match value_in(right, r, d) {
            None => false,
            Some(w) => value_cmp(v, w).is_eq(),
        },
    }
}

fn pair(alloc: Global, left: &Seq<Value>, right: &Seq<Value>) -> Result<Seq<Value>, AllocError>
    ensures { IfOk result (λ tuple. tuple ≡ left.now ++ right.now) }
{
    let mut tuple = left.duplicate(alloc)?;
    let more = right.duplicate(alloc)?;
    tuple.append(more)?;
    Ok(tuple)
}

fn pairs_of(
    alloc: Global,
    left: &[Column],
    c: &[u8],
    row: &Seq<Value>,
    right: &[Column],
    d: &[u8],
    rights: &[(u32, Stored)],
) -> Result<Seq<Seq<Value>>, AllocError>
    ensures { IfOk result (λ tuples. tuples ≡ map (λ r. row.now ++ r.1.values) (filter (λ r. same_value (value_in left.now row.now c.now) (value_in right.now r.1.values d.now)) rights.now)) }
{
    let mut tuples = Seq::new(alloc);
    for other in rights {
        if !agree(left, row.as_slice(), c, right, other.1.values.as_slice(), d) {
            continue;
        }
        let tuple = pair(alloc, row, &other.1.values)?;
        tuples.push(tuple)?;
    }
    Ok(tuples)
}

fn joined(
    alloc: Global,
    left: &[Column],
    c: &[u8],
    lefts: &[(u32, Stored)],
    right: &[Column],
    d: &[u8],
    rights: &[(u32, Stored)],
) -> Result<Seq<Seq<Value>>, AllocError>
    ensures { IfOk result (λ tuples. tuples ≡ joined left.now c.now lefts.now right.now d.now rights.now) }
{
    let mut tuples = Seq::new(alloc);
    for row in lefts {
        let more = pairs_of(alloc, left, c, &row.1.values, right, d, rights)?;
        tuples.append(more)?;
    }
    Ok(tuples)
}

fn values_found(
    alloc: Global,
    tables: &[Table],
    rows: &[(u32, Stored)],
    name: &Name,
    column: &Name,
    preds: &[Pred],
) -> Result<Vec<Value>, AllocError>
    ensures { IfOk result (λ values. values.items ≡ column_values (columns_in tables.now name.now) column.now (found tables.now rows.now name.now preds.now)) }
{
    let columns = columns_in(tables, name.as_slice());
    let hits = found(alloc, tables, rows, name.as_slice(), preds)?;
    let values = column_values(alloc, columns, column.as_slice(), hits.as_slice())?;
    Ok(values)
}

fn join_told(
    alloc: Global,
    tables: &[Table],
    rows: &[(u32, Stored)],
    left: &Name,
    c: &Name,
    right: &Name,
    d: &Name,
) -> Result<Reply, AllocError>
    ensures { IfOk result (λ reply. reply ≡ Reply.Rows (joined (columns_in tables.now left.now) c.now (found tables.now rows.now left.now []) (columns_in tables.now right.now) d.now (found tables.now rows.now right.now []))) }
{
    let left_columns = columns_in(tables, left.as_slice());
    let right_columns = columns_in(tables, right.as_slice());
    let lefts = found(alloc, tables, rows, left.as_slice(), &[])?;
    let rights = found(alloc, tables, rows, right.as_slice(), &[])?;
    let tuples = joined(
        alloc,
        left_columns,
        c.as_slice(),
        lefts.as_slice(),
        right_columns,
        d.as_slice(),
        rights.as_slice(),
    )?;
    Ok(Reply::Rows(Rows::of_lists(tuples)))
}

fn select_told(
    alloc: Global,
    tables: &[Table],
    rows: &[(u32, Stored)],
    name: &Name,
    names: &Option<Seq<Name>>,
    preds: &[Pred],
) -> Result<Reply, AllocError>
    ensures { IfOk result (λ reply. reply ≡ Reply.Rows (map (λ e. picked (columns_in tables.now name.now) names.now e.1.values) (found tables.now rows.now name.now preds.now))) }
{
    let columns = columns_in(tables, name.as_slice());
    let hits = found(alloc, tables, rows, name.as_slice(), preds)?;
    let tuples = select(alloc, columns, names, hits.as_slice())?;
    Ok(Reply::Rows(Rows::of_lists(tuples)))
}

fn count_told(
    alloc: Global,
    tables: &[Table],
    rows: &[(u32, Stored)],
    name: &Name,
    preds: &[Pred],
) -> Result<Reply, AllocError>
    requires { length rows.now < 2 ^ 32 }
    ensures { IfOk result (λ reply. reply ≡ Reply.Count (length (found tables.now rows.now name.now preds.now))) }
{
    let hits = found(alloc, tables, rows, name.as_slice(), preds)?;
    let count = hits.as_slice().len();
    Ok(Reply::Count(count as u32))
}

fn group_told(
    alloc: Global,
    tables: &[Table],
    rows: &[(u32, Stored)],
    name: &Name,
    key: &Name,
    sum: &Name,
    preds: &[Pred],
) -> Result<Reply, AllocError>
    ensures { IfOk result (λ reply. reply ≡ Reply.Groups (groups (columns_in tables.now name.now) key.now sum.now (found tables.now rows.now name.now preds.now))) }
{
    let columns = columns_in(tables, name.as_slice());
    let hits = found(alloc, tables, rows, name.as_slice(), preds)?;
    let said = groups(
        alloc,
        columns,
        key.as_slice(),
        sum.as_slice(),
        hits.as_slice(),
    )?;
    Ok(Reply::Groups(said))
}

// The answer to a question over the values of a column. None other is asked here.
fn column_told(
    alloc: Global,
    tables: &[Table],
    rows: &[(u32, Stored)],
    query: &Query,
) -> Result<Reply, AllocError>
    ensures { IfOk result (λ reply. reply ≡ told tables.now rows.now query.now) }
{
    match query {
        Query::Sum {
            table,
            column,
            preds,
        } => {
            let values = values_found(alloc, tables, rows, table, column, preds.as_slice())?;
            Ok(Reply::Sum(total(values.as_slice())))
        }
        Query::Min {
            table,
            column,
            preds,
        } => {
            let values = values_found(alloc, tables, rows, table, column, preds.as_slice())?;
            Ok(Reply::Min(least(alloc, values.as_slice())?))
        }
        Query::Max {
            table,
            column,
            preds,
        } => {
            let values = values_found(alloc, tables, rows, table, column, preds.as_slice())?;
            Ok(Reply::Max(greatest(alloc, values.as_slice())?))
        }
        _ => Err(AllocError),
    }
}

/// The answer to a question, over the rows that are seen.
pub fn told(
    alloc: Global,
    tables: &[Table],
    rows: &[(u32, Stored)],
    query: &Query,
) -> Result<Reply, AllocError>
    requires { length rows.now < 2 ^ 32 }
    ensures { IfOk result (λ reply. reply ≡ told tables.now rows.now query.now) }
{
    match query {
        Query::Select {
            table,
            columns,
            preds,
        } => select_told(alloc, tables, rows, table, columns, preds.as_slice()),
        Query::Count { table, preds } => count_told(alloc, tables, rows, table, preds.as_slice()),
        Query::Sum { .. } | Query::Min { .. } | Query::Max { .. } => {
            column_told(alloc, tables, rows, query)
        }
        Query::Group {
            table,
            key,
            sum,
            preds,
        } => group_told(alloc, tables, rows, table, key, sum, preds.as_slice()),
        Query::Join {
            left,
            left_column,
            right,
            right_column,
        } => join_told(alloc, tables, rows, left, left_column, right, right_column),
    }
}
