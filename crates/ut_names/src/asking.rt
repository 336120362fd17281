//! Questions by the places of what they name.
ghost use Rattle.std.specs.Prelude.{◌≡◌, [], None, IsErr, IsErrOf, IfOk, IfErr, IfSome, IfNone};
ghost use Rattle.ut_plain.specs.declared.statement.Query.TheVariants.{Select, Count, Sum, Group, Join};
ghost use Rattle.ut_plain.specs.Names.{query_known};
ghost use Rattle.ut_plain.specs.Kinds.{query_fits, same_kind};
ghost use Rattle.ut_names.specs.Resolved.{best_of, AreNarrow, Resolves, Hinders, IsUnfit, IsBare};

use crate::places::{column_at, columns_at, number_at, table_at};
use crate::refusing::{why, wrong};
use crate::selecting::rows;
use crate::{End, Question};
use std::alloc::{AllocError, Global};
use ut_plain::{Pred, Query, Refusal, Table, query_fits, query_known};
use ut_value::{Kind, Name, Seq};

/// The question by the places of what it names.
pub fn question(alloc: Global, tables: &[Table], query: &Query) -> Result<Question, Refusal>
    requires narrow { AreNarrow tables.now }
    ensures ok { IfOk result (Resolves tables.now query.now) }
    ensures err { IfErr result (Hinders (query_known tables.now query.now)
        (query_fits tables.now query.now)) }
    // Without comparisons and named columns to show it takes no memory.
    ensures room { IsBare query.now → IsErrOf result Refusal.Memory → ⊥ }
{
    match resolved(alloc, tables, query) {
        Ok(Some(question)) => Ok(question),
        Ok(None) => Err(wrong(query_known(tables, query))),
        Err(_) => Err(why(query_known(tables, query), query_fits(tables, query))),
    }
}

fn resolved(alloc: Global, tables: &[Table], query: &Query) -> Result<Option<Question>, AllocError>
    requires { AreNarrow tables.now }
    ensures some { IfOk result (λ o. IfSome o (Resolves tables.now query.now)) }
    ensures none { IfOk result (λ o. IfNone o (IsUnfit tables.now query.now)) }
    ensures room { IsBare query.now → IsErr result → ⊥ }
{
    match query {
        Query::Select {
            table,
            columns,
            preds,
        } => select(alloc, tables, table, columns, preds.as_slice()),
        Query::Count { table, preds } => count(alloc, tables, table, preds.as_slice()),
        Query::Sum {
            table,
            column,
            preds,
        } => sum(alloc, tables, table, column, preds.as_slice()),
        Query::Min {
            table,
            column,
            preds,
        } => best(alloc, tables, table, column, preds.as_slice(), End::Least),
        Query::Max {
            table,
            column,
            preds,
        } => best(
            alloc,
            tables,
            table,
            column,
            preds.as_slice(),
            End::Greatest,
        ),
        Query::Group {
            table,
            key,
            sum,
            preds,
        } => group(alloc, tables, table, key, sum, preds.as_slice()),
        Query::Join {
            left,
            left_column,
            right,
            right_column,
        } => Ok(join(tables, left, left_column, right, right_column)),
    }
}

fn select(
    alloc: Global,
    tables: &[Table],
    name: &Name,
    names: &Option<Seq<Name>>,
    preds: &[Pred],
) -> Result<Option<Question>, AllocError>
    requires { AreNarrow tables.now }
    ensures some { IfOk result (λ o. IfSome o (Resolves tables.now (Select name.now names.now preds.now))) }
    ensures none { IfOk result (λ o. IfNone o (IsUnfit tables.now (Select name.now names.now preds.now))) }
    ensures room { names.now ≡ None → preds.now ≡ [] → IsErr result → ⊥ }
{
    let Some(table) = table_at(tables, name.as_slice()) else {
        return Ok(None);
    };
    let Some(columns) = columns_at(alloc, table.columns, names)? else {
        return Ok(None);
    };
    let Some(rows) = rows(alloc, &table, preds)? else {
        return Ok(None);
    };
    Ok(Some(Question::Select { rows, columns }))
}

fn count(
    alloc: Global,
    tables: &[Table],
    name: &Name,
    preds: &[Pred],
) -> Result<Option<Question>, AllocError>
    requires { AreNarrow tables.now }
    ensures some { IfOk result (λ o. IfSome o (Resolves tables.now (Count name.now preds.now))) }
    ensures none { IfOk result (λ o. IfNone o (IsUnfit tables.now (Count name.now preds.now))) }
    ensures room { preds.now ≡ [] → IsErr result → ⊥ }
{
    let Some(table) = table_at(tables, name.as_slice()) else {
        return Ok(None);
    };
    let Some(rows) = rows(alloc, &table, preds)? else {
        return Ok(None);
    };
    Ok(Some(Question::Count { rows }))
}

fn sum(
    alloc: Global,
    tables: &[Table],
    name: &Name,
    column: &Name,
    preds: &[Pred],
) -> Result<Option<Question>, AllocError>
    requires { AreNarrow tables.now }
    ensures some { IfOk result (λ o. IfSome o (Resolves tables.now (Sum name.now column.now preds.now))) }
    ensures none { IfOk result (λ o. IfNone o (IsUnfit tables.now (Sum name.now column.now preds.now))) }
    ensures room { preds.now ≡ [] → IsErr result → ⊥ }
{
    let Some(table) = table_at(tables, name.as_slice()) else {
        return Ok(None);
    };
    let Some(column) = number_at(table.columns, column.as_slice()) else {
        return Ok(None);
    };
    let Some(rows) = rows(alloc, &table, preds)? else {
        return Ok(None);
    };
    Ok(Some(Question::Sum { rows, column }))
}

/// The least or the greatest value of a column.
fn best(
    alloc: Global,
    tables: &[Table],
    name: &Name,
    column: &Name,
    preds: &[Pred],
    end: End,
) -> Result<Option<Question>, AllocError>
    requires { AreNarrow tables.now }
    ensures some { IfOk result (λ o. IfSome o (Resolves tables.now (best_of end name.now column.now preds.now))) }
    ensures none { IfOk result (λ o. IfNone o (IsUnfit tables.now (best_of end name.now column.now preds.now))) }
    ensures room { preds.now ≡ [] → IsErr result → ⊥ }
{
    let Some(table) = table_at(tables, name.as_slice()) else {
        return Ok(None);
    };
    let Some(column) = column_at(table.columns, column.as_slice()) else {
        return Ok(None);
    };
    let Some(rows) = rows(alloc, &table, preds)? else {
        return Ok(None);
    };
    let column = column.place;
    Ok(Some(Question::Extreme { rows, column, end }))
}

fn group(
    alloc: Global,
    tables: &[Table],
    name: &Name,
    key: &Name,
    sum: &Name,
    preds: &[Pred],
) -> Result<Option<Question>, AllocError>
    requires { AreNarrow tables.now }
    ensures some { IfOk result (λ o. IfSome o (Resolves tables.now (Group name.now key.now sum.now preds.now))) }
    ensures none { IfOk result (λ o. IfNone o (IsUnfit tables.now (Group name.now key.now sum.now preds.now))) }
    ensures room { preds.now ≡ [] → IsErr result → ⊥ }
{
    let Some(table) = table_at(tables, name.as_slice()) else {
        return Ok(None);
    };
    let Some(key) = column_at(table.columns, key.as_slice()) else {
        return Ok(None);
    };
    let Some(sum) = number_at(table.columns, sum.as_slice()) else {
        return Ok(None);
    };
    let Some(rows) = rows(alloc, &table, preds)? else {
        return Ok(None);
    };
    Ok(Some(Question::Group {
        rows,
        key: key.place,
        sum,
    }))
}

fn join(
    tables: &[Table],
    left: &Name,
    left_column: &Name,
    right: &Name,
    right_column: &Name,
) -> Option<Question>
    requires { AreNarrow tables.now }
    ensures some { IfSome result (Resolves tables.now (Join left.now left_column.now right.now right_column.now)) }
    ensures none { IfNone result (IsUnfit tables.now (Join left.now left_column.now right.now right_column.now)) }
{
    let left = table_at(tables, left.as_slice())?;
    let right = table_at(tables, right.as_slice())?;
    let left_column = column_at(left.columns, left_column.as_slice())?;
    let right_column = column_at(right.columns, right_column.as_slice())?;
    if !same_kind(left_column.kind, right_column.kind) {
        return None;
    }
    Some(Question::Join {
        left: left.place,
        left_column: left_column.place,
        right: right.place,
        right_column: right_column.place,
    })
}

fn same_kind(left: Kind, right: Kind) -> bool
    ensures { result ≡ same_kind (Some left) (Some right) }
{
    match (left, right) {
        (Kind::Int, Kind::Int) => true,
        (Kind::Text, Kind::Text) => true,
        (Kind::Int, Kind::Text) => false,
        (Kind::Text, Kind::Int) => false,
    }
}
