//! Copies of statements, for a caller that keeps its own.
ghost use Rattle.std.specs.Prelude.{◌≡◌, IsErr, IsTrue, IfOk};
ghost use Rattle.ut_plain.specs.declared.statement.Query.TheVariants as queries;
ghost use Rattle.ut_plain.specs.declared.statement.Statement.TheVariants as statements;
ghost use Rattle.ut_plain.specs.Step.{may_lack_memory};

use std::alloc::{AllocError, Global};
use ut_plain::{Pred, Query, Statement};
use ut_value::{Column, Duplicate, Name, Seq, Value};

/// A copy of a statement. One that ends a transaction, and one of a savepoint but its begin, take no memory.
pub fn statement_copy(alloc: Global, st: &Statement) -> Result<Statement, AllocError>
    ensures copy { IfOk result (λ copy. copy ≡ st.now) }
    ensures room { IsErr result → IsTrue (may_lack_memory st.now) }
{
    match st {
        Statement::Create { table, columns } => create_copy(alloc, table, columns),
        Statement::Insert { table, values } => insert_copy(alloc, table, values),
        Statement::Bulk { table, values } => bulk_copy(alloc, table, values),
        Statement::Ask(query) => Ok(Statement::Ask(query_copy(alloc, query)?)),
        Statement::Update {
            table,
            column,
            value,
            preds,
        } => update_copy(alloc, table, column, value, preds),
        Statement::Delete { table, preds } => delete_copy(alloc, table, preds),
        Statement::Begin => Ok(Statement::Begin),
        Statement::Commit => Ok(Statement::Commit),
        Statement::Abort => Ok(Statement::Abort),
        Statement::MergeL1 { table, n } => Ok(Statement::MergeL1 {
            table: table.copy(alloc)?,
            n: *n,
        }),
        Statement::MergeBegin { table, kind } => Ok(Statement::MergeBegin {
            table: table.copy(alloc)?,
            kind: *kind,
        }),
        Statement::MergeEnd => Ok(Statement::MergeEnd),
        Statement::SaveBegin => Ok(Statement::SaveBegin),
        Statement::SaveStep { n } => Ok(Statement::SaveStep { n: *n }),
        Statement::SaveSeal => Ok(Statement::SaveSeal),
        Statement::SaveFlip => Ok(Statement::SaveFlip),
        Statement::SaveDrop => Ok(Statement::SaveDrop),
        Statement::Shape { table } => Ok(Statement::Shape {
            table: table.copy(alloc)?,
        }),
    }
}

fn create_copy(alloc: Global, table: &Name, columns: &Seq<Column>) -> Result<Statement, AllocError>
    ensures { IfOk result (λ copy. copy ≡ statements.Create table.now columns.now) }
{
    Ok(Statement::Create {
        table: table.copy(alloc)?,
        columns: columns.duplicate(alloc)?,
    })
}

fn insert_copy(alloc: Global, table: &Name, values: &Seq<Value>) -> Result<Statement, AllocError>
    ensures { IfOk result (λ copy. copy ≡ statements.Insert table.now values.now) }
{
    Ok(Statement::Insert {
        table: table.copy(alloc)?,
        values: values.duplicate(alloc)?,
    })
}

fn bulk_copy(alloc: Global, table: &Name, values: &Seq<Value>) -> Result<Statement, AllocError>
    ensures { IfOk result (λ copy. copy ≡ statements.Bulk table.now values.now) }
{
    Ok(Statement::Bulk {
        table: table.copy(alloc)?,
        values: values.duplicate(alloc)?,
    })
}

fn update_copy(
    alloc: Global,
    table: &Name,
    column: &Name,
    value: &Value,
    preds: &Seq<Pred>,
) -> Result<Statement, AllocError>
    ensures { IfOk result (λ copy. copy ≡ statements.Update table.now column.now value.now preds.now) }
{
    Ok(Statement::Update {
        table: table.copy(alloc)?,
        column: column.copy(alloc)?,
        value: value.copy(alloc)?,
        preds: preds_copy(alloc, preds)?,
    })
}

fn delete_copy(alloc: Global, table: &Name, preds: &Seq<Pred>) -> Result<Statement, AllocError>
    ensures { IfOk result (λ copy. copy ≡ statements.Delete table.now preds.now) }
{
    Ok(Statement::Delete {
        table: table.copy(alloc)?,
        preds: preds_copy(alloc, preds)?,
    })
}

fn query_copy(alloc: Global, query: &Query) -> Result<Query, AllocError>
    ensures { IfOk result (λ copy. copy ≡ query.now) }
{
    match query {
        Query::Select {
            table,
            columns,
            preds,
        } => select_copy(alloc, table, columns, preds),
        Query::Count { table, preds } => count_copy(alloc, table, preds),
        Query::Sum {
            table,
            column,
            preds,
        } => sum_copy(alloc, table, column, preds),
        Query::Min {
            table,
            column,
            preds,
        } => min_copy(alloc, table, column, preds),
        Query::Max {
            table,
            column,
            preds,
        } => max_copy(alloc, table, column, preds),
        Query::Group {
            table,
            key,
            sum,
            preds,
        } => group_copy(alloc, table, key, sum, preds),
        Query::Join {
            left,
            left_column,
            right,
            right_column,
        } => join_copy(alloc, left, left_column, right, right_column),
    }
}

fn select_copy(
    alloc: Global,
    table: &Name,
    columns: &Option<Seq<Name>>,
    preds: &Seq<Pred>,
) -> Result<Query, AllocError>
    ensures { IfOk result (λ copy. copy ≡ queries.Select table.now columns.now preds.now) }
{
    Ok(Query::Select {
        table: table.copy(alloc)?,
        columns: names_copy(alloc, columns)?,
        preds: preds_copy(alloc, preds)?,
    })
}

fn count_copy(alloc: Global, table: &Name, preds: &Seq<Pred>) -> Result<Query, AllocError>
    ensures { IfOk result (λ copy. copy ≡ queries.Count table.now preds.now) }
{
    Ok(Query::Count {
        table: table.copy(alloc)?,
        preds: preds_copy(alloc, preds)?,
    })
}

fn sum_copy(
    alloc: Global,
    table: &Name,
    column: &Name,
    preds: &Seq<Pred>,
) -> Result<Query, AllocError>
    ensures { IfOk result (λ copy. copy ≡ queries.Sum table.now column.now preds.now) }
{
    Ok(Query::Sum {
        table: table.copy(alloc)?,
        column: column.copy(alloc)?,
        preds: preds_copy(alloc, preds)?,
    })
}

fn min_copy(
    alloc: Global,
    table: &Name,
    column: &Name,
    preds: &Seq<Pred>,
) -> Result<Query, AllocError>
    ensures { IfOk result (λ copy. copy ≡ queries.Min table.now column.now preds.now) }
{
    Ok(Query::Min {
        table: table.copy(alloc)?,
        column: column.copy(alloc)?,
        preds: preds_copy(alloc, preds)?,
    })
}

fn max_copy(
    alloc: Global,
    table: &Name,
    column: &Name,
    preds: &Seq<Pred>,
) -> Result<Query, AllocError>
    ensures { IfOk result (λ copy. copy ≡ queries.Max table.now column.now preds.now) }
{
    Ok(Query::Max {
        table: table.copy(alloc)?,
        column: column.copy(alloc)?,
        preds: preds_copy(alloc, preds)?,
    })
}

fn group_copy(
    alloc: Global,
    table: &Name,
    key: &Name,
    sum: &Name,
    preds: &Seq<Pred>,
) -> Result<Query, AllocError>
    ensures { IfOk result (λ copy. copy ≡ queries.Group table.now key.now sum.now preds.now) }
{
    Ok(Query::Group {
        table: table.copy(alloc)?,
        key: key.copy(alloc)?,
        sum: sum.copy(alloc)?,
        preds: preds_copy(alloc, preds)?,
    })
}

fn join_copy(
    alloc: Global,
    left: &Name,
    left_column: &Name,
    right: &Name,
    right_column: &Name,
) -> Result<Query, AllocError>
    ensures { IfOk result (λ copy. copy ≡ queries.Join left.now left_column.now right.now right_column.now) }
{
    Ok(Query::Join {
        left: left.copy(alloc)?,
        left_column: left_column.copy(alloc)?,
        right: right.copy(alloc)?,
        right_column: right_column.copy(alloc)?,
    })
}

fn names_copy(alloc: Global, names: &Option<Seq<Name>>) -> Result<Option<Seq<Name>>, AllocError>
    ensures { IfOk result (λ copy. copy ≡ names.now) }
{
    match names {
        None => Ok(None),
        Some(names) => Ok(Some(names.duplicate(alloc)?)),
    }
}

fn preds_copy(alloc: Global, preds: &Seq<Pred>) -> Result<Seq<Pred>, AllocError>
    ensures { IfOk result (λ copy. copy ≡ preds.now) }
{
    let mut copies = Seq::new(alloc);
    for pred in preds.as_slice() {
        let column = pred.column.copy(alloc)?;
        let value = pred.value.copy(alloc)?;
        copies.push(Pred {
            column,
            op: pred.op,
            value,
        })?;
    }
    Ok(copies)
}
