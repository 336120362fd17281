//! What a question is answered, by the operator that it asks for.
ghost use Rattle.std.specs.Prelude.{◌≡◌, [], IfOk};
ghost use Rattle.ut_names.specs.declared.resolved.Question.TheVariants as questions;
ghost use Rattle.ut_look.specs.Look.{sight};
ghost use Rattle.ut_query.specs.Look.{CanLook};
ghost use Rattle.ut_query.specs.Tells.{IsAsked, Tells, extreme_reply};

use crate::rows::{count, found, tally};
use std::alloc::{AllocError, Global};
use ut_look::Look;
use ut_names::{Columns, End, Selection};
use ut_ops::{extreme, group, join, select, sum, sum_tally, tallied_column};
use ut_plain::Reply;
use ut_value::Value;

pub(crate) fn select_rows(
    alloc: Global,
    look: &Look<'_>,
    rows: &Selection,
    columns: &Columns,
) -> Result<Reply, AllocError>
    requires looks { CanLook (sight look.now) }
    requires asked { IsAsked look.now.tables.now (questions.Select rows.now columns.now) }
    ensures { IfOk result (Tells (sight look.now) (questions.Select rows.now columns.now)) }
{
    let hits = found(alloc, look, rows)?;
    let table = &look.stages[rows.table];
    let rows = select(alloc, table, columns, hits.as_slice())?;
    Ok(Reply::Rows(rows))
}

pub(crate) fn count_rows(
    alloc: Global,
    look: &Look<'_>,
    rows: &Selection,
) -> Result<Reply, AllocError>
    requires looks { CanLook (sight look.now) }
    requires asked { IsAsked look.now.tables.now (questions.Count rows.now) }
    ensures { IfOk result (Tells (sight look.now) (questions.Count rows.now)) }
{
    let count = count(alloc, look, rows)?;
    Ok(Reply::Count(count as u32))
}

pub(crate) fn sum_of(
    alloc: Global,
    look: &Look<'_>,
    rows: &Selection,
    column: usize,
) -> Result<Reply, AllocError>
    requires looks { CanLook (sight look.now) }
    requires asked { IsAsked look.now.tables.now (questions.Sum rows.now column) }
    ensures { IfOk result (Tells (sight look.now) (questions.Sum rows.now column)) }
{
    let table = &look.stages[rows.table];
    if tallied_column(table, column, !rows.preds.is_empty()) {
        return sum_of_codes(alloc, look, rows, column);
    }
    let hits = found(alloc, look, rows)?;
    let total = sum(alloc, table, column, hits.as_slice());
    Ok(Reply::Sum(total))
}

// The sum of a column by its codes.
fn sum_of_codes(
    alloc: Global,
    look: &Look<'_>,
    rows: &Selection,
    column: usize,
) -> Result<Reply, AllocError>
    requires looks { CanLook (sight look.now) }
    requires asked { IsAsked look.now.tables.now (questions.Sum rows.now column) }
    ensures { IfOk result (Tells (sight look.now) (questions.Sum rows.now column)) }
{
    let tally = tally(alloc, look, rows, column)?;
    let table = &look.stages[rows.table];
    let total = sum_tally(alloc, table, column, &tally)?;
    Ok(Reply::Sum(total))
}

pub(crate) fn extreme_of(
    alloc: Global,
    look: &Look<'_>,
    rows: &Selection,
    column: usize,
    end: End,
) -> Result<Reply, AllocError>
    requires looks { CanLook (sight look.now) }
    requires asked { IsAsked look.now.tables.now (questions.Extreme rows.now column end) }
    ensures { IfOk result (Tells (sight look.now) (questions.Extreme rows.now column end)) }
{
    let hits = found(alloc, look, rows)?;
    let table = &look.stages[rows.table];
    let value = extreme(alloc, table, column, hits.as_slice(), end)?;
    Ok(extreme_reply(end, value))
}

// How such a value is told.
fn extreme_reply(end: End, value: Option<Value>) -> Reply
    ensures { result ≡ extreme_reply end value }
{
    match end {
        End::Least => Reply::Min(value),
        End::Greatest => Reply::Max(value),
    }
}

pub(crate) fn groups_of(
    alloc: Global,
    look: &Look<'_>,
    rows: &Selection,
    key: usize,
    sum: usize,
) -> Result<Reply, AllocError>
    requires looks { CanLook (sight look.now) }
    requires asked { IsAsked look.now.tables.now (questions.Group rows.now key sum) }
    ensures { IfOk result (Tells (sight look.now) (questions.Group rows.now key sum)) }
{
    let hits = found(alloc, look, rows)?;
    let table = &look.stages[rows.table];
    let groups = group(alloc, table, key, sum, hits.as_slice())?;
    Ok(Reply::Groups(groups))
}

// One side of a join: all rows of a table.
fn all_of(alloc: Global, table: usize) -> Selection
    ensures table { result.table ≡ table }
    ensures all { result.preds.items ≡ [] }
{
    Selection {
        table,
        preds: Vec::new(alloc),
    }
}

pub(crate) fn pairs_of(
    alloc: Global,
    look: &Look<'_>,
    left: usize,
    left_column: usize,
    right: usize,
    right_column: usize,
) -> Result<Reply, AllocError>
    requires looks { CanLook (sight look.now) }
    requires asked { IsAsked look.now.tables.now (questions.Join left left_column right right_column) }
    ensures { IfOk result (Tells (sight look.now) (questions.Join left left_column right right_column)) }
{
    let lefts = all_of(alloc, left);
    let rights = all_of(alloc, right);
    let left_hits = found(alloc, look, &lefts)?;
    let right_hits = found(alloc, look, &rights)?;
    let rows = join(
        alloc,
        &look.stages[lefts.table],
        left_column,
        left_hits.as_slice(),
        &look.stages[rights.table],
        right_column,
        right_hits.as_slice(),
    )?;
    Ok(Reply::Rows(rows))
}
