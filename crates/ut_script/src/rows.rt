//! The statements that change tables and rows.
#![tactic(auto, using(crate::proofs::StatementLemmas::statements))]

ghost use Rattle.std.specs.Prelude.{◌≡◌, Some};
ghost use Rattle.ut_script.specs.Words.{words_of};
ghost use Rattle.ut_script.specs.Statements.{Reads, create_of, rows_of, put_into, chosen_of, update_of};

use crate::conditions::{are_conditions, next_chosen, read_conditions};
use crate::listed::values_of;
use crate::spelled::{Spelled, count_all, read_all, read_name};
use crate::words::next_word;
use std::alloc::{AllocError, Global};
use ut_plain::Statement;
use ut_value::{COLUMNS_LIMIT, Column, Value, is_name, same_bytes};

/// The greatest number of columns of a table.
const MAX_COLUMNS: usize = COLUMNS_LIMIT as usize;

/// `T c:int d:text ..`
pub(crate) fn create_of(alloc: Global, line: &[u8]) -> Result<Option<Statement>, AllocError>
    ensures { Reads result (create_of (words_of line.now)) }
{
    let Some((table, rest)) = next_word(line) else {
        return Ok(None);
    };
    if !is_name(table) {
        return Ok(None);
    }
    let Some(count) = count_all::<Column>(rest) else {
        return Ok(None);
    };
    if count < 1 || count > MAX_COLUMNS {
        return Ok(None);
    }
    let table = read_name(alloc, table)?;
    let Some(columns) = read_all(alloc, rest, count)? else {
        return Ok(None);
    };
    Ok(Some(Statement::Create { table, columns }))
}

/// The stage that takes rows.
#[derive(Clone, Copy)]
pub(crate) enum Stage {
    L1,
    L2,
}

/// `T v ..`, into a stage.
pub(crate) fn rows_of(
    alloc: Global,
    stage: Stage,
    line: &[u8],
) -> Result<Option<Statement>, AllocError>
    ensures { Reads result (rows_of (put_into stage) (words_of line.now)) }
{
    let Some((table, rest)) = next_word(line) else {
        return Ok(None);
    };
    if !is_name(table) {
        return Ok(None);
    }
    let Some(values) = values_of(alloc, rest)? else {
        return Ok(None);
    };
    let table = read_name(alloc, table)?;
    match stage {
        Stage::L1 => Ok(Some(Statement::Insert { table, values })),
        Stage::L2 => Ok(Some(Statement::Bulk { table, values })),
    }
}

/// `T set c v [W]`
pub(crate) fn update_of(alloc: Global, line: &[u8]) -> Result<Option<Statement>, AllocError>
    ensures { Reads result (update_of (words_of line.now)) }
{
    let Some((table, rest)) = next_word(line) else {
        return Ok(None);
    };
    let Some((verb, rest)) = next_word(rest) else {
        return Ok(None);
    };
    let Some((column, rest)) = next_word(rest) else {
        return Ok(None);
    };
    let Some((value, rest)) = next_word(rest) else {
        return Ok(None);
    };
    if !(is_name(table) && same_bytes(verb, b"set") && is_name(column)) {
        return Ok(None);
    }
    if !(Value::is_spelled(value) && are_conditions(rest)) {
        return Ok(None);
    }
    let table = read_name(alloc, table)?;
    let column = read_name(alloc, column)?;
    let Some(value) = Value::read(alloc, value)? else {
        return Ok(None);
    };
    let Some(preds) = read_conditions(alloc, rest)? else {
        return Ok(None);
    };
    Ok(Some(Statement::Update {
        table,
        column,
        value,
        preds,
    }))
}

/// `T [W]`
pub(crate) fn delete_of(alloc: Global, line: &[u8]) -> Result<Option<Statement>, AllocError>
    ensures { Reads result (chosen_of Statement.Delete (words_of line.now)) }
{
    let Some((table, rest)) = next_chosen(line) else {
        return Ok(None);
    };
    let table = read_name(alloc, table)?;
    let Some(preds) = read_conditions(alloc, rest)? else {
        return Ok(None);
    };
    Ok(Some(Statement::Delete { table, preds }))
}
