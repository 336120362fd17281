//! The statements that ask for rows.
#![tactic(auto, using(crate::proofs::StatementLemmas::statements))]

ghost use Rattle.std.specs.Prelude.{◌≡◌, ◌<◌, Some, None, true, length, IfSome, IfNone, false, is_some, ◌∷◌};
ghost use Rattle.ut_script.specs.Words.{words_of};
ghost use Rattle.ut_value.specs.Text.{is_name};
ghost use Rattle.ut_script.specs.Conditions.{conditions_of};
ghost use Rattle.ut_script.specs.Statements.{Reads, query_of, is_folded, chosen_of, folded_of, group_of, join_of};

use crate::conditions::{are_conditions, next_chosen, read_conditions};
use crate::select::select_of;
use crate::spelled::read_name;
use crate::words::next_word;
use std::alloc::{AllocError, Global};
use ut_plain::{Query, Statement};
use ut_value::{is_name, same_bytes};

/// `count T [W]` and the other statements that ask.
pub(crate) fn query_of(
    alloc: Global,
    verb: &[u8],
    line: &[u8],
) -> Result<Option<Statement>, AllocError>
    ensures { Reads result (query_of verb.now (words_of line.now)) }
{
    if same_bytes(verb, b"select") {
        select_of(alloc, line)
    } else if same_bytes(verb, b"count") {
        count_of(alloc, line)
    } else if same_bytes(verb, b"sum") {
        sum_of(alloc, line)
    } else if same_bytes(verb, b"min") {
        min_of(alloc, line)
    } else if same_bytes(verb, b"max") {
        max_of(alloc, line)
    } else if same_bytes(verb, b"group") {
        group_of(alloc, line)
    } else if same_bytes(verb, b"join") {
        join_of(alloc, line)
    } else {
        Ok(None)
    }
}

// `T [W]`
fn count_of(alloc: Global, line: &[u8]) -> Result<Option<Statement>, AllocError>
    ensures { Reads result
        (chosen_of (λ table preds. Statement.Ask (Query.Count table preds)) (words_of line.now)) }
{
    let Some((table, rest)) = next_chosen(line) else {
        return Ok(None);
    };
    let table = read_name(alloc, table)?;
    let Some(preds) = read_conditions(alloc, rest)? else {
        return Ok(None);
    };
    Ok(Some(Statement::Ask(Query::Count { table, preds })))
}

// `T c [W]`
fn sum_of(alloc: Global, line: &[u8]) -> Result<Option<Statement>, AllocError>
    ensures { Reads result
        (folded_of (λ table column preds. Statement.Ask (Query.Sum table column preds)) (words_of line.now)) }
{
    let Some(folded) = next_folded(line) else {
        return Ok(None);
    };
    let table = read_name(alloc, folded.table)?;
    let column = read_name(alloc, folded.column)?;
    let Some(preds) = read_conditions(alloc, folded.rest)? else {
        return Ok(None);
    };
    Ok(Some(Statement::Ask(Query::Sum {
        table,
        column,
        preds,
    })))
}

// `T c [W]`
fn min_of(alloc: Global, line: &[u8]) -> Result<Option<Statement>, AllocError>
    ensures { Reads result
        (folded_of (λ table column preds. Statement.Ask (Query.Min table column preds)) (words_of line.now)) }
{
    let Some(folded) = next_folded(line) else {
        return Ok(None);
    };
    let table = read_name(alloc, folded.table)?;
    let column = read_name(alloc, folded.column)?;
    let Some(preds) = read_conditions(alloc, folded.rest)? else {
        return Ok(None);
    };
    Ok(Some(Statement::Ask(Query::Min {
        table,
        column,
        preds,
    })))
}

// `T c [W]`
fn max_of(alloc: Global, line: &[u8]) -> Result<Option<Statement>, AllocError>
    ensures { Reads result
        (folded_of (λ table column preds. Statement.Ask (Query.Max table column preds)) (words_of line.now)) }
{
    let Some(folded) = next_folded(line) else {
        return Ok(None);
    };
    let table = read_name(alloc, folded.table)?;
    let column = read_name(alloc, folded.column)?;
    let Some(preds) = read_conditions(alloc, folded.rest)? else {
        return Ok(None);
    };
    Ok(Some(Statement::Ask(Query::Max {
        table,
        column,
        preds,
    })))
}

/// A table, a column of it, and conditions, tested.
#[derive(Clone, Copy)]
struct Folded<'a> {
    table: &'a [u8],
    column: &'a [u8],
    rest: &'a [u8],
}

fn next_folded(line: &[u8]) -> Option<Folded<'_>>
    ensures found { IfSome result (λ r. words_of line.now ≡ r.table.now ∷ r.column.now ∷ words_of r.rest.now) }
    ensures table { IfSome result (λ r. is_name r.table.now ≡ true) }
    ensures column { IfSome result (λ r. is_name r.column.now ≡ true) }
    ensures conditions { IfSome result (λ r. is_some (conditions_of (words_of r.rest.now)) ≡ true) }
    ensures none { IfNone result (is_folded (words_of line.now) ≡ false) }
{
    let (table, rest) = next_word(line)?;
    let (column, rest) = next_word(rest)?;
    if is_name(table) && is_name(column) && are_conditions(rest) {
        Some(Folded {
            table,
            column,
            rest,
        })
    } else {
        None
    }
}

// `T c sum d [W]`
fn group_of(alloc: Global, line: &[u8]) -> Result<Option<Statement>, AllocError>
    ensures { Reads result (group_of (words_of line.now)) }
{
    let Some((table, rest)) = next_word(line) else {
        return Ok(None);
    };
    let Some((key, rest)) = next_word(rest) else {
        return Ok(None);
    };
    let Some((verb, rest)) = next_word(rest) else {
        return Ok(None);
    };
    let Some((sum, rest)) = next_word(rest) else {
        return Ok(None);
    };
    if !(is_name(table) && is_name(key) && same_bytes(verb, b"sum") && is_name(sum)) {
        return Ok(None);
    }
    if !are_conditions(rest) {
        return Ok(None);
    }
    let table = read_name(alloc, table)?;
    let key = read_name(alloc, key)?;
    let sum = read_name(alloc, sum)?;
    let Some(preds) = read_conditions(alloc, rest)? else {
        return Ok(None);
    };
    Ok(Some(Statement::Ask(Query::Group {
        table,
        key,
        sum,
        preds,
    })))
}

// `T c U d`
fn join_of(alloc: Global, line: &[u8]) -> Result<Option<Statement>, AllocError>
    ensures { Reads result (join_of (words_of line.now)) }
{
    let Some((left, rest)) = next_word(line) else {
        return Ok(None);
    };
    let Some((left_column, rest)) = next_word(rest) else {
        return Ok(None);
    };
    let Some((right, rest)) = next_word(rest) else {
        return Ok(None);
    };
    let Some((right_column, rest)) = next_word(rest) else {
        return Ok(None);
    };
    let None = next_word(rest) else {
        return Ok(None);
    };
    if !(is_name(left) && is_name(left_column) && is_name(right) && is_name(right_column)) {
        return Ok(None);
    }
    let left = read_name(alloc, left)?;
    let left_column = read_name(alloc, left_column)?;
    let right = read_name(alloc, right)?;
    let right_column = read_name(alloc, right_column)?;
    Ok(Some(Statement::Ask(Query::Join {
        left,
        left_column,
        right,
        right_column,
    })))
}
