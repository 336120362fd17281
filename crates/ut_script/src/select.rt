//! The statement that asks for the values of rows.
#![tactic(auto, using(crate::proofs::StatementLemmas::statements))]

ghost use Rattle.std.specs.Prelude.{◌≡◌, ◌≤◌, ◌+◌, ◌∷◌, Some, None, true, length, IfOk, IfNone, IfSome, option_and_then};
ghost use Rattle.std.specs.Option.{option_map};
ghost use Rattle.ut_value.specs.Text.{is_name};
ghost use Rattle.ut_script.specs.Words.{words_of};
ghost use Rattle.ut_script.specs.Conditions.{conditions_of};
ghost use Rattle.ut_script.specs.Statements.{Reads, select_of, columns_of_all, columns_named, names_before, from_where, is_where};

use crate::conditions::{are_conditions, read_conditions};
use crate::spelled::read_name;
use crate::words::next_word;
use std::alloc::{AllocError, Global};
use ut_plain::{Query, Statement};
use ut_value::{Name, Seq, is_name, same_bytes};

/// `T * [W]` or `T c .. [W]`
pub(crate) fn select_of(alloc: Global, line: &[u8]) -> Result<Option<Statement>, AllocError>
    ensures { Reads result (select_of (words_of line.now)) }
{
    let Some((table, rest)) = next_word(line) else {
        return Ok(None);
    };
    let Some((word, behind)) = next_word(rest) else {
        return Ok(None);
    };
    if !is_name(table) {
        return Ok(None);
    }
    if same_bytes(word, b"*") {
        columns_of_all(alloc, table, behind)
    } else {
        columns_named(alloc, table, rest)
    }
}

// All columns.
fn columns_of_all(alloc: Global, table: &[u8], line: &[u8]) -> Result<Option<Statement>, AllocError>
    requires { is_name table.now ≡ true }
    ensures { Reads result (columns_of_all table.now (words_of line.now)) }
{
    if !are_conditions(line) {
        return Ok(None);
    }
    let table = read_name(alloc, table)?;
    let Some(preds) = read_conditions(alloc, line)? else {
        return Ok(None);
    };
    Ok(Some(Statement::Ask(Query::Select {
        table,
        columns: None,
        preds,
    })))
}

// The columns that are named.
fn columns_named(alloc: Global, table: &[u8], line: &[u8]) -> Result<Option<Statement>, AllocError>
    requires { is_name table.now ≡ true }
    ensures { Reads result (columns_named table.now (words_of line.now)) }
{
    let Some((count, rest)) = names_before(line) else {
        return Ok(None);
    };
    if count < 1 {
        return Ok(None);
    }
    if !are_conditions(rest) {
        return Ok(None);
    }
    let table = read_name(alloc, table)?;
    let columns = read_names(alloc, line, count)?;
    let Some(preds) = read_conditions(alloc, rest)? else {
        return Ok(None);
    };
    Ok(Some(Statement::Ask(Query::Select {
        table,
        columns: Some(columns),
        preds,
    })))
}

fn is_where(word: &[u8]) -> bool
    ensures { result ≡ is_where word.now }
{
    same_bytes(word, b"where")
}

// How many names stand before the conditions, and the conditions.
fn names_before(line: &[u8]) -> Option<(usize, &[u8])>
    ensures count { option_map (λ r. r.0) result ≡ option_map length (names_before (words_of line.now)) }
    ensures rest { IfSome result (λ r. words_of r.1.now ≡ from_where (words_of line.now)) }
{
    let mut count = 0usize;
    let mut rest = line;
    while let Some((word, behind)) = next_word(rest) {
        if is_where(word) {
            return Some((count, rest));
        }
        if !is_name(word) {
            return None;
        }
        count += 1;
        rest = behind;
    }
    Some((count, rest))
}

fn read_names(alloc: Global, line: &[u8], count: usize) -> Result<Seq<Name>, AllocError>
    requires { option_map length (names_before (words_of line.now)) ≡ Some count }
    ensures { IfOk result (λ names. names_before (words_of line.now) ≡ Some names) }
{
    let mut names = Vec::with_capacity(alloc, count)?;
    let mut rest = line;
    while let Some((word, behind)) = next_word(rest) {
        if is_where(word) {
            return Ok(Seq::from_vec(names));
        }
        names.push_reserved(read_name(alloc, word)?);
        rest = behind;
    }
    Ok(Seq::from_vec(names))
}
