//! The statements of session 0, the operator's.
#![tactic(auto, using(crate::proofs::StatementLemmas::statements))]

ghost use Rattle.std.specs.Prelude.{◌≡◌, ◌∷◌, [], Some, None, IfSome, IfNone, true, false};
ghost use Rattle.std.specs.Option.{option_map};
ghost use Rattle.ut_value.specs.Text.{is_name};
ghost use Rattle.ut_script.specs.Words.{words_of};
ghost use Rattle.ut_script.specs.Statements.{Reads, ReadsStatement, count_of, merge_kind_of, is_named_word, merge_l1_of, merge_begin_of, merge_end_of, merge_of, save_step_of, save_of, shape_of, store_statement_of};

use crate::literals::{number_of, within};
use crate::spelled::read_name;
use crate::statements::alone;
use crate::words::next_word;
use std::alloc::{AllocError, Global};
use ut_plain::Statement;
use ut_value::{COUNT_LIMIT, MergeKind, is_name, same_bytes};

/// The greatest number of rows or pages that a statement names.
const MAX_COUNT: u64 = COUNT_LIMIT as u64;

/// The statements of session 0.
pub(crate) fn store_statement_of(
    alloc: Global,
    line: &[u8],
) -> Result<Option<Statement>, AllocError>
    ensures { ReadsStatement result (store_statement_of (words_of line.now)) }
{
    let Some((verb, rest)) = next_word(line) else {
        return Ok(None);
    };
    if same_bytes(verb, b"save") {
        Ok(save_of(rest))
    } else if same_bytes(verb, b"merge") {
        match merge_end_of(rest) {
            Some(st) => Ok(Some(st)),
            None => merge_of(alloc, rest),
        }
    } else if same_bytes(verb, b"shape") {
        shape_of(alloc, rest)
    } else {
        Ok(None)
    }
}

// The statements of the savepoint. They take no memory.
fn save_of(line: &[u8]) -> Option<Statement>
    ensures { result ≡ save_of (words_of line.now) }
{
    let (verb, rest) = next_word(line)?;
    if same_bytes(verb, b"begin") {
        alone(Statement::SaveBegin, rest)
    } else if same_bytes(verb, b"step") {
        save_step_of(rest)
    } else if same_bytes(verb, b"seal") {
        alone(Statement::SaveSeal, rest)
    } else if same_bytes(verb, b"flip") {
        alone(Statement::SaveFlip, rest)
    } else if same_bytes(verb, b"drop") {
        alone(Statement::SaveDrop, rest)
    } else {
        None
    }
}

fn save_step_of(line: &[u8]) -> Option<Statement>
    ensures { result ≡ save_step_of (words_of line.now) }
{
    let (word, rest) = next_word(line)?;
    let None = next_word(rest) else {
        return None;
    };
    let n = count_of(word)?;
    Some(Statement::SaveStep { n })
}

fn merge_end_of(line: &[u8]) -> Option<Statement>
    ensures { result ≡ merge_end_of (words_of line.now) }
{
    let (verb, rest) = next_word(line)?;
    if same_bytes(verb, b"end") {
        alone(Statement::MergeEnd, rest)
    } else {
        None
    }
}

fn merge_of(alloc: Global, line: &[u8]) -> Result<Option<Statement>, AllocError>
    ensures { Reads result (merge_of (words_of line.now)) }
{
    let Some((verb, rest)) = next_word(line) else {
        return Ok(None);
    };
    if same_bytes(verb, b"l1") {
        merge_l1_of(alloc, rest)
    } else if same_bytes(verb, b"begin") {
        merge_begin_of(alloc, rest)
    } else {
        Ok(None)
    }
}

// A table's name and the word behind it, which is the last.
fn named_word(line: &[u8]) -> Option<(&[u8], &[u8])>
    ensures found { IfSome result (λ r. words_of line.now ≡ r.0.now ∷ r.1.now ∷ []) }
    ensures table { IfSome result (λ r. is_name r.0.now ≡ true) }
    ensures none { IfNone result (is_named_word (words_of line.now) ≡ false) }
{
    let (table, rest) = next_word(line)?;
    let (word, rest) = next_word(rest)?;
    let None = next_word(rest) else {
        return None;
    };
    if is_name(table) {
        Some((table, word))
    } else {
        None
    }
}

// `T n`
fn merge_l1_of(alloc: Global, line: &[u8]) -> Result<Option<Statement>, AllocError>
    ensures { Reads result (merge_l1_of (words_of line.now)) }
{
    let Some((table, word)) = named_word(line) else {
        return Ok(None);
    };
    let Some(n) = count_of(word) else {
        return Ok(None);
    };
    let table = read_name(alloc, table)?;
    Ok(Some(Statement::MergeL1 { table, n }))
}

// `T k`
fn merge_begin_of(alloc: Global, line: &[u8]) -> Result<Option<Statement>, AllocError>
    ensures { Reads result (merge_begin_of (words_of line.now)) }
{
    let Some((table, word)) = named_word(line) else {
        return Ok(None);
    };
    let Some(kind) = merge_kind_of(word) else {
        return Ok(None);
    };
    let table = read_name(alloc, table)?;
    Ok(Some(Statement::MergeBegin { table, kind }))
}

// `T`
fn shape_of(alloc: Global, line: &[u8]) -> Result<Option<Statement>, AllocError>
    ensures { Reads result (shape_of (words_of line.now)) }
{
    let Some((table, rest)) = next_word(line) else {
        return Ok(None);
    };
    let None = next_word(rest) else {
        return Ok(None);
    };
    if !is_name(table) {
        return Ok(None);
    }
    let table = read_name(alloc, table)?;
    Ok(Some(Statement::Shape { table }))
}

// A number of rows or pages.
fn count_of(word: &[u8]) -> Option<u32>
    ensures { result ≡ count_of word.now }
{
    match within(1, MAX_COUNT, number_of(word)) {
        None => None,
        Some(n) => Some(n as u32),
    }
}

fn merge_kind_of(word: &[u8]) -> Option<MergeKind>
    ensures { result ≡ merge_kind_of word.now }
{
    if same_bytes(word, b"classic") {
        Some(MergeKind::Classic)
    } else if same_bytes(word, b"resort") {
        Some(MergeKind::Resort)
    } else if same_bytes(word, b"partial") {
        Some(MergeKind::Partial)
    } else if same_bytes(word, b"extend") {
        Some(MergeKind::Extend)
    } else {
        None
    }
}
