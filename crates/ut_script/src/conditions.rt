//! The conditions that end a statement: nothing, or `where` and comparisons that are joined by `and`.
ghost use Rattle.std.specs.Prelude.{◌≡◌, ◌<◌, ◌≤◌, ◌∷◌, [], length, IfOk, IfSome, IfNone, Some, true, false, is_some};
ghost use Rattle.ut_value.specs.Text.{is_name};
ghost use Rattle.ut_script.specs.Words.{words_of};
ghost use Rattle.ut_script.specs.Conditions.{operator_of, comparison_of, comparisons_of, conditions_of};
ghost use Rattle.ut_script.specs.Statements.{is_chosen};

use crate::spelled::{Spelled, read_name};
use crate::words::next_word;
use std::alloc::{AllocError, Global};
use ut_key::Cmp;
use ut_plain::Pred;
use ut_value::{Seq, Value, is_name, same_bytes};

/// Whether the words that are left are conditions.
#[tactic(auto, unfolding(crate::specs::Conditions::conditions_of))]
pub(crate) fn are_conditions(line: &[u8]) -> bool
    ensures { result ≡ is_some (conditions_of (words_of line.now)) }
{
    match next_word(line) {
        None => true,
        Some((word, rest)) => same_bytes(word, b"where") && are_comparisons(rest),
    }
}

/// A table's name and what stands behind it, tested as conditions.
pub(crate) fn next_chosen(line: &[u8]) -> Option<(&[u8], &[u8])>
    ensures found { IfSome result (λ r. words_of line.now ≡ r.0.now ∷ words_of r.1.now) }
    ensures table { IfSome result (λ r. is_name r.0.now ≡ true) }
    ensures conditions { IfSome result (λ r. is_some (conditions_of (words_of r.1.now)) ≡ true) }
    ensures none { IfNone result (is_chosen (words_of line.now) ≡ false) }
{
    let (table, rest) = next_word(line)?;
    if is_name(table) && are_conditions(rest) {
        Some((table, rest))
    } else {
        None
    }
}

/// The conditions that the words that are left spell, if they are such.
#[tactic(auto, unfolding(crate::specs::Conditions::conditions_of))]
pub(crate) fn read_conditions(alloc: Global, line: &[u8]) -> Result<Option<Seq<Pred>>, AllocError>
    ensures { IfOk result (λ preds. preds ≡ conditions_of (words_of line.now)) }
{
    match next_word(line) {
        None => Ok(Some(Seq::new(alloc))),
        Some((word, rest)) => {
            if same_bytes(word, b"where") {
                read_comparisons(alloc, rest)
            } else {
                Ok(None)
            }
        }
    }
}

/// The words of a comparison, and what stands behind them.
#[derive(Clone, Copy)]
struct Comparison<'a> {
    column: &'a [u8],
    op: &'a [u8],
    value: &'a [u8],
    rest: &'a [u8],
}

fn next_comparison(line: &[u8]) -> Option<Comparison<'_>>
    ensures found { IfSome result (λ r. words_of line.now ≡ r.column.now ∷ r.op.now ∷ r.value.now ∷ words_of r.rest.now) }
    ensures shorter { IfSome result (λ r. length r.rest.now < length line.now) }
    ensures none { IfNone result (length (words_of line.now) < 3) }
{
    let (column, rest) = next_word(line)?;
    let (op, rest) = next_word(rest)?;
    let (value, rest) = next_word(rest)?;
    Some(Comparison {
        column,
        op,
        value,
        rest,
    })
}

fn are_comparisons(line: &[u8]) -> bool
    ensures { result ≡ is_some (comparisons_of (words_of line.now)) }
{
    let mut rest = line;
    while let Some(words) = next_comparison(rest) {
        if !is_comparison(words.column, words.op, words.value) {
            return false;
        }
        let Some((joint, behind)) = next_word(words.rest) else {
            return true;
        };
        if !same_bytes(joint, b"and") {
            return false;
        }
        rest = behind;
    }
    false
}

#[tactic(auto, unfolding(crate::specs::Conditions::comparison_of))]
fn is_comparison(column: &[u8], op: &[u8], value: &[u8]) -> bool
    ensures { result ≡ is_some (comparison_of column.now op.now value.now) }
{
    operator_of(op).is_some() && Value::is_spelled(value) && is_name(column)
}

fn read_comparisons(alloc: Global, line: &[u8]) -> Result<Option<Seq<Pred>>, AllocError>
    ensures { IfOk result (λ preds. preds ≡ comparisons_of (words_of line.now)) }
{
    let mut preds = Vec::new(alloc);
    let mut rest = line;
    while let Some(words) = next_comparison(rest) {
        let Some(pred) = read_comparison(alloc, words.column, words.op, words.value)? else {
            return Ok(None);
        };
        preds.push(pred)?;
        let Some((joint, behind)) = next_word(words.rest) else {
            return Ok(Some(Seq::from_vec(preds)));
        };
        if !same_bytes(joint, b"and") {
            return Ok(None);
        }
        rest = behind;
    }
    Ok(None)
}

#[tactic(auto, unfolding(crate::specs::Conditions::comparison_of))]
fn read_comparison(
    alloc: Global,
    column: &[u8],
    op: &[u8],
    value: &[u8],
) -> Result<Option<Pred>, AllocError>
    ensures { IfOk result (λ pred. pred ≡ comparison_of column.now op.now value.now) }
{
    let Some(op) = operator_of(op) else {
        return Ok(None);
    };
    let Some(value) = Value::read(alloc, value)? else {
        return Ok(None);
    };
    if !is_name(column) {
        return Ok(None);
    }
    let column = read_name(alloc, column)?;
    Ok(Some(Pred { column, op, value }))
}

#[tactic(auto, unfolding(crate::specs::Conditions::operator_of))]
fn operator_of(word: &[u8]) -> Option<Cmp>
    ensures { result ≡ operator_of word.now }
{
    if same_bytes(word, b"=") {
        Some(Cmp::Eq)
    } else if same_bytes(word, b"<>") {
        Some(Cmp::Ne)
    } else if same_bytes(word, b"<") {
        Some(Cmp::Lt)
    } else if same_bytes(word, b"<=") {
        Some(Cmp::Le)
    } else if same_bytes(word, b">") {
        Some(Cmp::Gt)
    } else if same_bytes(word, b">=") {
        Some(Cmp::Ge)
    } else {
        None
    }
}
