//! The values that the words of a line spell, read as they are tested.
ghost use Rattle.std.specs.Prelude.{◌≡◌, IfOk, OnErr, true, is_some};
ghost use Rattle.ut_script.specs.Words.{words_of, all_of};
ghost use Rattle.ut_script.specs.Literals.{value_of};
ghost use Rattle.ut_script.specs.Statements.{values_of};

use crate::spelled::{Spelled, count_all};
use crate::words::next_word;
use std::alloc::{AllocError, Global};
use ut_value::{Seq, Value};

/// One or more values, where each of the words that are left spells one.
pub(crate) fn values_of(alloc: Global, line: &[u8]) -> Result<Option<Seq<Value>>, AllocError>
    ensures says { IfOk result (λ o. o ≡ values_of (words_of line.now)) }
    ensures memory { OnErr result (is_some (values_of (words_of line.now)) ≡ true) }
{
    match each_value(alloc, line) {
        Ok(None) => Ok(None),
        Ok(Some(values)) => {
            if values.len() == 0 {
                return Ok(None);
            }
            Ok(Some(values))
        }
        Err(failed) => {
            if are_values(line) {
                Err(failed)
            } else {
                Ok(None)
            }
        }
    }
}

// Whether the words that are left are one or more values.
#[tactic(auto, using(crate::proofs::ListedLemmas::counted))]
fn are_values(line: &[u8]) -> bool
    ensures { result ≡ is_some (values_of (words_of line.now)) }
{
    match count_all::<Value>(line) {
        Some(count) => count > 0,
        None => false,
    }
}

// The values of the words that are left, where each of them spells one.
fn each_value(alloc: Global, line: &[u8]) -> Result<Option<Seq<Value>>, AllocError>
    ensures { IfOk result (λ o. o ≡ all_of value_of (words_of line.now)) }
{
    let mut values = Vec::new(alloc);
    let mut rest = line;
    while let Some((word, behind)) = next_word(rest) {
        let Some(value) = Value::read(alloc, word)? else {
            return Ok(None);
        };
        values.push(value)?;
        rest = behind;
    }
    Ok(Some(Seq::from_vec(values)))
}
