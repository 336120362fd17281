//! Lists of things that one word each spells: names, columns and values.
ghost use Rattle.std.specs.Prelude.{◌≡◌, ◌≤◌, ◌+◌, List, ℕ, Option, length, IfOk, Some, true, is_some};
ghost use Rattle.std.specs.Option.{option_map};
ghost use Rattle.ut_value.specs.Text.{is_name};
ghost use Rattle.ut_script.specs.Words.{words_of, all_of};
ghost use Rattle.ut_script.specs.Literals.{name_of, column_of, kind_of, colon_at, value_of};

use crate::literals::{int_of, is_text_literal, text_of};
use crate::words::next_word;
use std::alloc::{AllocError, Global};
use ut_reply::QUOTE;
use ut_value::{Column, Kind, Name, Seq, Value, is_name, same_bytes};

const COLON: u8 = b':';

/// What one word can spell. A word is tested without memory.
pub(crate) trait Spelled: Drop {
    /// What a word spells.
    ghost spelled: { List ℕ → Option Self };

    fn is_spelled(word: &[u8]) -> bool
        ensures { result ≡ is_some (spelled word.now) };

    /// What a word spells, if it spells anything.
    fn read(alloc: Global, word: &[u8]) -> Result<Option<Self>, AllocError>
        ensures { IfOk result (λ item. item ≡ spelled word.now) };
}

/// The name that a word is.
pub(crate) fn read_name(alloc: Global, word: &[u8]) -> Result<Name, AllocError>
    requires { is_name word.now ≡ true }
    ensures says { IfOk result (λ name. name_of word.now ≡ Some name) }
    ensures same { IfOk result (λ name. name ≡ word.now) }
{
    Ok(Name::of(Vec::from_slice(alloc, word)?))
}

#[tactic(auto, unfolding(crate::specs::Literals::column_of))]
impl Spelled for Column {
    ghost spelled = { column_of };

    fn is_spelled(word: &[u8]) -> bool {
        let (name, kind) = word.split_at(colon_at(word));
        is_name(name) && kind_of(kind).is_some()
    }

    fn read(alloc: Global, word: &[u8]) -> Result<Option<Column>, AllocError> {
        let (name, kind) = word.split_at(colon_at(word));
        let Some(kind) = kind_of(kind) else {
            return Ok(None);
        };
        if !is_name(name) {
            return Ok(None);
        }
        let name = read_name(alloc, name)?;
        Ok(Some(Column { name, kind }))
    }
}

#[tactic(auto, unfolding(crate::specs::Literals::value_of))]
impl Spelled for Value {
    ghost spelled = { value_of };

    fn is_spelled(word: &[u8]) -> bool {
        match word {
            [] => false,
            [first, others @ ..] => {
                if *first == QUOTE {
                    is_text_literal(others)
                } else {
                    int_of(word).is_some()
                }
            }
        }
    }

    fn read(alloc: Global, word: &[u8]) -> Result<Option<Value>, AllocError> {
        match word {
            [] => Ok(None),
            [first, others @ ..] => {
                if *first == QUOTE {
                    match text_of(alloc, others)? {
                        Some(text) => Ok(Some(Value::Text(text))),
                        None => Ok(None),
                    }
                } else {
                    match int_of(word) {
                        Some(number) => Ok(Some(Value::Int(number))),
                        None => Ok(None),
                    }
                }
            }
        }
    }
}

// The kind that stands behind a column's name, with its colon.
fn kind_of(word: &[u8]) -> Option<Kind>
    ensures { result ≡ kind_of word.now }
{
    if same_bytes(word, b":int") {
        Some(Kind::Int)
    } else if same_bytes(word, b":text") {
        Some(Kind::Text)
    } else {
        None
    }
}

fn colon_at(word: &[u8]) -> usize
    ensures value { result ≡ colon_at word.now }
    ensures within { result ≤ length word.now }
{
    for (i, b) in word.iter().enumerate() {
        if *b == COLON {
            return i;
        }
    }
    word.len()
}

/// How many words are left, where each of them spells a thing of this kind.
pub(crate) fn count_all<T: Spelled>(line: &[u8]) -> Option<usize>
    ensures { result ≡ option_map length (all_of T.spelled (words_of line.now)) }
{
    let mut count = 0usize;
    let mut rest = line;
    while let Some((word, behind)) = next_word(rest) {
        if !T::is_spelled(word) {
            return None;
        }
        count += 1;
        rest = behind;
    }
    Some(count)
}

/// What the words that are left spell, which are so many.
pub(crate) fn read_all<T: Spelled>(
    alloc: Global,
    line: &[u8],
    count: usize,
) -> Result<Option<Seq<T>>, AllocError>
    requires { option_map length (all_of T.spelled (words_of line.now)) ≡ Some count }
    ensures { IfOk result (λ items. items ≡ all_of T.spelled (words_of line.now)) }
{
    let mut items = Vec::with_capacity(alloc, count)?;
    let mut rest = line;
    while let Some((word, behind)) = next_word(rest) {
        let Some(item) = T::read(alloc, word)? else {
            return Ok(None);
        };
        items.push_reserved(item);
        rest = behind;
    }
    Ok(Some(Seq::from_vec(items)))
}
