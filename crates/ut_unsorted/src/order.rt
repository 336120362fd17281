//! The codes of different keys, in the order of the keys.
ghost use Rattle.std.specs.Prelude.{◌≡◌, ◌^◌, ◌<◌, [], length, map, get_or, All, IfOk};
ghost use Rattle.ut_unsorted.specs.Coded.{IsCoded};
ghost use Rattle.std.specs.List.{IsDistinct, range_with_len};
ghost use Rattle.std.specs.List.Sorted.{IsPermutation};
ghost use Rattle.ut_key.specs.Keys.{IsAscending};
ghost use Rattle.ut_unsorted.specs.FirstSeen.{key_eq, keys_at};

use crate::key::{Text, Word};
use std::alloc::{AllocError, Global};

/// A word as the number that it spells, and its code.
#[derive(Clone, Copy)]
struct CodedWord {
    number: u64,
    code: u32,
}

/// The bytes of a text, and its code.
#[derive(Clone, Copy)]
struct CodedText<'a> {
    bytes: &'a [u8],
    code: u32,
}

fn coded_words(alloc: Global, words: &[Word]) -> Result<Vec<CodedWord>, AllocError>
    requires { length words.now < 2 ^ 32 }
    ensures codes { IfOk result (λ all. map (λ p. p.code) all.items ≡ range_with_len 0 (length words.now)) }
    ensures numbers { IfOk result (λ all. All (IsCoded words.now) all.items) }
{
    let mut all = Vec::with_capacity(alloc, words.len())?;
    for code in 0..words.len() as u32 {
        let number = words[code as usize].number();
        all.push(CodedWord { number, code })?;
    }
    Ok(all)
}

fn coded_texts(alloc: Global, texts: &[Text]) -> Result<Vec<CodedText<'_>>, AllocError>
    requires { length texts.now < 2 ^ 32 }
    ensures codes { IfOk result (λ all. map (λ p. p.code) all.items ≡ range_with_len 0 (length texts.now)) }
    ensures texts { IfOk result (λ all. All (λ p. p.bytes.now ≡ get_or texts.now p.code []) all.items) }
{
    let mut all = Vec::with_capacity(alloc, texts.len())?;
    for code in 0..texts.len() as u32 {
        let bytes = texts[code as usize].as_slice();
        all.push(CodedText { bytes, code })?;
    }
    Ok(all)
}

fn word_codes(alloc: Global, all: &[CodedWord]) -> Result<Vec<u32>, AllocError>
    ensures { IfOk result (λ codes. codes.items ≡ map (λ (p : CodedWord). p.code) all.now) }
{
    all.iter().map(|word| word.code).collect(alloc)
}

fn text_codes(alloc: Global, all: &[CodedText<'_>]) -> Result<Vec<u32>, AllocError>
    ensures { IfOk result (λ codes. codes.items ≡ map (λ (p : CodedText). p.code) all.now) }
{
    all.iter().map(|text| text.code).collect(alloc)
}

fn codes_below(alloc: Global, len: u32) -> Result<Vec<u32>, AllocError>
    ensures { IfOk result (λ codes. codes.items ≡ range_with_len 0 len) }
{
    let mut codes = Vec::with_capacity(alloc, len as usize)?;
    for code in 0..len {
        codes.push(code)?;
    }
    Ok(codes)
}

/// The codes of words that ascend.
pub(crate) fn order_rising(alloc: Global, words: &[Word]) -> Result<Vec<u32>, AllocError>
    requires few { length words.now < 2 ^ 32 }
    requires rising { IsAscending words.now }
    ensures all { IfOk result (λ codes. IsPermutation (range_with_len 0 (length words.now)) codes.items) }
    ensures ascending { IfOk result (λ codes. IsAscending (keys_at words.now codes.items)) }
{
    codes_below(alloc, words.len() as u32)
}

/// The codes of words, which are compared as numbers.
pub(crate) fn order_words(alloc: Global, words: &[Word]) -> Result<Vec<u32>, AllocError>
    requires few { length words.now < 2 ^ 32 }
    requires differ { IsDistinct key_eq words.now }
    ensures all { IfOk result (λ codes. IsPermutation (range_with_len 0 (length words.now)) codes.items) }
    ensures ascending { IfOk result (λ codes. IsAscending (keys_at words.now codes.items)) }
{
    let mut all = coded_words(alloc, words)?;
    all.sort_unstable_by_key(|word| word.number);
    word_codes(alloc, all.as_slice())
}

/// The codes of texts, which are compared by their bytes.
pub(crate) fn order_texts(alloc: Global, texts: &[Text]) -> Result<Vec<u32>, AllocError>
    requires few { length texts.now < 2 ^ 32 }
    requires differ { IsDistinct key_eq texts.now }
    ensures all { IfOk result (λ codes. IsPermutation (range_with_len 0 (length texts.now)) codes.items) }
    ensures ascending { IfOk result (λ codes. IsAscending (keys_at texts.now codes.items)) }
{
    let mut all = coded_texts(alloc, texts)?;
    all.sort_unstable_by(|a, b| a.bytes.cmp(b.bytes));
    text_codes(alloc, all.as_slice())
}
