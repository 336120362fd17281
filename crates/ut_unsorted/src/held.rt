//! The forms in which different keys are held: ascending words at first, then words, then texts.
ghost use Rattle.std.specs.Prelude.{◌≡◌, ◌^◌, ◌<◌, ◌≤◌, length, position, IfOk, OnOk, OnErr};
ghost use Rattle.std.specs.List.{position_or_len, IsDistinct};
ghost use Rattle.ut_unsorted.specs.FirstSeen.{key_eq, note};

use crate::key::{Sought, Text, Word};
use crate::rising::Rising;
use indexmap::IndexSet;
use std::alloc::{AllocError, Global};

/// The keys, in one of the three forms.
#[derive(Drop)]
pub enum Held {
    Rising(Rising),
    Words(IndexSet<Word>),
    Texts(IndexSet<Text>),
}

/// The place of a word, which goes last where it is new.
pub(crate) fn intern_word(words: &mut IndexSet<Word>, word: Word) -> Result<u32, AllocError>
    requires { length words.old.keys < 2 ^ 31 }
    ensures code { IfOk result (λ c. c ≡ position_or_len (key_eq word) words.old.keys) }
    ensures keys { OnOk result (words.new.keys ≡ note words.old.keys word) }
    ensures err { OnErr result (words.new.keys ≡ words.old.keys) }
{
    let (code, _) = words.insert_full(word)?;
    Ok(code as u32)
}

/// The place of a text, which goes last where it is new.
pub(crate) fn intern_text(
    alloc: Global,
    texts: &mut IndexSet<Text>,
    key: &[u8],
) -> Result<u32, AllocError>
    requires short { length key.now ≤ 255 }
    requires count { length texts.old.keys < 2 ^ 31 }
    ensures code { IfOk result (λ c. c ≡ position_or_len (key_eq key.now) texts.old.keys) }
    ensures keys { OnOk result (texts.new.keys ≡ note texts.old.keys key.now) }
    ensures err { OnErr result (texts.new.keys ≡ texts.old.keys) }
{
    if let Some(code) = text_code(texts, key) {
        return Ok(code);
    }
    let code = texts.as_slice().len();
    texts.insert_full(Text::of(alloc, key)?)?;
    Ok(code as u32)
}

/// The same keys in a set.
pub(crate) fn words_of(alloc: Global, words: &[Word]) -> Result<IndexSet<Word>, AllocError>
    requires { IsDistinct key_eq words.now }
    ensures { IfOk result (λ set. set.keys ≡ words.now) }
{
    let mut set = IndexSet::with_capacity(alloc, words.len())?;
    for word in words {
        set.insert_full(Word::of(word.as_slice()))?;
    }
    Ok(set)
}

/// The same keys as texts.
pub(crate) fn texts_of(alloc: Global, words: &[Word]) -> Result<IndexSet<Text>, AllocError>
    requires { IsDistinct key_eq words.now }
    ensures { IfOk result (λ t. t.keys ≡ words.now) }
{
    let mut texts = IndexSet::with_capacity(alloc, words.len())?;
    for word in words {
        texts.insert_full(Text::of(alloc, word.as_slice())?)?;
    }
    Ok(texts)
}

/// The place of a word that is held.
pub(crate) fn word_code(words: &IndexSet<Word>, key: &[u8]) -> Option<u32>
    requires { length words.now.keys < 2 ^ 32 }
    ensures { result ≡ position (key_eq key.now) words.now.keys }
{
    match words.get_index_of(Sought { bytes: key }) {
        Some(code) => Some(code as u32),
        None => None,
    }
}

/// The place of a text that is held.
pub(crate) fn text_code(texts: &IndexSet<Text>, key: &[u8]) -> Option<u32>
    requires { length texts.now.keys < 2 ^ 32 }
    ensures { result ≡ position (key_eq key.now) texts.now.keys }
{
    match texts.get_index_of(Sought { bytes: key }) {
        Some(code) => Some(code as u32),
        None => None,
    }
}
