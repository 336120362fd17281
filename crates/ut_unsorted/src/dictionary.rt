//! The dictionary of a column that grows: different keys, each with its place as its code.
ghost use Rattle.std.specs.Prelude.{◌≡◌, ◌+◌, ◌^◌, ◌<◌, ◌≤◌, [], length, take, slice_index_or, position, IfOk, OnOk, OnErr};
ghost use Rattle.std.specs.List.{position_or_len, range_with_len};
ghost use Rattle.std.specs.List.Sorted.{IsPermutation};
ghost use Rattle.ut_key.specs.Keys.{IsAscending};
ghost use Rattle.ut_unsorted.specs.FirstSeen.{key_eq, note, keys_at};

use crate::held::{Held, intern_text, intern_word, text_code, texts_of, word_code, words_of};
use crate::key::Word;
use crate::order::{order_rising, order_texts, order_words};
use crate::rising::Rising;
use std::alloc::{AllocError, Global};
use std::marker::Model;
use std::sync::ledger::Ledger;
use ut_key::{Key, Steps};

/// Different keys, in the order in which they were first seen.
pub struct UnsortedDict {
    held: Held,
    alloc: Global,
}

// One step of a proof, wherever one is dropped.
impl Drop for UnsortedDict {
    fn drop(self) {
        let UnsortedDict { held: _, alloc: _ } = self;
    }
}

impl Model for UnsortedDict {
    ghost use Rattle.std.specs.Prelude.{List, ℕ};
    ghost use Rattle.ut_unsorted.specs.HeldKeys.{held_keys};

    ghost Value = { List (List ℕ) };

    ghost view = { λ d. held_keys d.held };
}

impl UnsortedDict {
    pub fn new(alloc: Global) -> Self
        ensures { result ≡ [] }
    {
        UnsortedDict {
            held: Held::Rising(Rising::new(alloc)),
            alloc,
        }
    }

    pub fn len(&self) -> u32
        requires { length self.now < 2 ^ 32 }
        ensures { result ≡ length self.now }
    {
        match &self.held {
            Held::Rising(words) => words.as_slice().len() as u32,
            Held::Words(words) => words.as_slice().len() as u32,
            Held::Texts(texts) => texts.as_slice().len() as u32,
        }
    }

    /// The place of a key, which goes last where it is new.
    pub fn intern(&mut self, key: &[u8]) -> Result<u32, AllocError>
        requires short { length key.now ≤ 255 }
        requires count { length self.old < 2 ^ 31 }
        ensures code { IfOk result (λ c. c ≡ position_or_len (key_eq key.now) self.old) }
        ensures keys { OnOk result (self.new ≡ note self.old key.now) }
        ensures err { OnErr result (self.new ≡ self.old) }
    {
        match &mut self.held {
            Held::Texts(texts) => return intern_text(self.alloc, texts, key),
            Held::Words(words) => {
                if key.len() == 8 {
                    return intern_word(words, Word::of(key));
                }
            }
            Held::Rising(words) => {
                if key.len() == 8 {
                    if let Some(code) = words.intern(Word::of(key))? {
                        return Ok(code);
                    }
                }
            }
        }
        self.intern_apart(key)
    }

    // The same, with the keys in another form. It is rare, and apart so that no other call pays for its locals.
    #[cold]
    #[inline(never)]
    fn intern_apart(&mut self, key: &[u8]) -> Result<u32, AllocError>
        requires short { length key.now ≤ 255 }
        requires count { length self.old < 2 ^ 31 }
        ensures code { IfOk result (λ c. c ≡ position_or_len (key_eq key.now) self.old) }
        ensures keys { OnOk result (self.new ≡ note self.old key.now) }
        ensures err { OnErr result (self.new ≡ self.old) }
    {
        let alloc = self.alloc;
        if let Held::Texts(texts) = &mut self.held {
            return intern_text(alloc, texts, key);
        }
        let words = match &self.held {
            Held::Rising(words) => words.as_slice(),
            Held::Words(words) => words.as_slice(),
            Held::Texts(_) => unreachable!(),
        };
        if key.len() == 8 {
            let mut words = words_of(alloc, words)?;
            let code = intern_word(&mut words, Word::of(key))?;
            self.held = Held::Words(words);
            return Ok(code);
        }
        let mut texts = texts_of(alloc, words)?;
        let code = intern_text(alloc, &mut texts, key)?;
        self.held = Held::Texts(texts);
        Ok(code)
    }

    /// The place of a key that is held.
    pub fn code(&self, key: &[u8]) -> Option<u32>
        requires { length self.now < 2 ^ 32 }
        ensures { result ≡ position (key_eq key.now) self.now }
    {
        match &self.held {
            Held::Rising(words) => words.code(key),
            Held::Words(words) => word_code(words, key),
            Held::Texts(texts) => text_code(texts, key),
        }
    }

    /// The bytes of the key of a code.
    pub fn bytes(&self, code: u32) -> &[u8]
        requires { code < length self.now }
        ensures key { result.now ≡ slice_index_or self.now code [] }
        ensures short { length result.now ≤ 255 }
    {
        match &self.held {
            Held::Rising(words) => words.as_slice()[code as usize].as_slice(),
            Held::Words(words) => words.as_slice()[code as usize].as_slice(),
            Held::Texts(texts) => texts.as_slice()[code as usize].as_slice(),
        }
    }

    /// The key of a code. This is one step.
    pub fn key<L: Ledger>(&self, code: u32, steps: &mut Steps<L>) -> Key
        requires { code < length self.now }
        ensures key { result ≡ slice_index_or self.now code [] }
        ensures step { steps.new ≡ steps.old + 1 }
    {
        steps.tick();
        Key::from_slice(self.bytes(code))
    }

    /// The codes in the order of their keys. No key is copied.
    pub fn order(&self, alloc: Global) -> Result<Vec<u32>, AllocError>
        requires { length self.now < 2 ^ 32 }
        ensures all { IfOk result (λ codes. IsPermutation (range_with_len 0 (length self.now)) codes.items) }
        ensures ascending { IfOk result (λ codes. IsAscending (keys_at self.now codes.items)) }
    {
        match &self.held {
            Held::Rising(words) => order_rising(alloc, words.as_slice()),
            Held::Words(words) => order_words(alloc, words.as_slice()),
            Held::Texts(texts) => order_texts(alloc, texts.as_slice()),
        }
    }

    /// Keeps the first n keys.
    pub fn cut(&mut self, n: u32)
        requires { n ≤ length self.old }
        ensures { self.new ≡ take n self.old }
    {
        match &mut self.held {
            Held::Rising(words) => words.truncate(n as usize),
            Held::Words(words) => words.truncate(n as usize),
            Held::Texts(texts) => texts.truncate(n as usize),
        }
    }
}
