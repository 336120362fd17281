//! Words in ascending order, which are found without a hash.
ghost use Rattle.std.specs.Prelude.{◌≡◌, ◌+◌, ◌^◌, ◌<◌, ◌≤◌, ℕ, [], length, slice_index_or, take, position, IfOk, IfSome, OnErr};
ghost use Rattle.std.specs.Int.{to_be_bytes, w64};
ghost use Rattle.std.specs.List.{position_or_len, IsDistinct};
ghost use Rattle.ut_key.specs.Keys.{IsAscending};
ghost use Rattle.ut_unsorted.specs.FirstSeen.{key_eq, note};
ghost use Rattle.ut_unsorted.specs.Rising.{risen};

use crate::key::Word;
use std::alloc::{AllocError, Global};
use std::marker::{Brand, Model};
use std::sync::ledger::{Blank, Ledger};
use ut_key::Steps;

/// Words in ascending order, as ids that only grow.
#[derive(Drop)]
pub struct Rising {
    words: Vec<Word>,
}

impl Model for Rising {
    ghost use Rattle.std.specs.Prelude.{List, ℕ};
    ghost use Rattle.ut_key.specs.Keys.{IsAscending};
    ghost use Rattle.ut_unsorted.specs.Rising.{AreWords};

    ghost Value = { List (List ℕ) };

    ghost view = { λ r. r.words.items };

    ghost invariant = { λ r. IsAscending r.words.items × AreWords r.words.items };
}

impl Rising {
    pub(crate) fn new(alloc: Global) -> Self
        ensures { result ≡ [] }
    {
        Rising {
            words: Vec::new(alloc),
        }
    }

    /// The words.
    pub(crate) fn as_slice(&self) -> &[Word]
        ensures words { result.now ≡ self.now }
        ensures ascending { IsAscending result.now }
        ensures differ { IsDistinct key_eq result.now }
    {
        self.words.as_slice()
    }

    /// The place of a word that is held, or goes last; none where it would have to go between others.
    pub(crate) fn intern(&mut self, word: Word) -> Result<Option<u32>, AllocError>
        requires { length self.old < 2 ^ 31 }
        ensures code { IfOk result (λ r. IfSome r (λ c. c ≡ position_or_len (key_eq word) self.old)) }
        ensures keys { IfOk result (λ r. self.new ≡ risen r self.old word) }
        ensures err { OnErr result (self.new ≡ self.old) }
    {
        let len = self.words.len();
        let number = word.number();
        if len == 0 || self.words[len - 1].number() < number {
            self.words.push(word)?;
            return Ok(Some(len as u32));
        }
        Ok(counted_find::<Brand>(self.words.as_slice(), number, Blank::new(1)))
    }

    /// The place of a word that is held.
    pub(crate) fn code(&self, key: &[u8]) -> Option<u32>
        requires { length self.now < 2 ^ 32 }
        ensures { result ≡ position (key_eq key.now) self.now }
    {
        let words = self.words.as_slice();
        if key.len() != 8 {
            return None;
        }
        counted_find::<Brand>(words, Word::of(key).number(), Blank::new(1))
    }

    /// Keeps the first n words.
    pub(crate) fn truncate(&mut self, n: usize)
        ensures { self.new ≡ take n self.old }
    {
        self.words.truncate(n);
    }
}

/// The number that a word spells. This is one step.
fn number_at<L: Ledger>(words: &[Word], i: usize, steps: &mut Steps<L>) -> u64
    requires { i < length words.now }
    ensures number { to_be_bytes w64 result ≡ slice_index_or words.now i [] }
    ensures step { steps.new ≡ steps.old + 1 }
{
    steps.tick();
    words[i].number()
}

/// The place of the word that spells a number, by binary search.
fn find<L: Ledger>(words: &[Word], number: u64, steps: &mut Steps<L>) -> Option<u32>
    requires few { length words.now < 2 ^ 32 }
    requires ascending { IsAscending words.now }
    ensures place { result ≡ position (key_eq (to_be_bytes w64 number)) words.now }
    ensures cost { (digits : ℕ) → length words.now < 2 ^ digits → steps.new ≤ steps.old + digits + 1 }
{
    let mut low = 0;
    let mut high = words.len();
    while low < high {
        let middle = low + (high - low) / 2;
        if number_at(words, middle, steps) < number {
            low = middle + 1;
        } else {
            high = middle;
        }
    }
    if low < words.len() && number_at(words, low, steps) == number {
        return Some(low as u32);
    }
    None
}

/// The same, with a counter for its steps over a new ledger.
fn counted_find<L: Ledger>(words: &[Word], number: u64, blank: Blank) -> Option<u32>
    requires name { blank.name ≡ L.name }
    requires parts { blank.parts ≡ L.parts }
    requires positive { 0 < blank.parts }
    requires few { length words.now < 2 ^ 32 }
    requires ascending { IsAscending words.now }
    ensures { result ≡ position (key_eq (to_be_bytes w64 number)) words.now }
{
    let mut steps = Steps::<L>::new(blank);
    find(words, number, &mut steps)
}
