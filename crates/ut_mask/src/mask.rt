//! A mask over places, a bit each.
ghost use Rattle.std.specs.Prelude.{◌≡◌, ◌+◌, ◌-◌, ◌*◌, ◌^◌, ◌<◌, ◌≤◌, ℕ, length, take, drop, replicate, true, false, not, slice_index_or, IfOk, IfSome, IfNone};
ghost use Rattle.std.specs.List.{list_all, count_by};
ghost use Rattle.ut_mask.specs.Mask.{kept_from, word_bits, IsNext};

use crate::word::{is_clear, lowest_from, ones, ones_outside};
use std::alloc::{AllocError, Global};
use std::marker::Model;

/// For each place whether it stands, 64 places a word.
#[derive(Drop)]
pub struct Mask {
    words: Vec<u64>,
    len: u32,
}

impl Model for Mask {
    ghost use Rattle.std.specs.Prelude.{List, Bool, take};
    ghost use Rattle.ut_mask.specs.Mask.{words_bits, IsMask};

    ghost Value = { List Bool };

    ghost view = { λ m. take m.len (words_bits m.words.items) };

    ghost invariant = { λ m. IsMask m.len m.words.items };
}

impl Mask {
    /// A mask in which every place stands.
    pub fn new(alloc: Global, len: u32) -> Result<Self, AllocError>
        requires { len ≤ 2 ^ 31 }
        ensures { IfOk result (λ m. m ≡ replicate len true) }
    {
        let whole = len as usize / 64;
        let mut words = Vec::with_capacity(alloc, whole + 1)?;
        words.resize(whole, u64::MAX)?;
        words.push(ones(len % 64))?;
        Ok(Mask { words, len })
    }

    pub fn len(&self) -> u32
        ensures len { result ≡ length self.now }
        ensures small { result ≤ 2 ^ 31 }
    {
        self.len
    }

    /// Whether none of the 64 places from place `64 * k` on stands.
    pub fn is_word_clear(&self, k: u32) -> bool
        requires { 64 * k ≤ length self.now }
        ensures { result ≡ list_all not (take 64 (drop (64 * k) self.now)) }
    {
        is_clear(self.words[k as usize])
    }

    /// Keeps of the 64 places from place `64 * k` on those whose bit is set.
    pub fn keep_word(&mut self, k: u32, bits: u64)
        requires { 64 * k ≤ length self.old }
        ensures { self.new ≡ kept_from (64 * k) self.old (word_bits bits) }
    {
        self.words[k as usize] &= bits;
    }

    /// Clears the places of a range.
    pub fn clear(&mut self, from: u32, to: u32)
        requires order { from ≤ to }
        requires within { to ≤ length self.old }
        ensures { self.new ≡ kept_from from self.old (replicate (to - from) false) }
    {
        let mut at = from;
        while at < to {
            let start = at / 64 * 64;
            let end = start + (to - start).min(64);
            self.keep_word(at / 64, ones_outside(at - start, end - start));
            at = end;
        }
    }

    /// Clears the places of a range unless they stay.
    pub fn keep_range(&mut self, from: u32, to: u32, stays: bool)
        requires order { from ≤ to }
        requires within { to ≤ length self.old }
        ensures { self.new ≡ kept_from from self.old (replicate (to - from) stays) }
    {
        if !stays {
            self.clear(from, to);
        }
    }

    /// The first place from one on that stands.
    pub fn next(&self, from: u32) -> Option<u32>
        ensures next { IfSome result (λ at. IsNext self.now from at) }
        ensures none { IfNone result ((j : ℕ) → from ≤ j → j < length self.now → slice_index_or self.now j false ≡ false) }
    {
        let words = self.words.as_slice();
        let mut at = from;
        for k in from as usize / 64..words.len() {
            let low = lowest_from(words[k], at % 64);
            if low < 64 {
                return Some(64 * k as u32 + low);
            }
            at = 64 * (k as u32 + 1);
        }
        None
    }

    /// How many places stand.
    pub fn count(&self) -> u32
        ensures { result ≡ count_by (λ b. b) self.now }
    {
        let mut count = 0;
        for word in self.words.as_slice() {
            count += word.count_ones();
        }
        count
    }
}
