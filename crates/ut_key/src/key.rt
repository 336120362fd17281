//! A key of a column: the bytes that a value is ordered by.
ghost use Rattle.std.specs.Prelude.{◌≡◌, ◌+◌, ◌≤◌, ◌++◌, [], length, take, ℕ};
ghost use Rattle.ut_key.specs.Keys.{key_cmp};

use crate::steps::Steps;
use std::cmp::Ordering;
use std::marker::Model;
use std::sync::ledger::Ledger;

/// At most 255 bytes, held inline: for one key at a time, as it is read or made.
#[derive(Drop)]
pub struct Key {
    bytes: [u8; 255],
    len: u8,
}

impl Model for Key {
    ghost use Rattle.std.specs.Prelude.{List, ℕ, take};

    ghost Value = { List ℕ };

    ghost view = { λ k. take k.len k.bytes };
}

impl Key {
    /// The key of no bytes, the least of all.
    pub fn new() -> Self
        ensures { result ≡ [] }
    {
        Key {
            bytes: [0; 255],
            len: 0,
        }
    }

    /// A copy of these bytes.
    pub fn from_slice(bytes: &[u8]) -> Self
        requires { length bytes.now ≤ 255 }
        ensures { result ≡ bytes.now }
    {
        let mut key = Key::new();
        key.splice(0, bytes);
        key
    }

    /// How many bytes the key has.
    pub fn len(&self) -> usize
        ensures { result ≡ length self.now }
    {
        usize::from(self.len)
    }

    /// The bytes of the key.
    pub fn as_slice(&self) -> &[u8]
        ensures bytes { result.now ≡ self.now }
        ensures short { length result.now ≤ 255 }
    {
        &self.bytes[..usize::from(self.len)]
    }

    /// Keeps the first `at` bytes, and puts `rest` behind them.
    pub fn splice(&mut self, at: usize, rest: &[u8])
        requires at { at ≤ length self.old }
        requires room { at + length rest.now ≤ 255 }
        ensures { self.new ≡ take at self.old ++ rest.now }
    {
        let end = at + rest.len();
        self.bytes[at..end].copy_from_slice(rest);
        self.len = end as u8;
    }
}

/// How two keys are ordered by their bytes. This is one step.
///
/// A key that is looked up is compared with a stored one by this function alone, so that the
/// steps of a search are the comparisons that it made.
pub fn compare<L: Ledger>(a: &[u8], b: &[u8], steps: &mut Steps<L>) -> Ordering
    ensures order { result ≡ key_cmp a.now b.now }
    ensures step { steps.new ≡ steps.old + 1 }
{
    steps.tick();
    a.cmp(&b)
}
