//! A list of keys as an arena: all their bytes behind one another, and the place behind each key.
ghost use Rattle.std.specs.Prelude.{◌≡◌, ◌+◌, ◌<◌, ◌≤◌, ◌++◌, ◌∷◌, [], length, slice_index_or, IfOk, IsTrue, OnOk, OnErr, ◌↔◌, sum_by};
ghost use Rattle.ut_key.specs.Arena.{AreEnds, keys_from, start_at};
ghost use Rattle.ut_key.specs.Keys.{AreShort, IsAscending, key_cmp};

use std::alloc::{AllocError, Global};
use std::cmp::Ordering;
use std::marker::Model;

/// Keys of at most 255 bytes each, at 8 bytes a key beside its own.
#[derive(Drop)]
pub struct KeyList {
    bytes: Vec<u8>,
    ends: Vec<usize>,
}

impl Model for KeyList {
    ghost use Rattle.std.specs.Prelude.{List, ℕ, length};
    ghost use Rattle.ut_key.specs.Arena.{keys_from, AreEnds};

    ghost Value = { List (List ℕ) };

    ghost view = { λ k. keys_from 0 k.ends.items k.bytes.items };

    ghost invariant = { λ k. AreEnds 0 k.ends.items (length k.bytes.items) };
}

// Where key `i` begins.
fn start_of(ends: &[usize], i: usize) -> usize
    requires { i < length ends.now }
    ensures { result ≡ start_at 0 ends.now i }
{
    if i == 0 { 0 } else { ends[i - 1] }
}

// The bytes of key `i`.
fn part<'a>(bytes: &'a [u8], ends: &[usize], i: usize) -> &'a [u8]
    requires index { i < length ends.now }
    requires ends { AreEnds 0 ends.now (length bytes.now) }
    ensures key { result.now ≡ slice_index_or (keys_from 0 ends.now bytes.now) i [] }
    ensures short { length result.now ≤ 255 }
{
    let start = start_of(ends, i);
    let end = ends[i];
    &bytes[start..end]
}

impl KeyList {
    /// The list of no keys.
    pub fn new(alloc: Global) -> Self
        ensures { result ≡ [] }
    {
        KeyList {
            bytes: Vec::new(alloc),
            ends: Vec::new(alloc),
        }
    }

    /// The list of no keys, with room for `keys` keys of `bytes` bytes together.
    pub fn with_capacity(alloc: Global, keys: usize, bytes: usize) -> Result<Self, AllocError>
        ensures { IfOk result (λ list. list ≡ []) }
    {
        Ok(KeyList {
            bytes: Vec::with_capacity(alloc, bytes)?,
            ends: Vec::with_capacity(alloc, keys)?,
        })
    }

    /// How many keys there are.
    pub fn len(&self) -> usize
        ensures len { result ≡ length self.now }
        ensures short { AreShort self.now }
    {
        self.ends.as_slice().len()
    }

    /// How many bytes the keys have together.
    pub fn byte_len(&self) -> usize
        ensures { result ≡ sum_by (λ key. length key) self.now }
    {
        self.bytes.as_slice().len()
    }

    /// The bytes of key `i`.
    pub fn key(&self, i: usize) -> &[u8]
        requires { i < length self.now }
        ensures key { result.now ≡ slice_index_or self.now i [] }
        ensures short { length result.now ≤ 255 }
    {
        part(self.bytes.as_slice(), self.ends.as_slice(), i)
    }

    /// Adds a key at the end.
    pub fn push(&mut self, key: &[u8]) -> Result<(), AllocError>
        requires { length key.now ≤ 255 }
        ensures ok { OnOk result (self.new ≡ self.old ++ key.now ∷ []) }
        ensures err { OnErr result (self.new ≡ self.old) }
    {
        let start = self.bytes.len();
        self.bytes.extend_from_slice(key)?;
        match self.ends.push(self.bytes.as_slice().len()) {
            Ok(()) => Ok(()),
            Err(failed) => {
                self.bytes.truncate(start);
                Err(failed.into())
            }
        }
    }

    /// These keys and the others behind them.
    pub fn followed_by(self, other: &KeyList) -> Result<KeyList, AllocError>
        ensures { IfOk result (λ keys. keys ≡ self ++ other.now) }
    {
        let KeyList {
            mut bytes,
            mut ends,
        } = self;
        let shift = bytes.as_slice().len();
        bytes.extend_from_slice(other.bytes.as_slice())?;
        let others = other.ends.as_slice();
        ends.reserve(others.len())?;
        for end in others {
            ends.push(shift + *end)?;
        }
        Ok(KeyList { bytes, ends })
    }
}

/// How key `i` of `a` stands to key `j` of `b`.
pub fn compare_at(a: &KeyList, i: usize, b: &KeyList, j: usize) -> Ordering
    requires first { i < length a.now }
    requires second { j < length b.now }
    ensures { result ≡ key_cmp (slice_index_or a.now i []) (slice_index_or b.now j []) }
{
    a.key(i).cmp(&b.key(j))
}

/// Whether each key is below those behind it.
pub fn is_ascending(keys: &KeyList) -> bool
    ensures { IsTrue result ↔ IsAscending keys.now }
{
    for i in 1..keys.len() {
        match compare_at(keys, i - 1, keys, i) {
            Ordering::Less => {}
            Ordering::Equal | Ordering::Greater => return false,
        }
    }
    true
}
