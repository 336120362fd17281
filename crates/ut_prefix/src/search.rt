//! Finding the place of a key: a search in halves over the blocks' first keys, then one block.
ghost use Rattle.std.specs.Prelude.{◌≡◌, ℕ, ◌+◌, ◌-◌, ◌*◌, ◌^◌, ◌<◌, ◌≤◌, ◌≢◌, [], length, slice_index_or, IsTrue, false};
ghost use Rattle.std.specs.declared.cmp.Ordering.TheVariants.{Greater};
ghost use Rattle.ut_key.specs.Keys.{key_cmp};
ghost use Rattle.ut_prefix.specs.Lookup.{AreAbove, AreBelow};
ghost use Rattle.ut_prefix.specs.Reading.{keys_of, IsLaidOut};

use crate::block::{BLOCK, block_of, first_of, search_block};
use std::cmp::Ordering;
use std::sync::ledger::Ledger;
use ut_key::{Steps, compare};

/// How many of the first blocks begin at no key above `key`, where no other block does.
fn search_starts<L: Ledger>(
    bytes: &[u8],
    starts: &[usize],
    len: u32,
    key: &[u8],
    steps: &mut Steps<L>,
) -> usize
    requires { IsLaidOut starts.now len bytes.now }
    ensures within { result ≤ length starts.now }
    ensures before { let keys = keys_of starts.now len bytes.now in
        0 < result → key_cmp (slice_index_or keys (16 * (result - 1)) []) key.now ≢ Greater }
    ensures after { let keys = keys_of starts.now len bytes.now in
        result < length starts.now → key_cmp (slice_index_or keys (16 * result) []) key.now ≡ Greater }
    ensures cost { (digits : ℕ) → length starts.now < 2 ^ digits → steps.new ≤ steps.old + digits }
{
    let mut low = 0;
    let mut high = starts.len();
    while low < high {
        let middle = low + (high - low) / 2;
        let block = block_of(bytes, starts, middle);
        let (first, _) = first_of(block);
        match compare(first, key, steps) {
            Ordering::Greater => high = middle,
            Ordering::Less | Ordering::Equal => low = middle + 1,
        }
    }
    low
}

/// The place of the first key that isn't below `key`, and whether it is `key`.
pub(crate) fn search<L: Ledger>(
    bytes: &[u8],
    starts: &[usize],
    len: u32,
    key: &[u8],
    steps: &mut Steps<L>,
) -> (u32, bool)
    requires { IsLaidOut starts.now len bytes.now }
    ensures within { result.0 ≤ len }
    ensures below { AreBelow (keys_of starts.now len bytes.now) result.0 key.now }
    ensures found { IsTrue result.1 → result.0 < len }
    ensures equal { let keys = keys_of starts.now len bytes.now in
        IsTrue result.1 → slice_index_or keys result.0 [] ≡ key.now }
    ensures above { result.1 ≡ false → AreAbove (keys_of starts.now len bytes.now) result.0 len key.now }
    ensures cost { (digits : ℕ) → length starts.now < 2 ^ digits → steps.new ≤ steps.old + digits + 16 }
{
    let blocks = search_starts(bytes, starts, len, key, steps);
    if blocks == 0 {
        return (0, false);
    }
    let place = (blocks - 1) as u32 * BLOCK;
    let count = (len - place).min(BLOCK);
    let block = block_of(bytes, starts, blocks - 1);
    let (i, found) = search_block(block, count, key, steps);
    (place + i, found)
}
