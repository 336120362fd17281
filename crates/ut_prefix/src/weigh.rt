//! Sums of the numbers of keys, each times its weight.
//!
//! Most weights are the usual one. That times the sum of all numbers, which is at hand, is the sum
//! but for what other weights are above it, and only blocks that have such are read.
ghost use Rattle.std.specs.Prelude.{◌≡◌, ◌≢◌, ◌+◌, ◌/◌, ◌<◌, ◌≤◌, ◌^◌, pos, ◌-ℤ◌, ◌*ℤ◌, length, All, IsTrue, false};
ghost use Rattle.ut_prefix.specs.Reading.{block_keys, keys_of, AreBlocks, IsBlock};
ghost use Rattle.ut_prefix.specs.Totals.{key_number, weighed_above, IsWithin};

use crate::block::{BLOCK, block_of, first_of, read_next};
use crate::number::number_of;
use ut_key::Key;

/// The weight of most keys: that of the first, or 0 where there are fewer weights than keys.
pub(crate) fn usual_of(weights: &[u32], len: u32) -> u32
    requires { length weights.now ≤ len }
    ensures { result ≢ 0 → length weights.now ≡ len }
{
    if weights.len() < len as usize || weights.is_empty() {
        return 0;
    }
    weights[0]
}

/// Whether all weights are the usual one. No weight ends the look, so that many are compared at once.
fn are_usual(weights: &[u32], usual: u32) -> bool
    ensures usual { IsTrue result → All (λ weight. weight ≡ usual) weights.now }
    ensures other { result ≡ false → 0 < length weights.now }
{
    let mut are = true;
    for weight in weights {
        are &= *weight == usual;
    }
    are
}

/// The number of a key times what its weight is above the usual one.
#[inline(always)]
fn above(weight: u32, usual: u32, key: &[u8]) -> i128
    ensures value { result ≡ (pos weight -ℤ pos usual) *ℤ key_number key.now }
    ensures within { IsWithin 39614081257132168796771975168 1 result }
{
    let more = i64::from(weight) - i64::from(usual);
    i128::from(more) * i128::from(number_of(key))
}

/// The sum over the first keys of a block, one a weight, which are read.
fn read_above(block: &[u8], weights: &[u32], usual: u32) -> i128
    requires some { 0 < length weights.now }
    requires few { length weights.now ≤ 16 }
    requires block { IsBlock (length weights.now) block.now }
    ensures sum { result ≡ weighed_above usual weights.now (block_keys (length weights.now) block.now) }
    ensures within { IsWithin 39614081257132168796771975168 (length weights.now) result }
{
    let (first, mut rest) = first_of(block);
    let mut key = Key::from_slice(first);
    let mut sum = above(weights[0], usual, key.as_slice());
    for i in 1..weights.len() {
        rest = read_next(&mut key, rest);
        sum += above(weights[i], usual, key.as_slice());
    }
    sum
}

/// The sum over the first keys of a block, one a weight. Where all weights are the usual one the
/// block isn't read.
#[inline(always)]
fn block_above(block: &[u8], weights: &[u32], usual: u32) -> i128
    requires few { length weights.now ≤ 16 }
    requires block { IsBlock (length weights.now) block.now }
    ensures sum { result ≡ weighed_above usual weights.now (block_keys (length weights.now) block.now) }
    ensures within { IsWithin 39614081257132168796771975168 (length weights.now) result }
{
    if are_usual(weights, usual) {
        return 0;
    }
    read_above(block, weights, usual)
}

/// The sum over the first keys of all blocks, one a weight.
pub(crate) fn all_above(
    bytes: &[u8],
    starts: &[usize],
    len: u32,
    weights: &[u32],
    usual: u32,
) -> i128
    requires few { len < 2 ^ 31 }
    requires count { length starts.now ≡ (len + 15) / 16 }
    requires blocks { AreBlocks starts.now len bytes.now }
    requires weights { length weights.now ≤ len }
    ensures sum { result ≡ weighed_above usual weights.now (keys_of starts.now len bytes.now) }
    ensures within { IsWithin 39614081257132168796771975168 (length weights.now) result }
{
    let mut sum: i128 = 0;
    let mut left = weights;
    for i in 0..starts.len() {
        let block = block_of(bytes, starts, i);
        let (own, later) = left.split_at((BLOCK as usize).min(left.len()));
        sum += block_above(block, own, usual);
        left = later;
    }
    sum
}
