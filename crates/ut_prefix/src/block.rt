//! Reading the keys of one block.
//!
//! block: length: u8, byte[length], then for each further key
//!        shared: u8, count: u8, byte[count]
//!
//! A further key is the first `shared` bytes of the key before it, and these.
ghost use Rattle.std.specs.Prelude.{◌≡◌, ◌+◌, ◌<◌, ◌≤◌, ◌++◌, [], slice_index, slice_index_or, IsTrue, false, drop, length, take, OnOk};
ghost use Rattle.std.specs.declared.cmp.Ordering.TheVariants.{Equal, Greater};
ghost use Rattle.ut_key.specs.Keys.{key_cmp};
ghost use Rattle.ut_prefix.specs.Lookup.{AreBelow};
ghost use Rattle.ut_prefix.specs.Reading.{next_key, after_key, first_key, after_first, block_keys, CanDecode, IsBlock};

use std::alloc::AllocError;
use std::cmp::Ordering;
use std::sync::ledger::Ledger;
use ut_key::{Key, KeyList, Steps, compare};

/// How many keys a block has.
pub(crate) const BLOCK: u32 = 16;

/// The most bytes of a key.
const MOST: usize = 255;

/// How many bytes are copied at once.
const AT_ONCE: usize = 8;

/// The bytes from the start of block `i` on.
pub(crate) fn block_of<'a>(bytes: &'a [u8], starts: &[usize], i: usize) -> &'a [u8]
    requires index { i < length starts.now }
    requires start { slice_index starts.now i ≤ length bytes.now }
    ensures { result.now ≡ drop (slice_index starts.now i) bytes.now }
{
    &bytes[starts[i]..]
}

/// The first key of a block, and the bytes behind it.
#[inline(always)]
pub(crate) fn first_of(block: &[u8]) -> (&[u8], &[u8])
    requires { IsBlock 1 block.now }
    ensures key { result.0.now ≡ first_key block.now }
    ensures short { length result.0.now ≤ 255 }
    ensures rest { result.1.now ≡ after_first block.now }
{
    let end = 1 + usize::from(block[0]);
    (&block[1..end], &block[end..])
}

/// Keeps the first `shared` bytes of a key, and puts the first `count` of others behind them. Where
/// these are few, eight are copied, since that takes one move and no call, and the others dropped.
#[inline(always)]
fn put_behind(key: &mut Key, shared: usize, bytes: &[u8], count: usize)
    requires shared { shared ≤ length key.old }
    requires count { count ≤ length bytes.now }
    requires room { shared + count ≤ 255 }
    ensures { key.new ≡ take shared key.old ++ take count bytes.now }
{
    if count <= AT_ONCE && AT_ONCE <= bytes.len() && shared <= MOST - AT_ONCE {
        key.splice(shared, &bytes[..AT_ONCE]);
        key.splice(shared + count, &[]);
    } else {
        put_long(key, shared, &bytes[..count]);
    }
}

/// The same of all of `rest`, which may be long.
#[inline(never)]
pub(crate) fn put_long(key: &mut Key, shared: usize, rest: &[u8])
    requires shared { shared ≤ length key.old }
    requires room { shared + length rest.now ≤ 255 }
    ensures { key.new ≡ take shared key.old ++ rest.now }
{
    key.splice(shared, rest);
}

/// Reads the key behind `key`, and gives the bytes behind it.
#[inline(always)]
pub(crate) fn read_next<'a>(key: &mut Key, bytes: &'a [u8]) -> &'a [u8]
    requires { CanDecode 1 key.old bytes.now }
    ensures key { key.new ≡ next_key key.old bytes.now }
    ensures rest { result.now ≡ after_key bytes.now }
{
    let shared = usize::from(bytes[0]);
    let count = usize::from(bytes[1]);
    put_behind(key, shared, &bytes[2..], count);
    &bytes[2 + count..]
}

/// The key at place `i` of a block.
pub(crate) fn key_in_block(block: &[u8], i: u32) -> Key
    requires { IsBlock (i + 1) block.now }
    ensures { result ≡ slice_index_or (block_keys (i + 1) block.now) i [] }
{
    let (first, mut rest) = first_of(block);
    let mut key = Key::from_slice(first);
    for _ in 0..i {
        rest = read_next(&mut key, rest);
    }
    key
}

/// Adds the keys of a block. At a refusal some may have been added.
pub(crate) fn push_block(block: &[u8], count: u32, keys: &mut KeyList) -> Result<(), AllocError>
    requires some { 0 < count }
    requires block { IsBlock count block.now }
    ensures { OnOk result (keys.new ≡ keys.old ++ block_keys count block.now) }
{
    let (first, mut rest) = first_of(block);
    let mut key = Key::from_slice(first);
    keys.push(key.as_slice())?;
    for _ in 1..count {
        rest = read_next(&mut key, rest);
        keys.push(key.as_slice())?;
    }
    Ok(())
}

/// The place of the first key of a block that isn't below `key`, and whether it is `key`.
pub(crate) fn search_block<L: Ledger>(
    block: &[u8],
    count: u32,
    key: &[u8],
    steps: &mut Steps<L>,
) -> (u32, bool)
    requires some { 0 < count }
    requires block { IsBlock count block.now }
    ensures within { result.0 ≤ count }
    ensures below { AreBelow (block_keys count block.now) result.0 key.now }
    ensures found { IsTrue result.1 → result.0 < count }
    ensures equal { IsTrue result.1
        → key_cmp (slice_index_or (block_keys count block.now) result.0 []) key.now ≡ Equal }
    ensures above { result.1 ≡ false → result.0 < count
        → key_cmp (slice_index_or (block_keys count block.now) result.0 []) key.now ≡ Greater }
    ensures cost { steps.new ≤ steps.old + count }
{
    let (first, mut rest) = first_of(block);
    let mut current = Key::from_slice(first);
    for i in 0..count {
        match compare(current.as_slice(), key, steps) {
            Ordering::Less => {}
            Ordering::Equal => return (i, true),
            Ordering::Greater => return (i, false),
        }
        if i + 1 < count {
            rest = read_next(&mut current, rest);
        }
    }
    (count, false)
}
