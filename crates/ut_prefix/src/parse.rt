//! Reading a dictionary's blocks back, and refusing any that `write` would not have written.
ghost use Rattle.std.specs.Prelude.{◌≡◌, ◌≢◌, ℕ, List, [], ◌∷◌, ◌+◌, ◌%◌, ◌↔◌, ◌++◌, length, nat_eq, if◌then◌else◌, IsTrue, IfOk, IfSome, IfNone, OnOk};
ghost use Rattle.std.specs.declared.cmp.Ordering.TheVariants.{Less};
ghost use Rattle.ut_key.specs.Keys.{key_cmp};
ghost use Rattle.ut_prefix.specs.Spelling.{IsDictionary};
ghost use Rattle.ut_prefix.specs.Reading.{entries, CanFollow, IsEntry, IsNoEntry, IsRead};

use crate::block::BLOCK;
use crate::number::number_of;
use std::alloc::{AllocError, Global};
use ut_key::Key;

/// Where blocks start, how many bytes they take, and the sum of their keys' numbers.
#[derive(Drop)]
pub(crate) struct Blocks {
    pub starts: Vec<usize>,
    pub size: usize,
    pub total: i128,
}

/// Whether a key may be the first of a block that begins at place `i`.
fn may_begin(i: u32, before: &[u8], key: &[u8]) -> bool
    ensures { IsTrue result ↔ (i ≢ 0 → key_cmp before.now key.now ≡ Less) }
{
    i == 0 || before.cmp(&key).is_lt()
}

/// Reads the first key of a block that begins at place `i`, and gives the bytes behind it.
fn read_first<'a>(i: u32, key: &mut Key, bytes: &'a [u8]) -> Option<&'a [u8]>
    requires { i % 16 ≡ 0 }
    ensures some { IfSome result (λ rest. IsEntry i key.old key.new bytes.now rest.now) }
    ensures none { IfNone result (IsNoEntry i key.old bytes.now) }
{
    if bytes.is_empty() {
        return None;
    }
    let end = 1 + usize::from(bytes[0]);
    if bytes.len() < end {
        return None;
    }
    let own = &bytes[1..end];
    if !may_begin(i, key.as_slice(), own) {
        return None;
    }
    key.splice(0, own);
    Some(&bytes[end..])
}

/// Whether the first `shared` bytes of a key and `rest` are a key above it, and all that it shares.
fn may_follow(before: &[u8], shared: usize, rest: &[u8]) -> bool
    ensures { IsTrue result ↔ CanFollow before.now shared rest.now }
{
    if rest.is_empty() || before.len() < shared || 255 < shared + rest.len() {
        return false;
    }
    shared == before.len() || before[shared] < rest[0]
}

/// Reads the key behind another in a block, and gives the bytes behind it.
fn read_next<'a>(i: u32, key: &mut Key, bytes: &'a [u8]) -> Option<&'a [u8]>
    requires { i % 16 ≢ 0 }
    ensures some { IfSome result (λ rest. IsEntry i key.old key.new bytes.now rest.now) }
    ensures none { IfNone result (IsNoEntry i key.old bytes.now) }
{
    if bytes.len() < 2 {
        return None;
    }
    let shared = usize::from(bytes[0]);
    let end = 2 + usize::from(bytes[1]);
    if bytes.len() < end {
        return None;
    }
    let own = &bytes[2..end];
    if !may_follow(key.as_slice(), shared, own) {
        return None;
    }
    key.splice(shared, own);
    Some(&bytes[end..])
}

/// Reads key `i` of all, and gives the bytes behind it.
fn read_key<'a>(i: u32, key: &mut Key, bytes: &'a [u8]) -> Option<&'a [u8]>
    ensures some { IfSome result (λ rest. IsEntry i key.old key.new bytes.now rest.now) }
    ensures none { IfNone result (IsNoEntry i key.old bytes.now) }
{
    if i % BLOCK == 0 {
        read_first(i, key, bytes)
    } else {
        read_next(i, key, bytes)
    }
}

/// Notes a start where key `i` begins a block.
fn note_start(starts: &mut Vec<usize>, i: u32, at: usize) -> Result<(), AllocError>
    ensures { OnOk result (
        starts.new.items
        ≡ (if nat_eq (i % 16) 0 then starts.old.items ++ at ∷ [] else starts.old.items)) }
{
    if i % BLOCK == 0 {
        starts.push(at)?;
    }
    Ok(())
}

/// Reads the blocks of `len` keys that begin the bytes. Room is made for the blocks that are
/// there, whatever `len` says.
pub(crate) fn read_blocks(
    alloc: Global,
    bytes: &[u8],
    len: u32,
) -> Result<Option<Blocks>, AllocError>
    ensures some { IfOk result (λ found. IfSome found (λ blocks.
        (keys : List (List ℕ)) × IsRead len bytes.now blocks.starts.items blocks.size blocks.total keys)) }
    ensures none { IfOk result (λ found. IfNone found (
        (keys : List (List ℕ)) (rest : List ℕ)
        → IsDictionary keys → length keys ≡ len → bytes.now ≢ entries 0 [] keys ++ rest)) }
{
    let mut starts = Vec::new(alloc);
    let mut key = Key::new();
    let mut rest = bytes;
    let mut total: i128 = 0;
    for i in 0..len {
        note_start(&mut starts, i, bytes.len() - rest.len())?;
        match read_key(i, &mut key, rest) {
            Some(later) => rest = later,
            None => return Ok(None),
        }
        total += i128::from(number_of(key.as_slice()));
    }
    let size = bytes.len() - rest.len();
    Ok(Some(Blocks {
        starts,
        size,
        total,
    }))
}
