//! A dictionary of ascending keys.
ghost use Rattle.std.specs.Prelude.{◌≡◌, ◌≢◌, ℕ, List, [], ◌+◌, ◌/◌, ◌^◌, ◌<◌, ◌≤◌, ◌++◌, ◌↔◌, length, slice_get, slice_index_or, Contains, IsNone, IfOk, IfSome, IfNone, OnOk, OnErr, take};
ghost use Rattle.std.specs.Int.{to_le_bytes, w32};
ghost use Rattle.ut_key.specs.Keys.{IsAscending};
ghost use Rattle.ut_prefix.specs.Spelling.{dict_bytes, IsDictionary, Spells, SpellsNone};
ghost use Rattle.ut_prefix.specs.Reading.{keys_of, AreBlocks};
ghost use Rattle.ut_prefix.specs.Totals.{weighed, IsWithin};
ghost use Rattle.ut_prefix.specs.Lookup.{count_below, search_steps, IsSplit};

use crate::block::{BLOCK, block_of, key_in_block, push_block};
use crate::number::total_of;
use crate::parse::read_blocks;
use crate::search::search;
use crate::weigh::{all_above, usual_of};
use crate::write::write_block;
use std::alloc::{AllocError, Global};
use std::marker::Model;
use std::sync::ledger::Ledger;
use ut_key::{Key, KeyList, Steps};

/// Ascending keys in blocks of 16, each key behind its block's first coded by the bytes that it
/// shares with the one before it. The code of a key is its place.
#[derive(Drop)]
pub struct PrefixDict {
    bytes: Vec<u8>,
    starts: Vec<usize>,
    len: u32,
    total: i128,
}

impl Model for PrefixDict {
    ghost use Rattle.std.specs.Prelude.{List, ℕ};
    ghost use Rattle.ut_prefix.specs.Reading.{keys_of, IsKept};

    ghost Value = { List (List ℕ) };

    ghost view = { λ d. keys_of d.starts.items d.len d.bytes.items };

    ghost invariant = { λ d. IsKept d.starts.items d.len d.bytes.items d.total };
}

/// Where a key stands among ascending keys: those before `below` are below it, those from `above`
/// on are above it.
#[derive(Clone, Copy)]
pub(crate) struct Split {
    pub below: u32,
    pub above: u32,
}

/// The number that the first four bytes spell, where it may be one of keys.
fn read_count(bytes: &[u8]) -> Option<u32>
    ensures some { IfSome result (λ n.
        (4 ≤ length bytes.now) × (n < 2 ^ 31) × (take 4 bytes.now ≡ to_le_bytes w32 n)) }
    ensures none { IfNone result (
        (n : ℕ) (rest : List ℕ) → n < 2 ^ 31 → bytes.now ≢ to_le_bytes w32 n ++ rest) }
{
    if bytes.len() < 4 {
        return None;
    }
    let count = u32::from_le_bytes([bytes[0], bytes[1], bytes[2], bytes[3]]);
    if count < 1 << 31 { Some(count) } else { None }
}

/// Adds the keys of all blocks. At a refusal some may have been added.
fn push_blocks(
    bytes: &[u8],
    starts: &[usize],
    len: u32,
    keys: &mut KeyList,
) -> Result<(), AllocError>
    requires count { length starts.now ≡ (len + 15) / 16 }
    requires blocks { AreBlocks starts.now len bytes.now }
    ensures { OnOk result (keys.new ≡ keys.old ++ keys_of starts.now len bytes.now) }
{
    let mut left = len;
    for start in starts {
        let count = left.min(BLOCK);
        push_block(&bytes[*start..], count, keys)?;
        left -= count;
    }
    Ok(())
}

impl PrefixDict {
    /// The dictionary of ascending keys.
    pub fn from_sorted(alloc: Global, keys: &KeyList) -> Result<Self, AllocError>
        requires ascending { IsAscending keys.now }
        requires few { length keys.now < 2 ^ 31 }
        ensures { IfOk result (λ dict. dict ≡ keys.now) }
    {
        let len = keys.len();
        let total = total_of(keys);
        let blocks = (len + 15) / 16;
        let mut bytes = Vec::new(alloc);
        let mut starts = Vec::with_capacity(alloc, blocks)?;
        for i in 0..blocks {
            starts.push(bytes.as_slice().len())?;
            write_block(keys, 16 * i, (16 * i + 16).min(len), &mut bytes)?;
        }
        Ok(PrefixDict {
            bytes,
            starts,
            len: len as u32,
            total,
        })
    }

    /// How many keys there are.
    pub fn len(&self) -> u32
        ensures len { result ≡ length self.now }
        ensures dictionary { IsDictionary self.now }
    {
        self.len
    }

    /// The key of a code. This is one step.
    pub fn get<L: Ledger>(&self, code: u32, steps: &mut Steps<L>) -> Key
        requires { code < length self.now }
        ensures key { result ≡ slice_index_or self.now code [] }
        ensures step { steps.new ≡ steps.old + 1 }
    {
        steps.tick();
        let block = block_of(
            self.bytes.as_slice(),
            self.starts.as_slice(),
            (code / BLOCK) as usize,
        );
        key_in_block(block, code % BLOCK)
    }

    /// All keys, by one walk over the blocks.
    pub fn keys(&self, alloc: Global) -> Result<KeyList, AllocError>
        ensures { IfOk result (λ keys. keys ≡ self.now) }
    {
        let bytes = self.bytes.as_slice();
        let mut keys = KeyList::with_capacity(alloc, self.len as usize, bytes.len())?;
        push_blocks(bytes, self.starts.as_slice(), self.len, &mut keys)?;
        Ok(keys)
    }

    /// The sum of the numbers of the first keys, each times its weight.
    pub(crate) fn weighed_total(&self, weights: &[u32]) -> i128
        requires { length weights.now ≤ length self.now }
        ensures sum { result ≡ weighed weights.now self.now }
        ensures within { IsWithin 79228162514264337593543950336 (length self.now) result }
    {
        let usual = usual_of(weights, self.len);
        let above = all_above(
            self.bytes.as_slice(),
            self.starts.as_slice(),
            self.len,
            weights,
            usual,
        );
        i128::from(usual) * self.total + above
    }

    /// Where a key stands.
    pub(crate) fn split<L: Ledger>(&self, key: &[u8], steps: &mut Steps<L>) -> Split
        ensures split { IsSplit self.now key.now result.below result.above }
        ensures cost { steps.new ≤ steps.old + search_steps self.now }
    {
        let (place, is_found) = search(
            self.bytes.as_slice(),
            self.starts.as_slice(),
            self.len,
            key,
            steps,
        );
        Split {
            below: place,
            above: place + u32::from(is_found),
        }
    }

    /// How many keys are below `key`.
    pub fn lower<L: Ledger>(&self, key: &[u8], steps: &mut Steps<L>) -> u32
        ensures count { result ≡ count_below self.now key.now }
        ensures cost { steps.new ≤ steps.old + search_steps self.now }
    {
        self.split(key, steps).below
    }

    /// The code of `key`, where the dictionary holds it.
    pub fn find<L: Ledger>(&self, key: &[u8], steps: &mut Steps<L>) -> Option<u32>
        ensures found { IfSome result (λ code. slice_get self.now code ≡ Some key.now) }
        ensures absent { IsNone result ↔ ¬ Contains self.now key.now }
        ensures cost { steps.new ≤ steps.old + search_steps self.now }
    {
        let split = self.split(key, steps);
        if split.below < split.above {
            Some(split.below)
        } else {
            None
        }
    }

    /// Appends the number of keys and the blocks.
    pub fn bytes_of(&self, out: &mut Vec<u8>) -> Result<(), AllocError>
        ensures ok { OnOk result (out.new.items ≡ out.old.items ++ dict_bytes self.now) }
        ensures err { OnErr result (out.new.items ≡ out.old.items) }
    {
        let start = out.len();
        out.extend_from_slice(&self.len.to_le_bytes())?;
        match out.extend_from_slice(self.bytes.as_slice()) {
            Ok(()) => Ok(()),
            Err(failed) => {
                out.truncate(start);
                Err(failed)
            }
        }
    }

    /// The dictionary whose bytes begin these, and how many they are. Other bytes than `bytes_of`
    /// gives are refused: a key out of order or there twice, or that shares more with the one
    /// before it than it says.
    pub fn from_bytes(
        alloc: Global,
        bytes: &[u8],
    ) -> Result<Option<(PrefixDict, usize)>, AllocError>
        ensures some { IfOk result (λ found. IfSome found (λ r. Spells bytes.now r.0 r.1)) }
        ensures none { IfOk result (λ found. IfNone found (SpellsNone bytes.now)) }
    {
        let len = match read_count(bytes) {
            Some(len) => len,
            None => return Ok(None),
        };
        let body = &bytes[4..];
        match read_blocks(alloc, body, len)? {
            Some(blocks) => {
                let own = Vec::from_slice(alloc, &body[..blocks.size])?;
                let size = 4 + blocks.size;
                let dict = PrefixDict {
                    bytes: own,
                    starts: blocks.starts,
                    len,
                    total: blocks.total,
                };
                Ok(Some((dict, size)))
            }
            None => Ok(None),
        }
    }
}
