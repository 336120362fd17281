//! One piece of a merge: the keys between two cuts, counted and written in one walk each.
ghost use Rattle.std.specs.Prelude.{◌≡◌, ◌+◌, ◌-◌, ◌^◌, ◌<◌, ◌≤◌, ◌++◌, ◌∷◌, ◌⊎◌, [], ℕ, List, length, IfOk, OnOk};
ghost use Rattle.ut_dictmerge.specs.Merge.{AreSources};
ghost use Rattle.ut_dictmerge.specs.Pieces.{AreBorders, IsPiece, IsNext, between, kept, entry_of};

use crate::cut::Cut;
use std::alloc::{AllocError, Global};
use std::cmp::Ordering;
use ut_key::{KeyList, compare_at};

/// The used keys of two lists, or of a piece of them, and the place of each key of either list.
#[derive(Drop)]
pub struct Merged {
    pub keys: KeyList,
    pub from_a: Vec<Option<u32>>,
    pub from_b: Vec<Option<u32>>,
}

/// How many different used keys stand between two cuts.
pub fn count_piece(
    a: &KeyList,
    used_a: &[bool],
    b: &KeyList,
    used_b: &[bool],
    from: &Cut,
    to: &Cut,
) -> u32
    requires lists { AreSources a.now used_a.now b.now used_b.now }
    requires room { length a.now + length b.now < 2 ^ 32 }
    requires borders { AreBorders a.now b.now from.now to.now }
    ensures { result ≡ length (between a.now used_a.now b.now used_b.now from.now to.now) }
{
    let to_a = to.a as usize;
    let to_b = to.b as usize;
    let mut count = 0;
    let mut i = from.a as usize;
    let mut j = from.b as usize;
    while i < to_a || j < to_b {
        match next_of(a, i, to_a, b, j, to_b) {
            Ordering::Less => {
                count += count_of(used_a[i]);
                i += 1;
            }
            Ordering::Greater => {
                count += count_of(used_b[j]);
                j += 1;
            }
            Ordering::Equal => {
                count += count_of(used_a[i] | used_b[j]);
                i += 1;
                j += 1;
            }
        }
    }
    count
}

/// Merges the used keys between two cuts. The first of them has the place `base`.
pub(crate) fn write_piece(
    alloc: Global,
    a: &KeyList,
    used_a: &[bool],
    b: &KeyList,
    used_b: &[bool],
    from: Cut,
    to: Cut,
    base: u32,
) -> Result<Merged, AllocError>
    requires lists { AreSources a.now used_a.now b.now used_b.now }
    requires borders { AreBorders a.now b.now from to }
    requires room { base + (to.a - from.a) + (to.b - from.b) < 2 ^ 32 }
    ensures { IfOk result (λ m. IsPiece a.now used_a.now b.now used_b.now from to base m.keys m.from_a.items m.from_b.items) }
{
    let to_a = to.a as usize;
    let to_b = to.b as usize;
    let mut i = from.a as usize;
    let mut j = from.b as usize;
    let mut keys = KeyList::with_capacity(alloc, to_a - i + (to_b - j), 0)?;
    let mut from_a = Vec::with_capacity(alloc, to_a - i)?;
    let mut from_b = Vec::with_capacity(alloc, to_b - j)?;
    while i < to_a || j < to_b {
        let place = base + keys.len() as u32;
        match next_of(a, i, to_a, b, j, to_b) {
            Ordering::Less => {
                let used = used_a[i];
                add(&mut from_a, used, place)?;
                keep(&mut keys, used, a.key(i))?;
                i += 1;
            }
            Ordering::Greater => {
                let used = used_b[j];
                add(&mut from_b, used, place)?;
                keep(&mut keys, used, b.key(j))?;
                j += 1;
            }
            Ordering::Equal => {
                let first = used_a[i];
                let second = used_b[j];
                add(&mut from_a, first, place)?;
                add(&mut from_b, second, place)?;
                keep(&mut keys, first | second, a.key(i))?;
                i += 1;
                j += 1;
            }
        }
    }
    Ok(Merged {
        keys,
        from_a,
        from_b,
    })
}

// Which list has the next key: `Less` the first, `Greater` the second, `Equal` both.
fn next_of(a: &KeyList, i: usize, to_a: usize, b: &KeyList, j: usize, to_b: usize) -> Ordering
    requires some { (i < to_a) ⊎ (j < to_b) }
    requires within_a { to_a ≤ length a.now }
    requires within_b { to_b ≤ length b.now }
    ensures { IsNext result a.now i to_a b.now j to_b }
{
    if j >= to_b {
        return Ordering::Less;
    }
    if i >= to_a {
        return Ordering::Greater;
    }
    compare_at(a, i, b, j)
}

// One where a key is used.
fn count_of(used: bool) -> u32
    ensures count { (key : List ℕ) → result ≡ length (kept used key) }
    ensures small { result ≤ 1 }
{
    if used { 1 } else { 0 }
}

// Adds a key, if it is used.
fn keep(keys: &mut KeyList, used: bool, key: &[u8]) -> Result<(), AllocError>
    requires { length key.now ≤ 255 }
    ensures { OnOk result (keys.new ≡ keys.old ++ kept used key.now) }
{
    if used {
        return keys.push(key);
    }
    Ok(())
}

// Adds the place of a key, if it is used.
fn add(map: &mut Vec<Option<u32>>, used: bool, place: u32) -> Result<(), AllocError>
    ensures { OnOk result (map.new.items ≡ map.old.items ++ entry_of used place ∷ []) }
{
    let entry = if used { Some(place) } else { None };
    map.push(entry)?;
    Ok(())
}
