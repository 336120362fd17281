//! An own dictionary, put together one dictionary after the other.
ghost use Rattle.std.specs.Prelude.{◌≡◌, ◌+◌, ◌^◌, ◌<◌, ◌≤◌, true, length, map, replicate, IfOk};
ghost use Rattle.ut_dictmerge.specs.Merge.{IsMerge};
ghost use Rattle.ut_key.specs.Keys.{IsAscending};
ghost use Rattle.ut_merge.specs.Uniting.{led, AddsDict};

use std::alloc::{AllocError, Global};
use std::thread::Threads;
use ut_dictmerge::{Merged, merge};
use ut_key::KeyList;

/// Keys, and where those of parts' dictionaries and of the closed stage stand among them.
#[derive(Drop)]
pub(crate) struct United {
    pub keys: KeyList,
    pub parts: Vec<Option<u32>>,
    pub closed: Vec<Option<u32>>,
}

/// Where a map leads from a place.
fn led(to: &[Option<u32>], place: Option<u32>) -> Option<u32>
    ensures { result ≡ led to.now place }
{
    match place {
        Some(p) => match to.get(p as usize) {
            Some(entry) => *entry,
            None => None,
        },
        None => None,
    }
}

/// Replaces each place by the one that a map leads to.
fn lead(places: &mut Vec<Option<u32>>, to: &[Option<u32>])
    ensures { places.new.items ≡ map (led to.now) places.old.items }
{
    for i in 0..places.len() {
        places[i] = led(to, places[i]);
    }
}

/// All of some keys, merged with the used keys of a dictionary.
fn merged_with<R: Threads + Sync>(
    rt: &R,
    alloc: Global,
    keys: &KeyList,
    dict: &KeyList,
    used: &[bool],
    pieces: u32,
) -> Result<Merged, AllocError>
    requires ascending { IsAscending keys.now }
    requires dict { IsAscending dict.now }
    requires flags { length used.now ≡ length dict.now }
    requires room { length keys.now + length dict.now < 2 ^ 31 }
    requires pieces { (1 ≤ pieces) × (pieces ≤ 64) }
    ensures { IfOk result (λ m.
        IsMerge keys.now (replicate (length keys.now) true) dict.now used.now m.keys m.from_a.items m.from_b.items) }
{
    let all = vec![in alloc; true; keys.len()]?;
    merge(rt, alloc, keys, all.as_slice(), dict, used, pieces)
}

/// The used keys of one dictionary more.
pub(crate) fn with_dict<R: Threads + Sync>(
    rt: &R,
    alloc: Global,
    united: United,
    dict: &KeyList,
    used: &[bool],
    pieces: u32,
) -> Result<United, AllocError>
    requires ascending { IsAscending united.keys }
    requires dict { IsAscending dict.now }
    requires flags { length used.now ≡ length dict.now }
    requires room { length united.keys + length dict.now < 2 ^ 31 }
    requires pieces { (1 ≤ pieces) × (pieces ≤ 64) }
    ensures { IfOk result (λ more. AddsDict dict.now used.now united more) }
{
    let merged = merged_with(rt, alloc, &united.keys, dict, used, pieces)?;
    let mut parts = united.parts;
    let mut closed = united.closed;
    lead(&mut parts, merged.from_a.as_slice());
    lead(&mut closed, merged.from_a.as_slice());
    parts.extend_from_slice(merged.from_b.as_slice())?;
    Ok(United {
        keys: merged.keys,
        parts,
        closed,
    })
}
