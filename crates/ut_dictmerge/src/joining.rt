//! Pieces laid end to end: the keys on one thread, the maps on another.
ghost use Rattle.std.specs.Prelude.{◌≡◌, ℕ, ◌<◌, ◌≤◌, length, IfOk, slice_index_or};
ghost use Rattle.ut_dictmerge.specs.Merge.{AreSources, IsMerge, merged};
ghost use Rattle.ut_dictmerge.specs.Cuts.{AreCuts};
ghost use Rattle.ut_dictmerge.specs.Pieces.{IsPart, AreMaps};

use crate::cut::Cut;
use crate::piece::Merged;
use std::alloc::{AllocError, Global};
use std::thread;
use std::thread::Threads;
use ut_key::KeyList;

/// The place of each key of either list.
#[derive(Drop)]
struct Maps {
    from_a: Vec<Option<u32>>,
    from_b: Vec<Option<u32>>,
}

/// Lays the pieces end to end.
pub(crate) fn join_pieces<R: Threads + Sync>(
    rt: &R,
    alloc: Global,
    a: &KeyList,
    used_a: &[bool],
    b: &KeyList,
    used_b: &[bool],
    cuts: &[Cut],
    parts: &[Result<Merged, AllocError>],
) -> Result<Merged, AllocError>
    requires lists { AreSources a.now used_a.now b.now used_b.now }
    requires some { 1 ≤ length parts.now }
    requires cuts { AreCuts a.now b.now (length parts.now) cuts.now }
    requires parts { (k : ℕ) (d : _) → k < length parts.now → IfOk (slice_index_or parts.now k d) (λ m. IsPart a.now used_a.now b.now used_b.now cuts.now k m.keys m.from_a.items m.from_b.items) }
    ensures { IfOk result (λ m. IsMerge a.now used_a.now b.now used_b.now m.keys m.from_a.items m.from_b.items) }
{
    let (keys, maps) = thread::join(
        rt,
        || join_keys(alloc, a, used_a, b, used_b, cuts, parts),
        || join_maps(alloc, a, used_a, b, used_b, cuts, parts),
    );
    with_maps(a, used_a, b, used_b, keys, maps)
}

// The keys with their maps, where there was memory for both.
fn with_maps(
    a: &KeyList,
    used_a: &[bool],
    b: &KeyList,
    used_b: &[bool],
    keys: Result<KeyList, AllocError>,
    maps: Result<Maps, AllocError>,
) -> Result<Merged, AllocError>
    requires lists { AreSources a.now used_a.now b.now used_b.now }
    requires keys { IfOk keys (λ l. l ≡ merged a.now used_a.now b.now used_b.now) }
    requires maps { IfOk maps (λ m. AreMaps a.now used_a.now b.now used_b.now (merged a.now used_a.now b.now used_b.now) m.from_a.items m.from_b.items) }
    ensures { IfOk result (λ m. IsMerge a.now used_a.now b.now used_b.now m.keys m.from_a.items m.from_b.items) }
{
    let keys = keys?;
    let Maps { from_a, from_b } = maps?;
    Ok(Merged {
        keys,
        from_a,
        from_b,
    })
}

// The keys of all pieces.
fn join_keys(
    alloc: Global,
    a: &KeyList,
    used_a: &[bool],
    b: &KeyList,
    used_b: &[bool],
    cuts: &[Cut],
    parts: &[Result<Merged, AllocError>],
) -> Result<KeyList, AllocError>
    requires lists { AreSources a.now used_a.now b.now used_b.now }
    requires some { 1 ≤ length parts.now }
    requires cuts { AreCuts a.now b.now (length parts.now) cuts.now }
    requires parts { (k : ℕ) (d : _) → k < length parts.now → IfOk (slice_index_or parts.now k d) (λ m. IsPart a.now used_a.now b.now used_b.now cuts.now k m.keys m.from_a.items m.from_b.items) }
    ensures { IfOk result (λ keys. keys ≡ merged a.now used_a.now b.now used_b.now) }
{
    let (count, bytes) = sizes(parts);
    let mut keys = KeyList::with_capacity(alloc, count, bytes)?;
    for part in parts {
        match part {
            Ok(part) => keys = keys.followed_by(&part.keys)?,
            Err(failed) => return Err(*failed),
        }
    }
    Ok(keys)
}

// The maps of all pieces.
fn join_maps(
    alloc: Global,
    a: &KeyList,
    used_a: &[bool],
    b: &KeyList,
    used_b: &[bool],
    cuts: &[Cut],
    parts: &[Result<Merged, AllocError>],
) -> Result<Maps, AllocError>
    requires lists { AreSources a.now used_a.now b.now used_b.now }
    requires some { 1 ≤ length parts.now }
    requires cuts { AreCuts a.now b.now (length parts.now) cuts.now }
    requires parts { (k : ℕ) (d : _) → k < length parts.now → IfOk (slice_index_or parts.now k d) (λ m. IsPart a.now used_a.now b.now used_b.now cuts.now k m.keys m.from_a.items m.from_b.items) }
    ensures { IfOk result (λ m. AreMaps a.now used_a.now b.now used_b.now (merged a.now used_a.now b.now used_b.now) m.from_a.items m.from_b.items) }
{
    let mut from_a = Vec::with_capacity(alloc, a.len())?;
    let mut from_b = Vec::with_capacity(alloc, b.len())?;
    for part in parts {
        match part {
            Ok(part) => {
                from_a.extend_from_slice(part.from_a.as_slice())?;
                from_b.extend_from_slice(part.from_b.as_slice())?;
            }
            Err(failed) => return Err(*failed),
        }
    }
    Ok(Maps { from_a, from_b })
}

// How many keys the pieces have together, and how many bytes these have.
fn sizes(parts: &[Result<Merged, AllocError>]) -> (usize, usize) {
    let mut count: usize = 0;
    let mut bytes: usize = 0;
    for part in parts {
        if let Ok(part) = part {
            count = count.saturating_add(part.keys.len());
            bytes = bytes.saturating_add(part.keys.byte_len());
        }
    }
    (count, bytes)
}
