//! The pieces of a merge: where the keys of each begin, by their counts, and one of them written.
ghost use Rattle.std.specs.Prelude.{◌≡◌, ℕ, ◌+◌, ◌^◌, ◌<◌, ◌≤◌, length, IfOk, slice_index, take};
ghost use Rattle.ut_dictmerge.specs.Merge.{AreSources, IsMerge};
ghost use Rattle.ut_dictmerge.specs.Cuts.{AreCuts, cut_at};
ghost use Rattle.ut_dictmerge.specs.Pieces.{IsPart, between, front, total};

use crate::cut::Cut;
use crate::piece::{Merged, count_piece, write_piece};
use std::alloc::{AllocError, Global};
use std::thread;
use std::thread::Threads;
use ut_key::KeyList;

/// The place of the first key of each piece.
pub(crate) fn bases_of<R: Threads + Sync>(
    rt: &R,
    alloc: Global,
    a: &KeyList,
    used_a: &[bool],
    b: &KeyList,
    used_b: &[bool],
    cuts: &[Cut],
    pieces: usize,
) -> Result<Vec<u32>, AllocError>
    requires lists { AreSources a.now used_a.now b.now used_b.now }
    requires room { length a.now + length b.now < 2 ^ 31 }
    requires pieces { 1 ≤ pieces }
    requires cuts { AreCuts a.now b.now pieces cuts.now }
    ensures count { IfOk result (λ v. length v.items ≡ pieces) }
    ensures bases { IfOk result (λ v. (i : ℕ) → i < pieces → slice_index v.items i ≡ length (front a.now used_a.now b.now used_b.now (cut_at cuts.now i))) }
{
    let counts = thread::map_indices(
        rt,
        alloc,
        pieces,
        &|k: usize| { count_at(a, used_a, b, used_b, cuts, pieces, k) },
    )?;
    sums(alloc, counts.as_slice())
}

// How many used keys the piece behind cut `k` has.
fn count_at(
    a: &KeyList,
    used_a: &[bool],
    b: &KeyList,
    used_b: &[bool],
    cuts: &[Cut],
    pieces: usize,
    k: usize,
) -> u32
    requires lists { AreSources a.now used_a.now b.now used_b.now }
    requires room { length a.now + length b.now < 2 ^ 31 }
    requires pieces { 1 ≤ pieces }
    requires cuts { AreCuts a.now b.now pieces cuts.now }
    requires within { k < pieces }
    ensures { result ≡ length (between a.now used_a.now b.now used_b.now (cut_at cuts.now k) (cut_at cuts.now (k + 1))) }
{
    count_piece(a, used_a, b, used_b, &cuts[k], &cuts[k + 1])
}

// The sum of the counts before each.
fn sums(alloc: Global, counts: &[u32]) -> Result<Vec<u32>, AllocError>
    requires { total counts.now < 2 ^ 32 }
    ensures len { IfOk result (λ v. length v.items ≡ length counts.now) }
    ensures sums { IfOk result (λ v. (k : ℕ) → k < length counts.now → slice_index v.items k ≡ total (take k counts.now)) }
{
    let mut all = Vec::with_capacity(alloc, counts.len())?;
    let mut sum = 0;
    for count in counts {
        all.push(sum)?;
        sum += *count;
    }
    Ok(all)
}

/// The piece behind cut `k`.
pub(crate) fn write_at(
    alloc: Global,
    a: &KeyList,
    used_a: &[bool],
    b: &KeyList,
    used_b: &[bool],
    cuts: &[Cut],
    bases: &[u32],
    pieces: usize,
    k: usize,
) -> Result<Merged, AllocError>
    requires lists { AreSources a.now used_a.now b.now used_b.now }
    requires room { length a.now + length b.now < 2 ^ 31 }
    requires pieces { 1 ≤ pieces }
    requires cuts { AreCuts a.now b.now pieces cuts.now }
    requires within { k < pieces }
    requires count { length bases.now ≡ pieces }
    requires bases { (i : ℕ) → i < pieces → slice_index bases.now i ≡ length (front a.now used_a.now b.now used_b.now (cut_at cuts.now i)) }
    ensures { IfOk result (λ m. IsPart a.now used_a.now b.now used_b.now cuts.now k m.keys m.from_a.items m.from_b.items) }
{
    write_piece(alloc, a, used_a, b, used_b, cuts[k], cuts[k + 1], bases[k])
}
