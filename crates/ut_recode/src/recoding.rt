//! Each code by its map: one share at a time, or all shares on threads.
ghost use Rattle.std.specs.Prelude.{◌≡◌, ◌+◌, ◌*◌, ◌/◌, ◌^◌, ◌<◌, ◌≤◌, ℕ, None, length, get_or, unwrap_or, IfOk, slice_index_or};
ghost use Rattle.ut_bits.specs.Bits.{AllBelow};
ghost use Rattle.ut_own.specs.Own.{recoded};
ghost use Rattle.ut_recode.specs.Recode.{with_staying, HaveEntries};
ghost use Rattle.ut_recode.specs.Spans.{span, share_at};

use crate::parts::share;
use std::alloc::{AllocError, Global};
use std::thread;
use std::thread::Threads;

/// With fewer codes than this a thread costs more than it saves.
const FEW_CODES: usize = 100_000;

/// Each code by its map, in so many shares. Codes below `first` stay as they are, and the map is of
/// those from there on. The answer is the same for every number of shares.
pub fn recode<R: Threads + Sync>(
    rt: &R,
    alloc: Global,
    codes: &[u32],
    first: u32,
    map: &[Option<u32>],
    reach: u32,
    pieces: u32,
) -> Result<Vec<u32>, AllocError>
    requires count { length codes.now ≤ 2 ^ 31 }
    requires entries { HaveEntries (with_staying first map.now) reach codes.now }
    requires pieces { (1 ≤ pieces) × (pieces ≤ 64) }
    ensures codes { IfOk result (λ v. v.items ≡ recoded (with_staying first map.now) codes.now) }
    ensures below { IfOk result (λ v. AllBelow reach v.items) }
{
    if pieces == 1 || codes.len() < FEW_CODES {
        return recode_all(alloc, codes, first, map, reach);
    }
    let shares = thread::map_indices(
        rt,
        alloc,
        pieces as usize,
        &|k: usize| { recode_share(alloc, codes, first, map, reach, pieces, k) },
    )?;
    join_shares(alloc, codes, first, map, shares.as_slice())
}

// All codes, on this thread.
fn recode_all(
    alloc: Global,
    codes: &[u32],
    first: u32,
    map: &[Option<u32>],
    reach: u32,
) -> Result<Vec<u32>, AllocError>
    requires entries { HaveEntries (with_staying first map.now) reach codes.now }
    ensures { IfOk result (λ v. v.items ≡ recoded (with_staying first map.now) codes.now) }
{
    recode_span(alloc, codes, first, map, reach, 0, codes.len())
}

// Share `k` of the codes.
fn recode_share(
    alloc: Global,
    codes: &[u32],
    first: u32,
    map: &[Option<u32>],
    reach: u32,
    pieces: u32,
    k: usize,
) -> Result<Vec<u32>, AllocError>
    requires count { length codes.now ≤ 2 ^ 31 }
    requires entries { HaveEntries (with_staying first map.now) reach codes.now }
    requires pieces { (1 ≤ pieces) × (pieces ≤ 64) }
    requires within { k < pieces }
    ensures { IfOk result (λ v. v.items ≡ recoded (with_staying first map.now) (share_at k pieces codes.now)) }
{
    let rows = codes.len() as u32;
    let from = share(rows, pieces, k as u32);
    let to = share(rows, pieces, k as u32 + 1);
    recode_span(alloc, codes, first, map, reach, from as usize, to as usize)
}

// A code by its map.
#[tactic(auto, using(crate::proofs::ShareLemmas::stays_at, crate::proofs::ShareLemmas::behind_at, crate::proofs::ShareLemmas::length_with_staying))]
fn new_code(first: u32, map: &[Option<u32>], code: u32) -> u32
    requires { code < length (with_staying first map.now) }
    ensures { result ≡ unwrap_or (get_or (with_staying first map.now) code None) 0 }
{
    if code < first {
        code
    } else {
        map[(code - first) as usize].unwrap_or(0)
    }
}

// The codes from one place to another.
fn recode_span(
    alloc: Global,
    codes: &[u32],
    first: u32,
    map: &[Option<u32>],
    reach: u32,
    from: usize,
    to: usize,
) -> Result<Vec<u32>, AllocError>
    requires entries { HaveEntries (with_staying first map.now) reach codes.now }
    requires from { from ≤ to }
    requires to { to ≤ length codes.now }
    ensures { IfOk result (λ v. v.items ≡ recoded (with_staying first map.now) (span from to codes.now)) }
{
    let mut out = Vec::with_capacity(alloc, to - from)?;
    for i in from..to {
        out.push(new_code(first, map, codes[i]))?;
    }
    Ok(out)
}

// Lays the shares end to end.
fn join_shares(
    alloc: Global,
    codes: &[u32],
    first: u32,
    map: &[Option<u32>],
    shares: &[Result<Vec<u32>, AllocError>],
) -> Result<Vec<u32>, AllocError>
    requires some { 1 ≤ length shares.now }
    requires shares { (k : ℕ) (d : _) → k < length shares.now → IfOk (slice_index_or shares.now k d) (λ v. v.items ≡ recoded (with_staying first map.now) (share_at k (length shares.now) codes.now)) }
    ensures { IfOk result (λ v. v.items ≡ recoded (with_staying first map.now) codes.now) }
{
    let mut out = Vec::with_capacity(alloc, codes.len())?;
    for share in shares {
        match share {
            Ok(part) => out.extend_from_slice(part.as_slice())?,
            Err(failed) => return Err(*failed),
        }
    }
    Ok(out)
}
