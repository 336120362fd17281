//! Cuts of two key lists into even pieces, none of which parts two equal keys.
ghost use Rattle.std.specs.Prelude.{◌≡◌, ◌+◌, ◌^◌, ◌<◌, ◌≤◌, length, IfOk};
ghost use Rattle.ut_key.specs.Keys.{IsAscending};
ghost use Rattle.ut_dictmerge.specs.Cuts.{IsCutBehind, AreCuts};

use std::alloc::{AllocError, Global};
use std::cmp::Ordering;
use ut_key::{KeyList, compare_at};
use ut_recode::share;

/// A place in each of two key lists: in front of their keys with these numbers.
#[derive(Clone, Copy, Debug, PartialEq, Eq)]
pub struct Cut {
    pub a: u32,
    pub b: u32,
}

/// Cuts both lists into so many pieces. The cuts are one more than these.
///
/// Each is found by binary search, so that they take next to no time beside a merge.
pub fn cuts(alloc: Global, a: &KeyList, b: &KeyList, pieces: u32) -> Result<Vec<Cut>, AllocError>
    requires ascending_a { IsAscending a.now }
    requires ascending_b { IsAscending b.now }
    requires room { length a.now + length b.now < 2 ^ 32 }
    requires pieces { (1 ≤ pieces) × (pieces ≤ 64) }
    ensures { IfOk result (λ v. AreCuts a.now b.now pieces v.items) }
{
    let all = (a.len() + b.len()) as u32;
    let mut cuts = Vec::with_capacity(alloc, pieces as usize + 1)?;
    for k in 0..pieces + 1 {
        let keys = share(all, pieces, k);
        cuts.push(cut_behind(a, b, keys as usize))?;
    }
    Ok(cuts)
}

// The cut behind so many of all keys, or one more where it would part two equal keys.
fn cut_behind(a: &KeyList, b: &KeyList, keys: usize) -> Cut
    requires ascending_a { IsAscending a.now }
    requires ascending_b { IsAscending b.now }
    requires room { length a.now + length b.now < 2 ^ 32 }
    requires within { keys ≤ length a.now + length b.now }
    ensures { IsCutBehind a.now b.now keys result.a result.b }
{
    let mut low = keys.saturating_sub(b.len());
    let mut high = keys.min(a.len());
    while low < high {
        let middle = low + (high - low) / 2;
        match compare_at(a, middle, b, keys - middle - 1) {
            Ordering::Less => low = middle + 1,
            Ordering::Equal | Ordering::Greater => high = middle,
        }
    }
    let other = keys - low;
    if low >= a.len() || other == 0 {
        return Cut {
            a: low as u32,
            b: other as u32,
        };
    }
    match compare_at(a, low, b, other - 1) {
        Ordering::Equal => Cut {
            a: low as u32 + 1,
            b: other as u32,
        },
        Ordering::Less | Ordering::Greater => Cut {
            a: low as u32,
            b: other as u32,
        },
    }
}
