//! The least and the greatest code of each block of codes, by which a scan passes over blocks.
ghost use Rattle.std.specs.Prelude.{◌≡◌, ℕ, ◌<◌, ◌≤◌, length, get_or, IfOk};
ghost use Rattle.std.specs.List.{list_any};
ghost use Rattle.ut_packed.specs.Bounds.{AreBounds, IsBetween, covers, meets};

use std::alloc::{AllocError, Global};
use ut_bits::BitList;

/// How many codes a block has.
pub(crate) const BLOCK: u32 = 1024;

/// The least and the greatest code of a block.
#[derive(Clone, Copy)]
pub struct Bounds {
    pub least: u32,
    pub greatest: u32,
}

impl Bounds {
    /// Whether a code between the bounds may stand in one of the ranges.
    pub fn may_stand(self, ranges: &[(u32, u32)]) -> bool
        ensures { result ≡ list_any (meets self) ranges.now }
    {
        ranges
            .iter()
            .any(|range| range.0 <= self.greatest && self.least < range.1)
    }

    /// Whether one of the ranges holds each code between the bounds.
    pub fn must_stand(self, ranges: &[(u32, u32)]) -> bool
        ensures { result ≡ list_any (covers self) ranges.now }
    {
        ranges
            .iter()
            .any(|range| range.0 <= self.least && self.greatest < range.1)
    }
}

/// The bounds of each block of a list.
pub(crate) fn bounds_of(alloc: Global, list: &BitList) -> Result<Vec<Bounds>, AllocError>
    ensures { IfOk result (λ bounds. AreBounds list.now.codes bounds.items) }
{
    let blocks = (list.len() + (BLOCK - 1)) / BLOCK;
    let mut bounds = Vec::with_capacity(alloc, blocks as usize)?;
    for k in 0..blocks {
        let start = BLOCK * k;
        let end = start + (list.len() - start).min(BLOCK);
        bounds.push(bounds_between(list, start, end))?;
    }
    Ok(bounds)
}

// The least and the greatest code from a place up to an end.
fn bounds_between(list: &BitList, start: u32, end: u32) -> Bounds
    requires { end ≤ length list.now.codes }
    ensures { (i : ℕ) → start ≤ i → i < end → IsBetween result (get_or list.now.codes i 0) }
{
    let mut least = u32::MAX;
    let mut greatest = 0;
    for i in start..end {
        let code = list.get(i);
        least = least.min(code);
        greatest = greatest.max(code);
    }
    Bounds { least, greatest }
}
