//! Scans that narrow a mask: 64 codes at a time are tested, with no branch on a code, and their
//! answers are gathered in a word.
ghost use Rattle.std.specs.Prelude.{◌≡◌, ◌+◌, ◌-◌, ◌*◌, ◌≤◌, ◌∷◌, [], Bool, List, length, take, drop, map};
ghost use Rattle.std.specs.Simd.Lanes.{mask_l};
ghost use Rattle.ut_bits.specs.Places.{is_in};
ghost use Rattle.ut_mask.specs.Mask.{both, kept};
ghost use Rattle.ut_packed.specs.Bounds.{AreBounds};

use crate::bounds::{BLOCK, Bounds};
use ut_bits::{BitList, is_in};
use ut_mask::Mask;

/// A range that holds no code.
const NO_CODES: (u32, u32) = (0, 0);

/// Keeps of a mask the places whose code stands in one of the ranges. The codes of a block whose bounds tell all of its
/// answers are passed over.
pub(crate) fn keep_words(list: &BitList, bounds: &[Bounds], ranges: &[(u32, u32)], mask: &mut Mask)
    requires length { length mask.old ≡ length list.now.codes }
    requires bounds { AreBounds list.now.codes bounds.now }
    ensures { mask.new ≡ both mask.old (map (is_in ranges.now) list.now.codes) }
{
    for b in 0..(list.len() + (BLOCK - 1)) / BLOCK {
        let block = bounds[b as usize];
        if !block.must_stand(ranges) {
            if block.may_stand(ranges) {
                keep_block(list, b, ranges, mask);
            } else {
                let start = BLOCK * b;
                mask.clear(start, list.len().min(start + BLOCK));
            }
        }
    }
}

// The same for block b, behind the blocks before it; 64 places none of which stands are passed over.
fn keep_block(list: &BitList, b: u32, ranges: &[(u32, u32)], mask: &mut Mask)
    requires length { length mask.old ≡ length list.now.codes }
    requires within { 1024 * b ≤ length list.now.codes }
    ensures { (first : List Bool) → length first ≡ length list.now.codes
        → mask.old ≡ kept first (map (is_in ranges.now) (take (1024 * b) list.now.codes))
        → mask.new ≡ kept first (map (is_in ranges.now) (take (1024 * (b + 1)) list.now.codes)) }
{
    let end = list.len().min(BLOCK * (b + 1));
    for k in BLOCK / 64 * b..(end + 63) / 64 {
        if !mask.is_word_clear(k) {
            let start = 64 * k;
            let stop = start + (list.len() - start).min(64);
            mask.keep_word(k, bits_in(list, start, stop, ranges));
        }
    }
}

// For up to 64 codes whether each stands in one of the ranges, the first as the lowest bit.
fn bits_in(list: &BitList, start: u32, end: u32, ranges: &[(u32, u32)]) -> u64
    requires order { start ≤ end }
    requires few { end ≤ start + 64 }
    requires within { end ≤ length list.now.codes }
    ensures { result ≡ mask_l (map (is_in ranges.now) (take (end - start) (drop start list.now.codes))) }
{
    match ranges {
        [range] => bits_in_either(list, start, end, *range, NO_CODES),
        [low, high] => bits_in_either(list, start, end, *low, *high),
        _ => bits_among(list, start, end, ranges),
    }
}

// The same for two ranges, as a comparison has at most.
fn bits_in_either(list: &BitList, start: u32, end: u32, low: (u32, u32), high: (u32, u32)) -> u64
    requires order { start ≤ end }
    requires few { end ≤ start + 64 }
    requires within { end ≤ length list.now.codes }
    ensures { result ≡ mask_l (map (is_in (low ∷ high ∷ [])) (take (end - start) (drop start list.now.codes))) }
{
    let mut bits = 0;
    let mut at = end;
    while at > start {
        at -= 1;
        bits = bits + bits + u64::from(is_in_either(list.get(at), low, high));
    }
    bits
}

// The same for any number of ranges.
fn bits_among(list: &BitList, start: u32, end: u32, ranges: &[(u32, u32)]) -> u64
    requires order { start ≤ end }
    requires few { end ≤ start + 64 }
    requires within { end ≤ length list.now.codes }
    ensures { result ≡ mask_l (map (is_in ranges.now) (take (end - start) (drop start list.now.codes))) }
{
    let mut bits = 0;
    let mut at = end;
    while at > start {
        at -= 1;
        bits = bits + bits + u64::from(is_in(list.get(at), ranges));
    }
    bits
}

// Whether a code stands in one of two ranges, by one comparison each.
fn is_in_either(code: u32, low: (u32, u32), high: (u32, u32)) -> bool
    ensures { result ≡ is_in (low ∷ high ∷ []) code }
{
    (code.wrapping_sub(low.0) < low.1.saturating_sub(low.0))
        | (code.wrapping_sub(high.0) < high.1.saturating_sub(high.0))
}
