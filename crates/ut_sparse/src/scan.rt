//! Looking for codes in a sparse vector.
ghost use Rattle.std.specs.Prelude.{◌≡◌, ◌+◌, ◌*◌, ◌<◌, ◌≤◌, ◌++◌, length, take, drop, map, false, true, OnOk, OnErr};
ghost use Rattle.ut_bits.specs.Places.{is_in, places_where, places_from};
ghost use Rattle.ut_mask.specs.Mask.{both};
ghost use Rattle.ut_sparse.specs.Sparse.{AreRanks, IsPaired, marked, merged};

use crate::marks::next_mark;
use std::alloc::AllocError;
use ut_bits::{BitList, append_range, is_in};
use ut_mask::Mask;

/// Appends the places whose code stands in one of the ranges, one of which holds the code that is
/// left out: from one mark to the next, with all rows between them.
pub(crate) fn append_all_in(
    left_out: u32,
    marks: &BitList,
    others: &BitList,
    ranges: &[(u32, u32)],
    out: &mut Vec<u32>,
) -> Result<(), AllocError>
    requires marks { IsPaired marks.now others.now }
    requires present { is_in ranges.now left_out ≡ true }
    ensures ok { OnOk result (out.new.items ≡ out.old.items ++ places_where (is_in ranges.now) (merged left_out marks.now.codes others.now.codes)) }
    ensures err { OnErr result (out.new.items ≡ out.old.items) }
{
    let before = out.len();
    out.reserve(marks.len() as usize)?;
    let mut from = 0;
    for rank in 0..others.len() {
        let mark = next_mark(marks, from);
        let end = mark + u32::from(is_in(others.get(rank), ranges));
        match append_range(from, end, out) {
            Ok(()) => {}
            Err(failed) => {
                out.truncate(before);
                return Err(failed);
            }
        }
        from = mark + 1;
    }
    match append_range(from, marks.len(), out) {
        Ok(()) => Ok(()),
        Err(failed) => {
            out.truncate(before);
            Err(failed)
        }
    }
}

// Appends the places of word `k` of the marks whose code stands in one of the ranges, none of
// which holds the code that is left out: from one mark to the next.
fn append_marked_in(
    left_out: u32,
    marks: &BitList,
    others: &BitList,
    k: u32,
    rank: u32,
    ranges: &[(u32, u32)],
    out: &mut Vec<u32>,
) -> Result<(), AllocError>
    requires marks { IsPaired marks.now others.now }
    requires word { 64 * k ≤ length marks.now.codes }
    requires rank { rank ≡ marked (take (64 * k) marks.now.codes) }
    requires absent { is_in ranges.now left_out ≡ false }
    ensures ok { OnOk result (out.new.items ≡ out.old.items ++ places_from (is_in ranges.now) (64 * k) (take 64 (drop (64 * k) (merged left_out marks.now.codes others.now.codes)))) }
    ensures err { OnErr result (out.new.items ≡ out.old.items) }
{
    let before = out.len();
    let mut rank = rank;
    let mut passed = 0;
    let mut rest = marks.word(k);
    while rest != 0 {
        let zeros = rest.trailing_zeros();
        if is_in(others.get(rank), ranges) {
            match out.push(64 * k + passed + zeros) {
                Ok(()) => {}
                Err(failed) => {
                    out.truncate(before);
                    return Err(AllocError::from(failed));
                }
            }
        }
        rank += 1;
        passed += zeros + 1;
        rest = (rest >> zeros) >> 1;
    }
    Ok(())
}

/// Appends the places whose code stands in one of the ranges, none of which holds the code that
/// is left out: word by word of the marks, past those without any.
pub(crate) fn append_others_in(
    left_out: u32,
    marks: &BitList,
    others: &BitList,
    ranks: &[u32],
    ranges: &[(u32, u32)],
    out: &mut Vec<u32>,
) -> Result<(), AllocError>
    requires marks { IsPaired marks.now others.now }
    requires ranks { AreRanks marks.now.codes ranks.now }
    requires absent { is_in ranges.now left_out ≡ false }
    ensures ok { OnOk result (out.new.items ≡ out.old.items ++ places_where (is_in ranges.now) (merged left_out marks.now.codes others.now.codes)) }
    ensures err { OnErr result (out.new.items ≡ out.old.items) }
{
    let before = out.len();
    for k in 0..marks.len() / 64 + 1 {
        let rank = ranks[k as usize];
        match append_marked_in(left_out, marks, others, k, rank, ranges, out) {
            Ok(()) => {}
            Err(failed) => {
                out.truncate(before);
                return Err(failed);
            }
        }
    }
    Ok(())
}

/// Keeps of a mask the places whose code stands in one of the ranges: from one mark to the next.
pub(crate) fn keep_marked(
    left_out: u32,
    marks: &BitList,
    others: &BitList,
    ranges: &[(u32, u32)],
    mask: &mut Mask,
)
    requires marks { IsPaired marks.now others.now }
    requires length { length mask.old ≡ length marks.now.codes }
    ensures { mask.new ≡ both mask.old (map (is_in ranges.now) (merged left_out marks.now.codes others.now.codes)) }
{
    let stays = is_in(left_out, ranges);
    let mut from = 0;
    for rank in 0..others.len() {
        let mark = next_mark(marks, from);
        mask.keep_range(from, mark, stays);
        mask.keep_range(mark, mark + 1, is_in(others.get(rank), ranges));
        from = mark + 1;
    }
    mask.keep_range(from, marks.len(), stays);
}
