//! Ranks of marked rows.
ghost use Rattle.std.specs.Prelude.{◌≡◌, ◌+◌, ◌*◌, ◌/◌, ◌%◌, ◌^◌, ◌<◌, ◌≤◌, ◌++◌, length, slice_index, take, drop, IfOk};
ghost use Rattle.ut_bits.specs.Bits.{AllBelow, joined};
ghost use Rattle.ut_sparse.specs.Sparse.{AreRanks, marked, merged, AreSparse};

use std::alloc::{AllocError, Global};
use ut_bits::BitList;

/// For each 64 rows, and behind the last, how many rows are marked before them.
pub(crate) fn ranks_of(alloc: Global, marks: &BitList) -> Result<Vec<u32>, AllocError>
    requires width { marks.now.width ≡ 1 }
    requires bits { AllBelow 2 marks.now.codes }
    ensures { IfOk result (λ v. AreRanks marks.now.codes v.items) }
{
    let blocks = marks.len() / 64 + 1;
    let mut ranks = Vec::with_capacity(alloc, blocks as usize + 1)?;
    let mut before = 0;
    for k in 0..blocks {
        ranks.push(before)?;
        before += marks.word(k).count_ones();
    }
    ranks.push(before)?;
    Ok(ranks)
}

/// The code of a row, before which `rank` rows are marked.
pub(crate) fn code_here(left_out: u32, marks: &BitList, others: &BitList, i: u32, rank: u32) -> u32
    requires bits { AllBelow 2 marks.now.codes }
    requires paired { marked marks.now.codes ≡ length others.now.codes }
    requires within { i < length marks.now.codes }
    requires rank { rank ≡ marked (take i marks.now.codes) }
    ensures { result ≡ slice_index (merged left_out marks.now.codes others.now.codes) i }
{
    if marks.get(i) == 0 {
        return left_out;
    }
    others.get(rank)
}

/// All codes in order, written from one mark to the next.
pub(crate) fn merged_codes(
    alloc: Global,
    left_out: u32,
    marks: &BitList,
    others: &BitList,
) -> Result<Vec<u32>, AllocError>
    requires few { length marks.now.codes ≤ 2 ^ 31 }
    requires width { marks.now.width ≡ 1 }
    requires bits { AllBelow 2 marks.now.codes }
    requires paired { marked marks.now.codes ≡ length others.now.codes }
    ensures { IfOk result (λ v. v.items ≡ merged left_out marks.now.codes others.now.codes) }
{
    let mut codes = Vec::with_capacity(alloc, marks.len() as usize)?;
    let mut from = 0;
    for rank in 0..others.len() {
        let mark = next_mark(marks, from);
        codes.resize(mark as usize, left_out)?;
        codes.push(others.get(rank))?;
        from = mark + 1;
    }
    codes.resize(marks.len() as usize, left_out)?;
    Ok(codes)
}

/// How many rows before a row are marked.
pub(crate) fn rank_at(marks: &BitList, ranks: &[u32], i: u32) -> u32
    requires width { marks.now.width ≡ 1 }
    requires bits { AllBelow 2 marks.now.codes }
    requires ranks { AreRanks marks.now.codes ranks.now }
    requires within { i < length marks.now.codes }
    ensures { result ≡ marked (take i marks.now.codes) }
{
    let word = marks.word(i / 64);
    let before = word & ((1u64 << (i % 64)) - 1);
    let block = ranks[(i / 64) as usize];
    block + before.count_ones()
}

// The marks of the rows from one on to the end of its block of 64, the first as the lowest bit.
fn marks_from(marks: &BitList, row: u32) -> u64
    requires width { marks.now.width ≡ 1 }
    requires bits { AllBelow 2 marks.now.codes }
    requires within { row < length marks.now.codes }
    ensures { result ≡ joined 1 (drop (row % 64) (take 64 (drop (64 * (row / 64)) marks.now.codes))) }
{
    marks.word(row / 64) >> (row % 64)
}

/// The first marked row from a row on.
pub(crate) fn next_mark(marks: &BitList, row: u32) -> u32
    requires few { length marks.now.codes ≤ 2 ^ 31 }
    requires width { marks.now.width ≡ 1 }
    requires bits { AllBelow 2 marks.now.codes }
    requires more { marked (take row marks.now.codes) < marked marks.now.codes }
    ensures behind { row ≤ result }
    ensures within { result < length marks.now.codes }
    ensures mark { slice_index marks.now.codes result ≡ 1 }
    ensures first { marked (take result marks.now.codes) ≡ marked (take row marks.now.codes) }
{
    let mut at = row;
    let mut rest = marks_from(marks, at);
    while rest == 0 {
        at = (at / 64 + 1) * 64;
        rest = marks_from(marks, at);
    }
    at + rest.trailing_zeros()
}

/// How many rows are marked.
pub(crate) fn marked_rows(marks: &BitList, ranks: &[u32]) -> u32
    requires { AreRanks marks.now.codes ranks.now }
    ensures { result ≡ marked marks.now.codes }
{
    let last = ranks.len() - 1;
    ranks[last]
}
