//! A code vector without its most frequent code.
ghost use Rattle.std.specs.Prelude.{◌≡◌, ◌+◌, ◌^◌, ◌<◌, ◌≤◌, length, slice_index, IfOk, IfSome, IfNone, OnOk, OnErr, ◌++◌, ◌≢◌, List, ℕ, take, map};
ghost use Rattle.ut_bits.specs.Bits.{AllBelow};
ghost use Rattle.ut_bits.specs.Coded.{HasCodes, IsRead};
ghost use Rattle.ut_bits.specs.Places.{is_in, places_where};
ghost use Rattle.ut_mask.specs.Mask.{both};
ghost use Rattle.ut_sparse.specs.Frequent.{count_of, most_frequent, IsMostFrequent};
ghost use Rattle.ut_sparse.specs.Sparse.{sparse_bytes, marked, merged};

use crate::frequent::{Frequency, most_frequent};
use crate::marks::{code_here, marked_rows, merged_codes, rank_at, ranks_of};
use crate::scan::{append_all_in, append_others_in, keep_marked};
use std::alloc::{AllocError, Global};
use std::marker::Model;
use ut_bits::{BitList, BitListWriter, append_word, cut_at_error, is_in, read_word};
use ut_mask::Mask;

/// A vector of codes without the most frequent one: a bit for each row marks where another code
/// stands, and these codes follow in order.
#[derive(Drop)]
pub struct Sparse {
    left_out: u32,
    marks: BitList,
    others: BitList,
    ranks: Vec<u32>,
}

impl Model for Sparse {
    ghost use Rattle.std.specs.Prelude.{◌≡◌, ◌≤◌, ◌^◌, length};
    ghost use Rattle.ut_bits.specs.Coded.{Coded};
    ghost use Rattle.ut_sparse.specs.Frequent.{IsMostFrequent};
    ghost use Rattle.ut_sparse.specs.Sparse.{merged, AreSparse, AreRanks};

    ghost Value = { Coded };

    ghost view = { λ p. record { width = p.others.width; codes = merged p.left_out p.marks.codes p.others.codes } };

    ghost invariant = { λ p. (p.marks.width ≡ 1) × (length p.marks.codes ≤ 2 ^ 31) × AreSparse p.left_out p.marks.codes p.others.codes × AreRanks p.marks.codes p.ranks.items × IsMostFrequent (merged p.left_out p.marks.codes p.others.codes) p.left_out };
}

impl Sparse {
    /// The codes without the most frequent one.
    pub fn from_codes(alloc: Global, codes: &[u32], width: u8) -> Result<Self, AllocError>
        requires width { width ≤ 32 }
        requires below { AllBelow (2 ^ width) codes.now }
        requires count { length codes.now ≤ 2 ^ 31 }
        ensures { IfOk result (λ p. HasCodes width codes.now p) }
    {
        let left_out = most_frequent(alloc, codes)?;
        Sparse::leaving_out(alloc, codes, width, left_out)
    }

    /// The codes without the most frequent one, which the caller has found.
    pub fn leaving_out(
        alloc: Global,
        codes: &[u32],
        width: u8,
        left_out: Frequency,
    ) -> Result<Self, AllocError>
        requires width { width ≤ 32 }
        requires below { AllBelow (2 ^ width) codes.now }
        requires count { length codes.now ≤ 2 ^ 31 }
        requires counted { left_out.count ≡ count_of left_out.code codes.now }
        requires most { IsMostFrequent codes.now left_out.code }
        ensures { IfOk result (λ p. HasCodes width codes.now p) }
    {
        let len = codes.len() as u32;
        let mut marks = BitListWriter::with_capacity(alloc, len, 1)?;
        let mut others = BitListWriter::with_capacity(alloc, len - left_out.count, width)?;
        for code in codes {
            marks.push(u32::from(*code != left_out.code))?;
            if *code != left_out.code {
                others.push(*code)?;
            }
        }
        let marks = marks.finish()?;
        let others = others.finish()?;
        let ranks = ranks_of(alloc, &marks)?;
        Ok(Sparse {
            left_out: left_out.code,
            marks,
            others,
            ranks,
        })
    }

    pub fn len(&self) -> u32
        ensures len { result ≡ length self.now.codes }
        ensures small { result ≤ 2 ^ 31 }
    {
        self.marks.len()
    }

    /// How many bits each code has.
    pub fn width(&self) -> u8
        ensures width { result ≡ self.now.width }
        ensures small { result ≤ 32 }
    {
        self.others.width()
    }

    /// How many rows have another code than the one that is left out.
    pub fn exceptions(&self) -> u32
        ensures { result + count_of (most_frequent self.now.codes) self.now.codes ≡ length self.now.codes }
    {
        self.others.len()
    }

    pub fn get(&self, i: u32) -> u32
        requires { i < length self.now.codes }
        ensures { result ≡ slice_index self.now.codes i }
    {
        let rank = rank_at(&self.marks, self.ranks.as_slice(), i);
        code_here(self.left_out, &self.marks, &self.others, i, rank)
    }

    /// All codes in order.
    pub fn codes(&self, alloc: Global) -> Result<Vec<u32>, AllocError>
        ensures { IfOk result (λ v. v.items ≡ self.now.codes) }
    {
        merged_codes(alloc, self.left_out, &self.marks, &self.others)
    }

    /// Appends the places, ascending, whose code stands in one of the ranges.
    pub fn places_in(&self, ranges: &[(u32, u32)], out: &mut Vec<u32>) -> Result<(), AllocError>
        ensures ok { OnOk result (out.new.items ≡ out.old.items ++ places_where (is_in ranges.now) self.now.codes) }
        ensures err { OnErr result (out.new.items ≡ out.old.items) }
    {
        if is_in(self.left_out, ranges) {
            return append_all_in(self.left_out, &self.marks, &self.others, ranges, out);
        }
        append_others_in(
            self.left_out,
            &self.marks,
            &self.others,
            self.ranks.as_slice(),
            ranges,
            out,
        )
    }

    /// Keeps of a mask the places whose code stands in one of the ranges.
    pub fn keep_in(&self, ranges: &[(u32, u32)], mask: &mut Mask)
        requires { length mask.old ≡ length self.now.codes }
        ensures { mask.new ≡ both mask.old (map (is_in ranges.now) self.now.codes) }
    {
        keep_marked(self.left_out, &self.marks, &self.others, ranges, mask);
    }

    /// Appends the code that is left out, the marks and the other codes.
    pub fn bytes_of(&self, out: &mut Vec<u8>) -> Result<(), AllocError>
        ensures ok { OnOk result (out.new.items ≡ out.old.items ++ sparse_bytes self.now.width self.now.codes) }
        ensures err { OnErr result (out.new.items ≡ out.old.items) }
    {
        let before = out.len();
        append_word(self.left_out, out)?;
        cut_at_error(self.marks.bytes_of(out), before, out)?;
        cut_at_error(self.others.bytes_of(out), before, out)?;
        Ok(())
    }

    /// The vector that begins the bytes, and how many bytes it takes.
    pub fn from_bytes(
        alloc: Global,
        bytes: &[u8],
        rows: u32,
        width: u8,
    ) -> Result<Option<(Sparse, usize)>, AllocError>
        requires width { width ≤ 32 }
        requires rows { rows ≤ 2 ^ 31 }
        ensures read { IfOk result (λ found. IfSome found (λ r. IsRead width rows bytes.now r.0 r.1)) }
        ensures spelled { IfOk result (λ found. IfSome found (λ r. take r.1 bytes.now ≡ sparse_bytes width r.0.codes)) }
        ensures none { IfOk result (λ found. IfNone found ((codes rest : List ℕ) → length codes ≡ rows → AllBelow (2 ^ width) codes → bytes.now ≢ sparse_bytes width codes ++ rest)) }
    {
        if bytes.len() < 4 {
            return Ok(None);
        }
        let left_out = read_word(bytes);
        if u64::from(left_out) >> width != 0 {
            return Ok(None);
        }
        let behind = &bytes[4..];
        let Some((marks, marks_len)) = BitList::from_bytes(alloc, behind, rows, 1)? else {
            return Ok(None);
        };
        let ranks = ranks_of(alloc, &marks)?;
        let marked = marked_rows(&marks, ranks.as_slice());
        let rest = &behind[marks_len..];
        let Some((others, others_len)) = BitList::from_bytes(alloc, rest, marked, width)? else {
            return Ok(None);
        };
        let codes = merged_codes(alloc, left_out, &marks, &others)?;
        let top = most_frequent(alloc, codes.as_slice())?;
        if top.code != left_out {
            return Ok(None);
        }
        if top.count != rows - marked {
            return Ok(None);
        }
        let sparse = Sparse {
            left_out,
            marks,
            others,
            ranks,
        };
        Ok(Some((sparse, 4 + marks_len + others_len)))
    }
}
