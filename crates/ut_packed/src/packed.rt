//! A code vector of equal widths, with the bounds of its blocks.
ghost use Rattle.std.specs.Prelude.{◌≡◌, ◌^◌, ◌<◌, ◌≤◌, length, slice_index, IfOk, IfSome, IfNone, OnOk, OnErr, ◌++◌, ◌+◌, ◌∷◌, [], ◌≢◌, List, ℕ, take, drop, map};
ghost use Rattle.ut_bits.specs.Bits.{AllBelow, packed_bytes};
ghost use Rattle.ut_bits.specs.Coded.{HasCodes, IsRead};
ghost use Rattle.ut_bits.specs.Places.{is_in, places_where};
ghost use Rattle.ut_mask.specs.Mask.{both};

use crate::bounds::{Bounds, bounds_of};
use crate::masks::keep_words;
use std::alloc::{AllocError, Global};
use std::marker::Model;
use ut_bits::{BitList, is_in, push_or_cut};
use ut_mask::Mask;

/// A vector of codes of `width` bits each, one behind the other. The bounds of its blocks are made
/// with it, and are no part of its bytes.
#[derive(Drop)]
pub struct Packed {
    list: BitList,
    bounds: Vec<Bounds>,
}

impl Model for Packed {
    ghost use Rattle.ut_bits.specs.Coded.{Coded};
    ghost use Rattle.ut_packed.specs.Bounds.{AreBounds};

    ghost Value = { Coded };

    ghost view = { λ p. p.list };

    ghost invariant = { λ p. AreBounds p.list.codes p.bounds.items };
}

impl Packed {
    /// The codes, each in `width` bits.
    pub fn from_codes(alloc: Global, codes: &[u32], width: u8) -> Result<Self, AllocError>
        requires width { width ≤ 32 }
        requires below { AllBelow (2 ^ width) codes.now }
        requires count { length codes.now ≤ 2 ^ 31 }
        ensures { IfOk result (λ p. HasCodes width codes.now p) }
    {
        Packed::of(alloc, BitList::from_codes(alloc, codes, width)?)
    }

    // The vector of a list.
    fn of(alloc: Global, list: BitList) -> Result<Self, AllocError>
        ensures { IfOk result (λ p. p ≡ list) }
    {
        let bounds = bounds_of(alloc, &list)?;
        Ok(Packed { list, bounds })
    }

    pub fn len(&self) -> u32
        ensures len { result ≡ length self.now.codes }
        ensures small { result ≤ 2 ^ 31 }
    {
        self.list.len()
    }

    /// How many bits each code has.
    pub fn width(&self) -> u8
        ensures width { result ≡ self.now.width }
        ensures small { result ≤ 32 }
    {
        self.list.width()
    }

    pub fn get(&self, i: u32) -> u32
        requires { i < length self.now.codes }
        ensures { result ≡ slice_index self.now.codes i }
    {
        self.list.get(i)
    }

    /// The eight codes from a place on.
    pub fn eight(&self, i: u32) -> [u32; 8]
        requires { i + 8 ≤ length self.now.codes }
        ensures { result ≡ take 8 (drop i self.now.codes) }
    {
        prove!(i < self.len());
        let list = &self.list;
        [
            list.get(i),
            list.get(i + 1),
            list.get(i + 2),
            list.get(i + 3),
            list.get(i + 4),
            list.get(i + 5),
            list.get(i + 6),
            list.get(i + 7),
        ]
    }

    /// Appends the places, ascending, whose code stands in one of the ranges.
    pub fn places_in(&self, ranges: &[(u32, u32)], out: &mut Vec<u32>) -> Result<(), AllocError>
        ensures ok { OnOk result (out.new.items ≡ out.old.items ++ places_where (is_in ranges.now) self.now.codes) }
        ensures err { OnErr result (out.new.items ≡ out.old.items) }
    {
        if ranges.len() == 1 {
            return places_between(&self.list, ranges[0], out);
        }
        places_among(&self.list, ranges, out)
    }

    /// Keeps of a mask the places whose code stands in one of the ranges.
    pub fn keep_in(&self, ranges: &[(u32, u32)], mask: &mut Mask)
        requires { length mask.old ≡ length self.now.codes }
        ensures { mask.new ≡ both mask.old (map (is_in ranges.now) self.now.codes) }
    {
        keep_words(&self.list, &self.bounds, ranges, mask);
    }

    /// Appends all codes in order.
    pub fn codes_of(&self, out: &mut Vec<u32>) -> Result<(), AllocError>
        ensures ok { OnOk result (out.new.items ≡ out.old.items ++ self.now.codes) }
        ensures err { OnErr result (out.new.items ≡ out.old.items) }
    {
        out.reserve(self.list.len() as usize)?;
        let start = out.len();
        for i in 0..self.list.len() {
            push_or_cut(self.list.get(i), start, out)?;
        }
        Ok(())
    }

    /// Appends the packed bytes.
    pub fn bytes_of(&self, out: &mut Vec<u8>) -> Result<(), AllocError>
        ensures ok { OnOk result (out.new.items ≡ out.old.items ++ packed_bytes self.now.width self.now.codes) }
        ensures err { OnErr result (out.new.items ≡ out.old.items) }
    {
        self.list.bytes_of(out)
    }

    /// The vector that begins the bytes, and how many bytes it takes.
    pub fn from_bytes(
        alloc: Global,
        bytes: &[u8],
        rows: u32,
        width: u8,
    ) -> Result<Option<(Packed, usize)>, AllocError>
        requires width { width ≤ 32 }
        requires rows { rows ≤ 2 ^ 31 }
        ensures read { IfOk result (λ found. IfSome found (λ r. IsRead width rows bytes.now r.0 r.1)) }
        ensures spelled { IfOk result (λ found. IfSome found (λ r. take r.1 bytes.now ≡ packed_bytes width r.0.codes)) }
        ensures none { IfOk result (λ found. IfNone found ((codes rest : List ℕ) → length codes ≡ rows → AllBelow (2 ^ width) codes → bytes.now ≢ packed_bytes width codes ++ rest)) }
    {
        match BitList::from_bytes(alloc, bytes, rows, width)? {
            Some((list, count)) => Ok(Some((Packed::of(alloc, list)?, count))),
            None => Ok(None),
        }
    }
}

// Whether a code stands in a range without its end.
fn is_between(code: u32, range: (u32, u32)) -> bool
    ensures { result ≡ is_in (range ∷ []) code }
{
    range.0 <= code && code < range.1
}

// The places of one range, the common case.
fn places_between(list: &BitList, range: (u32, u32), out: &mut Vec<u32>) -> Result<(), AllocError>
    ensures ok { OnOk result (out.new.items ≡ out.old.items ++ places_where (is_in (range ∷ [])) list.now.codes) }
    ensures err { OnErr result (out.new.items ≡ out.old.items) }
{
    let start = out.len();
    for i in 0..list.len() {
        if is_between(list.get(i), range) {
            push_or_cut(i, start, out)?;
        }
    }
    Ok(())
}

// The places of several ranges.
fn places_among(list: &BitList, ranges: &[(u32, u32)], out: &mut Vec<u32>) -> Result<(), AllocError>
    ensures ok { OnOk result (out.new.items ≡ out.old.items ++ places_where (is_in ranges.now) list.now.codes) }
    ensures err { OnErr result (out.new.items ≡ out.old.items) }
{
    let start = out.len();
    for i in 0..list.len() {
        if is_in(list.get(i), ranges) {
            push_or_cut(i, start, out)?;
        }
    }
    Ok(())
}
