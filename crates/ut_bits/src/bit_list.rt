//! Codes of a few bits each, side by side, read one by one.
ghost use Rattle.std.specs.Prelude.{◌≡◌, ◌+◌, ◌*◌, ◌/◌, ◌%◌, ◌^◌, ◌<◌, ◌≤◌, length, slice_index, IsTrue, ◌↔◌, IfOk, IfSome, IfNone, OnOk, OnErr, ◌++◌, ◌∷◌, [], ◌≢◌, List, ℕ, take};
ghost use Rattle.ut_bits.specs.Bits.{AllBelow, packed_bytes, number_of, byte_count, joined};
ghost use Rattle.ut_bits.specs.Coded.{HasCodes, IsRead};

use crate::bit_writer::BitWriter;
use byteorder::{ByteOrder, LittleEndian};
use std::alloc::{AllocError, Global};
use std::marker::Model;

/// Codes of `width` bits each. Behind the packed bytes stand eight zero bytes, so that a code is
/// read by one load of eight bytes.
#[derive(Drop)]
pub struct BitList {
    bytes: Vec<u8>,
    len: u32,
    width: u8,
}

impl Model for BitList {
    ghost use Rattle.std.specs.Prelude.{◌≡◌, ◌+◌, ◌*◌, ◌^◌, ◌<◌, ◌≤◌, length};
    ghost use Rattle.ut_bits.specs.Bits.{AllBelow, fields, number_of, byte_count};
    ghost use Rattle.ut_bits.specs.Coded.{Coded};

    ghost Value = { Coded };

    ghost view = { λ p. record { width = p.width; codes = fields p.width p.len (number_of p.bytes.items) } };

    ghost invariant = { λ p. (p.width ≤ 32) × (p.len ≤ 2 ^ 31) × (length p.bytes.items ≡ byte_count (p.len * p.width) + 8) × (number_of p.bytes.items < 2 ^ (p.len * p.width)) × AllBelow 256 p.bytes.items };
}

// The `width` bits from place `bit` on.
fn field_at(bytes: &[u8], bit: u64, width: u8) -> u32
    requires width { width ≤ 32 }
    requires within { bit / 8 + 8 ≤ length bytes.now }
    ensures { result ≡ number_of bytes.now / 2 ^ bit % 2 ^ width }
{
    let rest = &bytes[(bit / 8) as usize..];
    let word = LittleEndian::read_u64(rest);
    ((word >> (bit % 8)) & ((1u64 << width) - 1)) as u32
}

// The 64 bits from the byte `at` on.
fn word_at(bytes: &[u8], at: usize) -> u64
    requires { at + 8 ≤ length bytes.now }
    ensures { result ≡ number_of bytes.now / 2 ^ (8 * at) % 2 ^ 64 }
{
    let rest = &bytes[at..];
    LittleEndian::read_u64(rest)
}

// Whether the bytes that hold the first `bits` bits are 0 behind them.
fn are_unused_bits_zero(bytes: &[u8], bits: u64) -> bool
    requires { byte_count bits ≤ length bytes.now }
    ensures { IsTrue result ↔ (number_of (take (byte_count bits) bytes.now) < 2 ^ bits) }
{
    let used = bits % 8;
    if used == 0 {
        return true;
    }
    bytes[(bits / 8) as usize] >> used == 0
}

impl BitList {
    /// The codes, each in `width` bits.
    pub fn from_codes(alloc: Global, codes: &[u32], width: u8) -> Result<Self, AllocError>
        requires width { width ≤ 32 }
        requires below { AllBelow (2 ^ width) codes.now }
        requires count { length codes.now ≤ 2 ^ 31 }
        ensures { IfOk result (λ p. HasCodes width codes.now p) }
    {
        let mut writer = BitListWriter::with_capacity(alloc, codes.len() as u32, width)?;
        for code in codes {
            writer.push(*code)?;
        }
        writer.finish()
    }

    pub fn len(&self) -> u32
        ensures len { result ≡ length self.now.codes }
        ensures small { result ≤ 2 ^ 31 }
    {
        self.len
    }

    /// How many bits each code has.
    pub fn width(&self) -> u8
        ensures width { result ≡ self.now.width }
        ensures small { result ≤ 32 }
    {
        self.width
    }

    pub fn get(&self, i: u32) -> u32
        requires { i < length self.now.codes }
        ensures { result ≡ slice_index self.now.codes i }
    {
        field_at(
            self.bytes.as_slice(),
            u64::from(i) * u64::from(self.width),
            self.width,
        )
    }

    /// The 64 bits from place `64 * k` on, 0 behind the last code.
    pub fn word(&self, k: u32) -> u64
        requires { 64 * k ≤ length self.now.codes * self.now.width }
        ensures { result ≡ joined self.now.width self.now.codes / 2 ^ (64 * k) % 2 ^ 64 }
    {
        word_at(self.bytes.as_slice(), 8 * k as usize)
    }

    /// Appends the packed bytes.
    pub fn bytes_of(&self, out: &mut Vec<u8>) -> Result<(), AllocError>
        ensures ok { OnOk result (out.new.items ≡ out.old.items ++ packed_bytes self.now.width self.now.codes) }
        ensures err { OnErr result (out.new.items ≡ out.old.items) }
    {
        out.extend_from_slice(&self.bytes[..self.bytes.len() - 8])?;
        Ok(())
    }

    /// The codes that the first bytes pack, and how many bytes they take.
    pub fn from_bytes(
        alloc: Global,
        bytes: &[u8],
        rows: u32,
        width: u8,
    ) -> Result<Option<(BitList, usize)>, AllocError>
        requires width { width ≤ 32 }
        requires rows { rows ≤ 2 ^ 31 }
        ensures read { IfOk result (λ found. IfSome found (λ r. IsRead width rows bytes.now r.0 r.1)) }
        ensures spelled { IfOk result (λ found. IfSome found (λ r. take r.1 bytes.now ≡ packed_bytes width r.0.codes)) }
        ensures none { IfOk result (λ found. IfNone found ((codes rest : List ℕ) → length codes ≡ rows → AllBelow (2 ^ width) codes → bytes.now ≢ packed_bytes width codes ++ rest)) }
    {
        let bits = u64::from(rows) * u64::from(width);
        let count = ((bits + 7) / 8) as usize;
        if bytes.len() < count {
            return Ok(None);
        }
        if !are_unused_bits_zero(bytes, bits) {
            return Ok(None);
        }
        let mut own = Vec::with_capacity(alloc, count + 8)?;
        own.extend_from_slice(&bytes[..count])?;
        own.extend_from_slice(&[0; 8])?;
        let list = BitList {
            bytes: own,
            len: rows,
            width,
        };
        Ok(Some((list, count)))
    }
}

/// A list that is being packed: each code is written behind the ones before it.
#[derive(Drop)]
pub struct BitListWriter {
    bits: BitWriter,
    len: u32,
    width: u8,
}

impl Model for BitListWriter {
    ghost use Rattle.std.specs.Prelude.{◌≡◌, ◌*◌, ◌^◌, ◌<◌, ◌≤◌};
    ghost use Rattle.ut_bits.specs.Bits.{fields};
    ghost use Rattle.ut_bits.specs.Coded.{Coded};

    ghost Value = { Coded };

    ghost view = { λ w. record { width = w.width; codes = fields w.width w.len w.bits.number } };

    ghost invariant = { λ w. (w.width ≤ 32) × (w.len ≤ 2 ^ 31) × (w.bits.count ≡ w.len * w.width) × (w.bits.number < 2 ^ (w.len * w.width)) };
}

impl BitListWriter {
    /// An empty list of codes of `width` bits, with room for `len` of them.
    pub fn with_capacity(alloc: Global, len: u32, width: u8) -> Result<Self, AllocError>
        requires width { width ≤ 32 }
        requires count { len ≤ 2 ^ 31 }
        ensures width { IfOk result (λ w. w.width ≡ width) }
        ensures codes { IfOk result (λ w. w.codes ≡ []) }
    {
        let bytes = (len as usize * usize::from(width) + 7) / 8 + 8;
        Ok(BitListWriter {
            bits: BitWriter::with_capacity(alloc, bytes)?,
            len: 0,
            width,
        })
    }

    /// Writes a code behind the others.
    pub fn push(&mut self, code: u32) -> Result<(), AllocError>
        requires below { code < 2 ^ self.old.width }
        requires room { length self.old.codes < 2 ^ 31 }
        ensures width { self.new.width ≡ self.old.width }
        ensures ok { OnOk result (self.new.codes ≡ self.old.codes ++ code ∷ []) }
        ensures err { OnErr result (self.new.codes ≡ self.old.codes) }
    {
        self.bits.put(code, self.width)?;
        self.len += 1;
        Ok(())
    }

    /// The list of all that was written.
    pub fn finish(self) -> Result<BitList, AllocError>
        ensures width { IfOk result (λ p. p.width ≡ self.width) }
        ensures codes { IfOk result (λ p. p.codes ≡ self.codes) }
    {
        let BitListWriter { bits, len, width } = self;
        let mut bytes = bits.finish()?;
        bytes.extend_from_slice(&[0; 8])?;
        Ok(BitList { bytes, len, width })
    }
}
