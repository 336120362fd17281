//! Numbers of a few bits each, written one behind the other.
ghost use Rattle.std.specs.Prelude.{◌≡◌, ◌+◌, ◌*◌, ◌^◌, ◌<◌, ◌≤◌, length, IfOk, OnOk, OnErr};
ghost use Rattle.ut_bits.specs.Bits.{bytes_of, byte_count};

use std::alloc::{AllocError, Global};
use std::marker::Model;

/// Numbers of a few bits each, written one after the other, the lowest bits first.
#[derive(Drop)]
pub(crate) struct BitWriter {
    bytes: Vec<u8>,
    word: u64,
    bits: u32,
}

impl Model for BitWriter {
    ghost use Rattle.std.specs.Prelude.{◌+◌, ◌*◌, ◌^◌, ◌<◌, length};
    ghost use Rattle.ut_bits.specs.Bits.{AllBelow, BitString, number_of};

    ghost Value = { BitString };

    ghost view = { λ w. record { count = 8 * length w.bytes.items + w.bits; number = number_of w.bytes.items + 256 ^ length w.bytes.items * w.word } };

    ghost invariant = { λ w. (w.bits < 32) × (w.word < 2 ^ w.bits) × AllBelow 256 w.bytes.items };
}

impl BitWriter {
    pub fn with_capacity(alloc: Global, bytes: usize) -> Result<Self, AllocError>
        ensures { IfOk result (λ w. (w.count ≡ 0) × (w.number ≡ 0)) }
    {
        Ok(BitWriter {
            bytes: Vec::with_capacity(alloc, bytes)?,
            word: 0,
            bits: 0,
        })
    }

    /// Writes the lowest `width` bits of `value`.
    pub fn put(&mut self, value: u32, width: u8) -> Result<(), AllocError>
        requires width { width ≤ 32 }
        requires value { value < 2 ^ width }
        ensures count { OnOk result (self.new.count ≡ self.old.count + width) }
        ensures number { OnOk result (self.new.number ≡ self.old.number + 2 ^ self.old.count * value) }
        ensures err { OnErr result (self.new ≡ self.old) }
    {
        let word = (u64::from(value) << self.bits) | self.word;
        let bits = self.bits + u32::from(width);
        if bits >= 32 {
            let low = (word & 0xffff_ffff) as u32;
            self.bytes.extend_from_slice(&low.to_le_bytes())?;
            self.word = word >> 32;
            self.bits = bits - 32;
        } else {
            self.word = word;
            self.bits = bits;
        }
        Ok(())
    }

    /// The bytes of all that was written; unused bits of the last byte are 0.
    pub fn finish(self) -> Result<Vec<u8>, AllocError>
        ensures { IfOk result (λ v. v.items ≡ bytes_of (byte_count self.count) self.number) }
    {
        let BitWriter {
            mut bytes,
            word,
            bits,
        } = self;
        let rest = word.to_le_bytes();
        bytes.extend_from_slice(&rest[..(bits as usize + 7) / 8])?;
        Ok(bytes)
    }
}
