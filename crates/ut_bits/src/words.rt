//! Numbers as bytes spell them.
ghost use Rattle.std.specs.Prelude.{◌≡◌, ◌≤◌, ◌++◌, length, OnOk, OnErr};
ghost use Rattle.ut_bits.specs.Words.{word_bytes, word_in};

use byteorder::{ByteOrder, LittleEndian};
use std::alloc::AllocError;

/// The number that the first four bytes spell.
pub fn read_word(bytes: &[u8]) -> u32
    requires { 4 ≤ length bytes.now }
    ensures { result ≡ word_in bytes.now }
{
    LittleEndian::read_u32(bytes)
}

/// Appends the four bytes of a number.
pub fn append_word(word: u32, out: &mut Vec<u8>) -> Result<(), AllocError>
    ensures ok { OnOk result (out.new.items ≡ out.old.items ++ word_bytes word) }
    ensures err { OnErr result (out.new.items ≡ out.old.items) }
{
    out.extend_from_slice(&word.to_le_bytes())?;
    Ok(())
}

/// Appends the bytes of two numbers at once.
pub fn append_words(first: u32, second: u32, out: &mut Vec<u8>) -> Result<(), AllocError>
    ensures ok { OnOk result (out.new.items ≡ out.old.items ++ (word_bytes first ++ word_bytes second)) }
    ensures err { OnErr result (out.new.items ≡ out.old.items) }
{
    let both = u64::from(second) << 32 | u64::from(first);
    out.extend_from_slice(&both.to_le_bytes())?;
    Ok(())
}
