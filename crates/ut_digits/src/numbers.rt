//! Bytes and numbers put where there is room for them, which can't fail.
ghost use Rattle.std.specs.Prelude.{◌≡◌, ◌≤◌, ◌+◌, ◌++◌, length, vec_len, vec_capacity};

use itoa::{Buffer, Integer};

/// Puts bytes at the end.
pub fn add(out: &mut Vec<u8>, bytes: &[u8])
    requires room { vec_len out.old + length bytes.now ≤ vec_capacity out.old }
    ensures text { out.new.items ≡ out.old.items ++ bytes.now }
    ensures len { vec_len out.new ≡ vec_len out.old + length bytes.now }
    ensures capacity { vec_capacity out.old ≤ vec_capacity out.new }
{
    // There is room, so that it takes no memory, and can't fail.
    let _ = out.extend_from_slice(bytes);
}

/// Puts a number in decimal at the end.
pub fn add_number<I: Integer>(out: &mut Vec<u8>, n: I)
    requires room { vec_len out.old + I.MAX_STR_LEN ≤ vec_capacity out.old }
    ensures text { out.new.items ≡ out.old.items ++ I.text n }
    ensures len { vec_len out.new ≤ vec_len out.old + I.MAX_STR_LEN }
    ensures capacity { vec_capacity out.old ≤ vec_capacity out.new }
{
    let mut buffer = Buffer::new();
    add(out, buffer.format(n).as_bytes());
}
