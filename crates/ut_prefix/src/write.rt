//! Writing keys as blocks.
ghost use Rattle.std.specs.Prelude.{◌≡◌, ◌<◌, ◌≤◌, ◌++◌, length, OnOk, slice_range};
ghost use Rattle.ut_prefix.specs.Spelling.{block_bytes, key_bytes, shared};

use std::alloc::AllocError;
use ut_key::KeyList;

/// How many first bytes two keys share.
fn shared_len(a: &[u8], b: &[u8]) -> usize
    ensures shared { result ≡ shared a.now b.now }
    ensures within_first { result ≤ length a.now }
    ensures within_second { result ≤ length b.now }
{
    let end = a.len().min(b.len());
    for i in 0..end {
        if a[i] != b[i] {
            return i;
        }
    }
    end
}

/// Writes a key behind another.
fn write_key(before: &[u8], key: &[u8], out: &mut Vec<u8>) -> Result<(), AllocError>
    requires { length key.now ≤ 255 }
    ensures { OnOk result (out.new.items ≡ out.old.items ++ key_bytes before.now key.now) }
{
    let count = shared_len(before, key);
    out.push(count as u8)?;
    out.push((key.len() - count) as u8)?;
    out.extend_from_slice(&key[count..])?;
    Ok(())
}

/// Writes the keys from place `start` up to place `end` as a block.
pub(crate) fn write_block(
    keys: &KeyList,
    start: usize,
    end: usize,
    out: &mut Vec<u8>,
) -> Result<(), AllocError>
    requires some { start < end }
    requires within { end ≤ length keys.now }
    ensures { OnOk result (
        out.new.items ≡ out.old.items ++ block_bytes (slice_range keys.now start end)) }
{
    let first = keys.key(start);
    out.push(first.len() as u8)?;
    out.extend_from_slice(first)?;
    for i in start + 1..end {
        write_key(keys.key(i - 1), keys.key(i), out)?;
    }
    Ok(())
}
