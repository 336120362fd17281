//! Ranges of codes.
ghost use Rattle.std.specs.Prelude.{◌≡◌, ◌-◌, ◌≤◌, ◌++◌, OnOk, OnErr};
ghost use Rattle.std.specs.List.{range_with_len};
ghost use Rattle.ut_bits.specs.Places.{is_in};

use crate::cut::push_or_cut;
use std::alloc::AllocError;

/// Whether a code stands in one of the ranges, each without its end.
pub fn is_in(code: u32, ranges: &[(u32, u32)]) -> bool
    ensures { result ≡ is_in ranges.now code }
{
    ranges.iter().any(|range| range.0 <= code && code < range.1)
}

/// Appends the places of a range.
pub fn append_range(from: u32, to: u32, out: &mut Vec<u32>) -> Result<(), AllocError>
    requires { from ≤ to }
    ensures ok { OnOk result (out.new.items ≡ out.old.items ++ range_with_len from (to - from)) }
    ensures err { OnErr result (out.new.items ≡ out.old.items) }
{
    let before = out.len();
    for i in from..to {
        push_or_cut(i, before, out)?;
    }
    Ok(())
}
