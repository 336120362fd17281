//! The codes that are worked on. They look drawn at random, and are the same each time.
ghost use Rattle.std.specs.Prelude.{◌≡◌, ◌^◌, ◌<◌, ◌≤◌, length, IfOk};
ghost use Rattle.ut_bits.specs.Bits.{AllBelow};

use std::alloc::{AllocError, Global};

/// How codes follow one another.
#[derive(Clone, Copy)]
pub(crate) enum Pattern {
    /// Each is drawn.
    Mixed,
    /// Each is drawn, and stands a hundred times.
    Repeated,
    /// One of twenty is drawn, the others are 0.
    Rare,
    /// Each is one greater than the one before it.
    Ascending,
}

// A number whose bits all depend on those of `x`.
fn scattered(x: u64) -> u64 {
    let y = (x ^ (x >> 31)).wrapping_mul(0x9e37_79b9_7f4a_7c15);
    let z = (y ^ (y >> 29)).wrapping_mul(0xbf58_476d_1ce4_e5b9);
    z ^ (z >> 32)
}

fn drawn(x: u64, reach: u32) -> u32
    requires { 0 < reach }
    ensures { result < reach }
{
    (scattered(x) % u64::from(reach)) as u32
}

fn code_at(pattern: Pattern, i: u32, reach: u32) -> u32
    requires { 0 < reach }
    ensures { result < reach }
{
    match pattern {
        Pattern::Mixed => drawn(u64::from(i), reach),
        Pattern::Repeated => drawn(u64::from(i / 100), reach),
        Pattern::Rare => {
            if drawn(u64::from(i), 20) == 0 {
                drawn(u64::from(i) << 32, reach)
            } else {
                0
            }
        }
        Pattern::Ascending => i.min(reach - 1),
    }
}

/// Codes below `reach`.
pub(crate) fn codes(
    alloc: Global,
    pattern: Pattern,
    count: u32,
    reach: u32,
) -> Result<Vec<u32>, AllocError>
    requires { 0 < reach }
    ensures below { IfOk result (λ v. AllBelow reach v.items) }
    ensures count { IfOk result (λ v. length v.items ≡ count) }
{
    let mut codes = Vec::with_capacity(alloc, count as usize)?;
    for i in 0..count {
        codes.push(code_at(pattern, i, reach))?;
    }
    Ok(codes)
}
