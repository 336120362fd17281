//! Words of 64 bits, each bit the place of a mask.
ghost use Rattle.std.specs.Prelude.{ℕ, ◌≡◌, ◌+◌, ◌-◌, ◌^◌, ◌<◌, ◌≤◌, ◌++◌, replicate, true, false, not, slice_index_or};
ghost use Rattle.std.specs.List.{list_all};
ghost use Rattle.ut_mask.specs.Mask.{word_bits};

/// The word whose lowest `count` bits are set.
pub(crate) fn ones(count: u32) -> u64
    requires { count ≤ 64 }
    ensures { result + 1 ≡ 2 ^ count }
{
    if count == 64 {
        return u64::MAX;
    }
    (1u64 << count) - 1
}

/// The word whose bits are set but for those from one on to the end of a range.
pub(crate) fn ones_outside(from: u32, to: u32) -> u64
    requires order { from ≤ to }
    requires within { to ≤ 64 }
    ensures { word_bits result ≡ replicate from true ++ (replicate (to - from) false ++ replicate (64 - to) true) }
{
    ones(from) + (u64::MAX - ones(to))
}

/// The lowest bit from one on that is set, 64 where there is none.
pub(crate) fn lowest_from(word: u64, from: u32) -> u32
    requires { from < 64 }
    ensures behind { from ≤ result }
    ensures within { result ≤ 64 }
    ensures stands { result < 64 → slice_index_or (word_bits word) result false ≡ true }
    ensures first { (j : ℕ) → from ≤ j → j < result → slice_index_or (word_bits word) j false ≡ false }
{
    let rest = word >> from;
    if rest == 0 {
        return 64;
    }
    from + rest.trailing_zeros()
}

/// Whether no bit is set.
pub(crate) fn is_clear(word: u64) -> bool
    ensures { result ≡ list_all not (word_bits word) }
{
    word == 0
}
