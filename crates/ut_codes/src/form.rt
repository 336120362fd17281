//! The forms of a code vector.
ghost use Rattle.std.specs.Prelude.{◌≡◌, ◌+◌, ◌*◌, ◌≤◌};
ghost use Rattle.ut_codes.specs.Sizes.{code_width, IsWidth};

/// The forms of a code vector.
#[derive(Clone, Copy, PartialEq, Eq, Debug)]
pub enum Form {
    Packed,
    Runs,
    Sparse,
}

/// The least width in bits that holds `reach` codes.
pub fn width_of(reach: u32) -> u8
    ensures width { result ≡ code_width reach }
    ensures least { IsWidth reach result }
    ensures small { result ≤ 32 }
{
    for width in 0..32u8 {
        if u64::from(reach) <= 1u64 << width {
            return width;
        }
    }
    32
}
