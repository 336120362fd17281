//! Which codes stand in a list.
ghost use Rattle.std.specs.Prelude.{◌≡◌, ◌+◌, ◌<◌, ℕ, false, length, get_or, nat_eq, IfOk};
ghost use Rattle.std.specs.List.{list_any};
ghost use Rattle.ut_bits.specs.Bits.{AllBelow};

use std::alloc::{AllocError, Global};

/// A mark for each of `count` codes from `first` on: whether it stands among the codes.
pub(crate) fn mark_used(
    alloc: Global,
    codes: &[u32],
    first: u32,
    count: u32,
) -> Result<Vec<bool>, AllocError>
    requires { AllBelow (first + count) codes.now }
    ensures count { IfOk result (λ marks. length marks.items ≡ count) }
    ensures marks { IfOk result (λ marks. (i : ℕ) → i < count
        → get_or marks.items i false ≡ list_any (nat_eq (first + i)) codes.now) }
{
    let mut marks = vec![in alloc; false; count as usize]?;
    for code in codes {
        if first <= *code {
            marks[(*code - first) as usize] = true;
        }
    }
    Ok(marks)
}
