//! Which form takes the fewest bytes.
ghost use Rattle.std.specs.Prelude.{◌≡◌, ◌+◌, ◌-◌, ◌*◌, ◌^◌, ◌≤◌, length, IfOk, IsTrue, ◌↔◌};
ghost use Rattle.std.specs.List.{list_all};
ghost use Rattle.std.specs.Prelude.{nat_lt};
ghost use Rattle.ut_bits.specs.Bits.{AllBelow};
ghost use Rattle.ut_rle.specs.Runs.{runs_of};
ghost use Rattle.ut_sparse.specs.Frequent.{count_of, IsMostFrequent};
ghost use Rattle.ut_codes.specs.Sizes.{code_width};
ghost use Rattle.ut_codes.specs.Forms.{form_of, least_form};

use crate::form::Form;
use std::alloc::{AllocError, Global};
use ut_sparse::{Frequency, most_frequent};

/// A form, and the code that the sparse one leaves out.
#[derive(Clone, Copy)]
pub(crate) struct Choice {
    pub form: Form,
    pub top: Frequency,
}

/// The form of least size.
pub(crate) fn choose(
    alloc: Global,
    codes: &[u32],
    reach: u32,
    width: u8,
) -> Result<Choice, AllocError>
    requires count { length codes.now ≤ 2 ^ 31 }
    requires width { width ≡ code_width reach }
    requires narrow { width ≤ 32 }
    ensures form { IfOk result (λ c. c.form ≡ form_of codes.now reach) }
    ensures counted { IfOk result (λ c. c.top.count ≡ count_of c.top.code codes.now) }
    ensures most { IfOk result (λ c. IsMostFrequent codes.now c.top.code) }
{
    let top = most_frequent(alloc, codes)?;
    let rows = codes.len() as u32;
    let form = least(rows, width, count_runs(codes), rows - top.count);
    Ok(Choice { form, top })
}

/// How many runs of equal codes there are.
pub(crate) fn count_runs(codes: &[u32]) -> u32
    requires { length codes.now ≤ 2 ^ 31 }
    ensures { result ≡ length (runs_of codes.now) }
{
    if codes.is_empty() {
        return 0;
    }
    let mut count = 1;
    for i in 1..codes.len() {
        if codes[i] != codes[i - 1] {
            count += 1;
        }
    }
    count
}

/// The form of the least of three sizes.
pub(crate) fn least(rows: u32, width: u8, runs: u32, exceptions: u32) -> Form
    requires { width ≤ 32 }
    ensures { result ≡ least_form (rows * width) (64 * runs) (rows + exceptions * width) }
{
    let packed = u64::from(rows) * u64::from(width);
    let runs = 64 * u64::from(runs);
    let sparse = u64::from(rows) + u64::from(exceptions) * u64::from(width);
    if packed <= runs && packed <= sparse {
        Form::Packed
    } else if runs <= sparse {
        Form::Runs
    } else {
        Form::Sparse
    }
}

/// Whether every code is below a limit.
pub(crate) fn are_below(codes: &[u32], limit: u32) -> bool
    ensures { result ≡ list_all (λ c. nat_lt c limit) codes.now }
{
    codes.iter().all(|code| *code < limit)
}
