//! The codes of a column, from bytes: each key of its own dictionary is used.
ghost use Rattle.std.specs.Prelude.{◌≡◌, ◌≢◌, ◌+◌, ◌-◌, ◌<◌, ℕ, List, false, nat_eq, ◌≤◌, ◌^◌, ◌++◌, ◌↔◌, length, get_or, IsTrue, IfOk, IfSome, IfNone};
ghost use Rattle.std.specs.List.{list_any};
ghost use Rattle.ut_bits.specs.Bits.{AllBelow};
ghost use Rattle.ut_codes.specs.Forms.{code_bytes};
ghost use Rattle.ut_main.specs.Reading.{AreUsed, MayBeCodes};

use std::alloc::{AllocError, Global};
use ut_codes::CodeVec;

// A mark for each of `count` codes from `start` on: whether it stands among the codes.
fn mark_used(
    alloc: Global,
    codes: &CodeVec,
    start: u32,
    count: u32,
) -> Result<Vec<bool>, AllocError>
    requires { AllBelow (start + count) codes.now.codes }
    ensures count { IfOk result (λ marks. length marks.items ≡ count) }
    ensures marks { IfOk result (λ marks. (i : ℕ) → i < count
        → get_or marks.items i false ≡ list_any (nat_eq (start + i)) codes.now.codes) }
{
    let mut marks = vec![in alloc; false; count as usize]?;
    for i in 0..codes.len() {
        let code = codes.get(i);
        if start <= code {
            marks[(code - start) as usize] = true;
        }
    }
    Ok(marks)
}

// Whether each of `count` codes from `start` on stands among the codes.
fn are_used(alloc: Global, codes: &CodeVec, start: u32, count: u32) -> Result<bool, AllocError>
    requires { AllBelow (start + count) codes.now.codes }
    ensures { IfOk result (λ b. IsTrue b ↔ AreUsed start count codes.now.codes) }
{
    let marks = mark_used(alloc, codes, start, count)?;
    for i in 0..count {
        if !marks[i as usize] {
            return Ok(false);
        }
    }
    Ok(true)
}

/// The codes that begin the bytes, and what stands behind them. They are below `reach`, and those
/// from `start` on are used.
pub(crate) fn codes_from(
    alloc: Global,
    bytes: &[u8],
    rows: u32,
    start: u32,
    reach: u32,
) -> Result<Option<(CodeVec, &[u8])>, AllocError>
    requires rows { rows ≤ 2147483647 }
    requires start { start ≤ reach }
    ensures reach { IfOk result (λ found. IfSome found (λ r. r.0.reach ≡ reach)) }
    ensures some { IfOk result (λ found. IfSome found (λ r.
        MayBeCodes rows start reach r.0.codes × (bytes.now ≡ code_bytes r.0.codes reach ++ r.1.now))) }
    ensures none { IfOk result (λ found. IfNone found (
        (codes rest : List ℕ) → MayBeCodes rows start reach codes
        → bytes.now ≢ code_bytes codes reach ++ rest)) }
{
    match CodeVec::from_bytes(alloc, bytes, rows, reach)? {
        Some((codes, size)) => {
            if are_used(alloc, &codes, start, reach - start)? {
                Ok(Some((codes, &bytes[size..])))
            } else {
                Ok(None)
            }
        }
        None => Ok(None),
    }
}
