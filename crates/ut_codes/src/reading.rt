//! A code vector out of its bytes.
ghost use Rattle.std.specs.Prelude.{◌≡◌, ◌^◌, ◌≤◌, ◌↔◌, IsTrue, ◌++◌, ◌≢◌, List, ℕ, length, take, IfOk, IfSome, IfNone};
ghost use Rattle.ut_bits.specs.Bits.{AllBelow};
ghost use Rattle.ut_codes.specs.Sizes.{code_width};
ghost use Rattle.ut_codes.specs.Forms.{form_of, byte_of, bytes_in};
ghost use Rattle.ut_codes.specs.Shapes.{coded_in, form_in, IsForm};
ghost use Rattle.ut_codes.specs.declared.form.Form.{Form};
ghost use Rattle.ut_codes.specs.declared.form.Form.TheVariants.{Packed as packed_form, Runs as runs_form, Sparse as sparse_form};

use crate::choice::{are_below, choose, count_runs, least};
use crate::code_vec::Shape;
use crate::form::Form;
use std::alloc::{AllocError, Global};
use ut_packed::Packed;
use ut_rle::Runs;
use ut_sparse::Sparse;

/// The vector that begins the bytes, in the form that a byte stands for, and how many it takes.
pub(crate) fn shape_from(
    alloc: Global,
    form: u8,
    bytes: &[u8],
    rows: u32,
    width: u8,
) -> Result<Option<(Shape, usize)>, AllocError>
    requires width { width ≤ 32 }
    requires rows { rows ≤ 2 ^ 31 }
    ensures within { IfOk result (λ found. IfSome found (λ r. r.1 ≤ length bytes.now)) }
    ensures form { IfOk result (λ found. IfSome found (λ r. byte_of (form_in r.0) ≡ form)) }
    ensures width { IfOk result (λ found. IfSome found (λ r. (coded_in r.0).width ≡ width)) }
    ensures rows { IfOk result (λ found. IfSome found (λ r. length (coded_in r.0).codes ≡ rows)) }
    ensures below { IfOk result (λ found. IfSome found (λ r. AllBelow (2 ^ width) (coded_in r.0).codes)) }
    ensures spelled { IfOk result (λ found. IfSome found (λ r. take r.1 bytes.now ≡ bytes_in (form_in r.0) width (coded_in r.0).codes)) }
    ensures none { IfOk result (λ found. IfNone found ((f : Form) (codes rest : List ℕ) → byte_of f ≡ form → length codes ≡ rows → AllBelow (2 ^ width) codes → bytes.now ≢ bytes_in f width codes ++ rest)) }
{
    match form {
        0 => match Packed::from_bytes(alloc, bytes, rows, width)? {
            Some((vector, count)) => Ok(Some((Shape::Packed(vector), count))),
            None => Ok(None),
        },
        1 => match Runs::from_bytes(alloc, bytes, rows, width)? {
            Some((vector, count)) => Ok(Some((Shape::Runs(vector), count))),
            None => Ok(None),
        },
        2 => match Sparse::from_bytes(alloc, bytes, rows, width)? {
            Some((vector, count)) => Ok(Some((Shape::Sparse(vector), count))),
            None => Ok(None),
        },
        _ => Ok(None),
    }
}

// Whether the codes are below their reach and their form of least size is this one.
fn is_form(
    alloc: Global,
    codes: &[u32],
    reach: u32,
    width: u8,
    form: Form,
) -> Result<bool, AllocError>
    requires count { length codes.now ≤ 2 ^ 31 }
    requires width { width ≡ code_width reach }
    requires narrow { width ≤ 32 }
    ensures { IfOk result (λ b. IsTrue b ↔ IsForm codes.now reach form) }
{
    if !are_below(codes, reach) {
        return Ok(false);
    }
    let choice = choose(alloc, codes, reach, width)?;
    Ok(is_same(choice.form, form))
}

fn is_same(a: Form, b: Form) -> bool
    ensures { IsTrue result ↔ (a ≡ b) }
{
    match a {
        Form::Packed => match b {
            Form::Packed => true,
            _ => false,
        },
        Form::Runs => match b {
            Form::Runs => true,
            _ => false,
        },
        Form::Sparse => match b {
            Form::Sparse => true,
            _ => false,
        },
    }
}

// Whether packed is the form of least size. Codes of no bits are not written out: their number
// may be great, and their size is 0.
fn is_packed_least(alloc: Global, vector: &Packed, reach: u32) -> Result<bool, AllocError>
    requires width { vector.now.width ≡ code_width reach }
    requires below { AllBelow (2 ^ vector.now.width) vector.now.codes }
    requires count { length vector.now.codes ≤ 2 ^ 31 }
    ensures { IfOk result (λ b. IsTrue b ↔ IsForm vector.now.codes reach packed_form) }
{
    let width = vector.width();
    if width == 0 {
        return Ok(reach > 0 || vector.len() == 0);
    }
    let mut codes = Vec::new(alloc);
    vector.codes_of(&mut codes)?;
    is_form(alloc, codes.as_slice(), reach, width, Form::Packed)
}

// Whether runs is the form of least size. Where the runs are few the codes are not written out:
// the sparse form then has more bits by its marks alone.
fn is_runs_least(alloc: Global, vector: &Runs, reach: u32) -> Result<bool, AllocError>
    requires width { vector.now.width ≡ code_width reach }
    ensures { IfOk result (λ b. IsTrue b ↔ IsForm vector.now.codes reach runs_form) }
{
    let width = vector.width();
    let runs = 64 * u64::from(vector.run_count());
    let rows = u64::from(vector.len());
    if runs <= rows {
        return Ok(vector.are_below(reach) && runs < rows * u64::from(width));
    }
    let mut codes = Vec::new(alloc);
    vector.codes_of(&mut codes)?;
    is_form(alloc, codes.as_slice(), reach, width, Form::Runs)
}

// Whether sparse is the form of least size. The vector knows how many codes differ from the most
// frequent one, so that they are not counted again.
fn is_sparse_least(alloc: Global, vector: &Sparse, reach: u32) -> Result<bool, AllocError>
    requires width { vector.now.width ≡ code_width reach }
    requires count { length vector.now.codes ≤ 2 ^ 31 }
    ensures { IfOk result (λ b. IsTrue b ↔ IsForm vector.now.codes reach sparse_form) }
{
    let codes = vector.codes(alloc)?;
    let codes = codes.as_slice();
    if !are_below(codes, reach) {
        return Ok(false);
    }
    let runs = count_runs(codes);
    let form = least(vector.len(), vector.width(), runs, vector.exceptions());
    Ok(is_same(form, Form::Sparse))
}

/// Whether the codes are below their reach and in their form of least size.
pub(crate) fn is_least(alloc: Global, shape: &Shape, reach: u32) -> Result<bool, AllocError>
    requires width { (coded_in shape.now).width ≡ code_width reach }
    requires below { AllBelow (2 ^ (coded_in shape.now).width) (coded_in shape.now).codes }
    requires count { length (coded_in shape.now).codes ≤ 2 ^ 31 }
    ensures { IfOk result (λ b. IsTrue b ↔ IsForm (coded_in shape.now).codes reach (form_in shape.now)) }
{
    match shape {
        Shape::Packed(vector) => is_packed_least(alloc, vector, reach),
        Shape::Runs(vector) => is_runs_least(alloc, vector, reach),
        Shape::Sparse(vector) => is_sparse_least(alloc, vector, reach),
    }
}
