//! A code vector in any of its forms.
ghost use Rattle.std.specs.Prelude.{◌≡◌, ◌+◌, ◌^◌, ◌<◌, ◌≤◌, length, slice_index, take, drop, map, List, ℕ, ◌≢◌, IfOk, IfSome, IfNone, OnOk, OnErr, ◌++◌};
ghost use Rattle.ut_bits.specs.Bits.{AllBelow};
ghost use Rattle.ut_bits.specs.Places.{is_in, places_where};
ghost use Rattle.ut_mask.specs.Mask.{both};
ghost use Rattle.ut_codes.specs.Sizes.{code_width};
ghost use Rattle.ut_codes.specs.Forms.{form_of, code_bytes, byte_of, bytes_in};
ghost use Rattle.ut_codes.specs.Shapes.{coded_in, form_in};

use crate::choice::choose;
use crate::form::{Form, width_of};
use crate::reading::{is_least, shape_from};
use std::alloc::{AllocError, Global};
use std::marker::Model;
use ut_bits::cut_at_error;
use ut_mask::Mask;
use ut_packed::Packed;
use ut_rle::Runs;
use ut_sparse::Sparse;

/// A vector in one of the forms.
#[derive(Drop)]
pub enum Shape {
    Packed(Packed),
    Runs(Runs),
    Sparse(Sparse),
}

/// A vector of codes below `reach`, in the form of least size.
pub struct CodeVec {
    shape: Shape,
    reach: u32,
}

// One step of a proof, wherever one is dropped.
impl Drop for CodeVec {
    fn drop(self) {
        let CodeVec { shape: _, reach: _ } = self;
    }
}

impl Model for CodeVec {
    ghost use Rattle.ut_codes.specs.Reached.{Reached};
    ghost use Rattle.ut_codes.specs.Shapes.{coded_in, IsChosen};

    ghost Value = { Reached };

    ghost view = { λ v. record { reach = v.reach; codes = (coded_in v.shape).codes } };

    ghost invariant = { λ v. IsChosen v.shape v.reach };
}

impl CodeVec {
    /// The codes in the form of least size.
    pub fn from_codes(alloc: Global, codes: &[u32], reach: u32) -> Result<Self, AllocError>
        requires below { AllBelow reach codes.now }
        requires count { length codes.now ≤ 2 ^ 31 }
        ensures reach { IfOk result (λ v. v.reach ≡ reach) }
        ensures codes { IfOk result (λ v. v.codes ≡ codes.now) }
    {
        let width = width_of(reach);
        let choice = choose(alloc, codes, reach, width)?;
        let shape = match choice.form {
            Form::Packed => Shape::Packed(Packed::from_codes(alloc, codes, width)?),
            Form::Runs => Shape::Runs(Runs::from_codes(alloc, codes, width)?),
            Form::Sparse => Shape::Sparse(Sparse::leaving_out(alloc, codes, width, choice.top)?),
        };
        Ok(CodeVec { shape, reach })
    }

    pub fn len(&self) -> u32
        ensures len { result ≡ length self.now.codes }
        ensures small { result ≤ 2 ^ 31 }
    {
        match &self.shape {
            Shape::Packed(vector) => vector.len(),
            Shape::Runs(vector) => vector.len(),
            Shape::Sparse(vector) => vector.len(),
        }
    }

    /// How many codes there are to choose from.
    pub fn reach(&self) -> u32
        ensures { result ≡ self.now.reach }
    {
        self.reach
    }

    pub fn form(&self) -> Form
        ensures { result ≡ form_of self.now.codes self.now.reach }
    {
        match &self.shape {
            Shape::Packed(_) => Form::Packed,
            Shape::Runs(_) => Form::Runs,
            Shape::Sparse(_) => Form::Sparse,
        }
    }

    /// How many bits hold each code.
    pub fn width(&self) -> u8
        ensures { result ≡ code_width self.now.reach }
    {
        match &self.shape {
            Shape::Packed(vector) => vector.width(),
            Shape::Runs(vector) => vector.width(),
            Shape::Sparse(vector) => vector.width(),
        }
    }

    pub fn get(&self, i: u32) -> u32
        requires { i < length self.now.codes }
        ensures { result ≡ slice_index self.now.codes i }
    {
        match &self.shape {
            Shape::Packed(vector) => vector.get(i),
            Shape::Runs(vector) => vector.get(i),
            Shape::Sparse(vector) => vector.get(i),
        }
    }

    /// The eight codes from a place on, the form looked at once.
    pub fn eight(&self, i: u32) -> [u32; 8]
        requires { i + 8 ≤ length self.now.codes }
        ensures { result ≡ take 8 (drop i self.now.codes) }
    {
        match &self.shape {
            Shape::Packed(vector) => vector.eight(i),
            _ => self.eight_by_one(i),
        }
    }

    /// The same, each code read by itself.
    fn eight_by_one(&self, i: u32) -> [u32; 8]
        requires { i + 8 ≤ length self.now.codes }
        ensures { result ≡ take 8 (drop i self.now.codes) }
    {
        prove!(i < self.len());
        [
            self.get(i),
            self.get(i + 1),
            self.get(i + 2),
            self.get(i + 3),
            self.get(i + 4),
            self.get(i + 5),
            self.get(i + 6),
            self.get(i + 7),
        ]
    }

    /// All codes in order.
    pub fn codes(&self, alloc: Global) -> Result<Vec<u32>, AllocError>
        ensures codes { IfOk result (λ v. v.items ≡ self.now.codes) }
        ensures below { AllBelow self.now.reach self.now.codes }
    {
        match &self.shape {
            Shape::Packed(vector) => packed_codes(alloc, vector),
            Shape::Runs(vector) => run_codes(alloc, vector),
            Shape::Sparse(vector) => vector.codes(alloc),
        }
    }

    /// Appends the places, ascending, whose code stands in one of the ranges.
    pub fn places_in(&self, ranges: &[(u32, u32)], out: &mut Vec<u32>) -> Result<(), AllocError>
        ensures ok { OnOk result (out.new.items ≡ out.old.items ++ places_where (is_in ranges.now) self.now.codes) }
        ensures err { OnErr result (out.new.items ≡ out.old.items) }
    {
        match &self.shape {
            Shape::Packed(vector) => vector.places_in(ranges, out),
            Shape::Runs(vector) => vector.places_in(ranges, out),
            Shape::Sparse(vector) => vector.places_in(ranges, out),
        }
    }

    /// Keeps of a mask the places whose code stands in one of the ranges.
    pub fn keep_in(&self, ranges: &[(u32, u32)], mask: &mut Mask)
        requires { length mask.old ≡ length self.now.codes }
        ensures { mask.new ≡ both mask.old (map (is_in ranges.now) self.now.codes) }
    {
        match &self.shape {
            Shape::Packed(vector) => vector.keep_in(ranges, mask),
            Shape::Runs(vector) => vector.keep_in(ranges, mask),
            Shape::Sparse(vector) => vector.keep_in(ranges, mask),
        }
    }

    /// Appends the byte of the form, then the form's bytes.
    pub fn bytes_of(&self, out: &mut Vec<u8>) -> Result<(), AllocError>
        ensures ok { OnOk result (out.new.items ≡ out.old.items ++ code_bytes self.now.codes self.now.reach) }
        ensures err { OnErr result (out.new.items ≡ out.old.items) }
    {
        let before = out.len();
        out.push(form_byte(&self.shape))?;
        cut_at_error(append_form(&self.shape, out), before, out)?;
        Ok(())
    }

    /// The vector that begins the bytes, and how many bytes it takes.
    pub fn from_bytes(
        alloc: Global,
        bytes: &[u8],
        rows: u32,
        reach: u32,
    ) -> Result<Option<(CodeVec, usize)>, AllocError>
        requires { rows ≤ 2 ^ 31 }
        ensures within { IfOk result (λ found. IfSome found (λ r. r.1 ≤ length bytes.now)) }
        ensures reach { IfOk result (λ found. IfSome found (λ r. r.0.reach ≡ reach)) }
        ensures rows { IfOk result (λ found. IfSome found (λ r. length r.0.codes ≡ rows)) }
        ensures below { IfOk result (λ found. IfSome found (λ r. AllBelow reach r.0.codes)) }
        ensures spelled { IfOk result (λ found. IfSome found (λ r. take r.1 bytes.now ≡ code_bytes r.0.codes reach)) }
        ensures none { IfOk result (λ found. IfNone found ((codes rest : List ℕ) → length codes ≡ rows → AllBelow reach codes → bytes.now ≢ code_bytes codes reach ++ rest)) }
    {
        if bytes.is_empty() {
            return Ok(None);
        }
        let width = width_of(reach);
        let behind = &bytes[1..];
        let Some((shape, count)) = shape_from(alloc, bytes[0], behind, rows, width)? else {
            return Ok(None);
        };
        if !is_least(alloc, &shape, reach)? {
            return Ok(None);
        }
        Ok(Some((CodeVec { shape, reach }, 1 + count)))
    }
}

// All codes of a packed vector.
fn packed_codes(alloc: Global, vector: &Packed) -> Result<Vec<u32>, AllocError>
    ensures { IfOk result (λ v. v.items ≡ vector.now.codes) }
{
    let mut codes = Vec::new(alloc);
    vector.codes_of(&mut codes)?;
    Ok(codes)
}

// All codes of a vector of runs.
fn run_codes(alloc: Global, vector: &Runs) -> Result<Vec<u32>, AllocError>
    ensures { IfOk result (λ v. v.items ≡ vector.now.codes) }
{
    let mut codes = Vec::new(alloc);
    vector.codes_of(&mut codes)?;
    Ok(codes)
}

// The byte that stands for the form.
fn form_byte(shape: &Shape) -> u8
    ensures { result ≡ byte_of (form_in shape.now) }
{
    match shape {
        Shape::Packed(_) => 0,
        Shape::Runs(_) => 1,
        Shape::Sparse(_) => 2,
    }
}

// Appends the bytes of the codes in their form.
fn append_form(shape: &Shape, out: &mut Vec<u8>) -> Result<(), AllocError>
    ensures ok { OnOk result (out.new.items ≡ out.old.items ++ bytes_in (form_in shape.now) (coded_in shape.now).width (coded_in shape.now).codes) }
    ensures err { OnErr result (out.new.items ≡ out.old.items) }
{
    match shape {
        Shape::Packed(vector) => vector.bytes_of(out),
        Shape::Runs(vector) => vector.bytes_of(out),
        Shape::Sparse(vector) => vector.bytes_of(out),
    }
}
