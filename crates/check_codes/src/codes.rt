//! Code vectors: their form and their bytes; and what all modules compare their values by.
ghost use Rattle.std.specs.List.{list_all};
ghost use Rattle.std.specs.Prelude.{◌≡◌, nat_lt};

use std::alloc::{AllocError, Global};
use std::process::Abort;
use ut_codes::{CodeVec, Form, width_of};
use ut_mask::Mask;
use ut_rle::Runs;
use ut_sparse::most_frequent;

pub(crate) fn same_number(rt: &impl Abort, got: u32, wanted: u32) {
    assert_eq!(rt; got, wanted);
}

pub(crate) fn same_place(rt: &impl Abort, got: Option<u32>, wanted: Option<u32>) {
    assert_eq!(rt; got, wanted);
}

pub(crate) fn same_bytes(rt: &impl Abort, got: &[u8], wanted: &[u8]) {
    assert!(rt; got.len() == wanted.len());
    for i in 0..got.len() {
        same_number(rt, u32::from(got[i]), u32::from(wanted[i]));
    }
}

pub(crate) fn same_codes(rt: &impl Abort, got: &[u32], wanted: &[u32]) {
    assert!(rt; got.len() == wanted.len());
    for i in 0..got.len() {
        same_number(rt, got[i], wanted[i]);
    }
}

pub(crate) fn same_eight(rt: &impl Abort, got: [u32; 8], wanted: [u32; 8]) {
    same_codes(rt, &got, &wanted);
}

// Whether every code is below a limit.
fn are_below(codes: &[u32], limit: u32) -> bool
    ensures { result ≡ list_all (λ c. nat_lt c limit) codes.now }
{
    codes.iter().all(|code| *code < limit)
}

fn run_count(rt: &impl Abort, alloc: Global, codes: &[u32], reach: u32) -> Result<u32, AllocError> {
    assert!(rt; codes.len() <= 1000);
    assert!(rt; are_below(codes, reach));
    let width = width_of(reach);
    let runs = Runs::from_codes(alloc, codes, width)?;
    Ok(runs.run_count())
}

// The sizes in bits of the packed form, of runs and of the sparse form.
fn bits_of(rt: &impl Abort, rows: u64, width: u64, frequent: u64, runs: u32) -> [u64; 3] {
    assert!(rt; rows <= 1000 && width <= 32 && frequent <= rows);
    [
        rows * width,
        64 * u64::from(runs),
        rows + (rows - frequent) * width,
    ]
}

// Those sizes of the codes.
fn sizes(
    rt: &impl Abort,
    alloc: Global,
    codes: &[u32],
    reach: u32,
) -> Result<[u64; 3], AllocError> {
    let runs = run_count(rt, alloc, codes, reach)?;
    assert!(rt; codes.len() <= 1000);
    let frequent = most_frequent(alloc, codes)?;
    let (rows, width) = (codes.len() as u64, u64::from(width_of(reach)));
    Ok(bits_of(rt, rows, width, u64::from(frequent.count), runs))
}

/// A vector of the codes, which has this form.
pub(crate) fn vector_of(
    rt: &impl Abort,
    alloc: Global,
    codes: &[u32],
    reach: u32,
    form: Form,
) -> Result<CodeVec, AllocError> {
    assert!(rt; codes.len() <= 1 << 31);
    assert!(rt; are_below(codes, reach));
    let vector = CodeVec::from_codes(alloc, codes, reach)?;
    assert!(rt; vector.form() == form);
    Ok(vector)
}

fn bytes_of(alloc: Global, vector: &CodeVec) -> Result<Vec<u8>, AllocError> {
    let mut bytes = Vec::new(alloc);
    vector.bytes_of(&mut bytes)?;
    Ok(bytes)
}

fn has_codes(rt: &impl Abort, vector: &CodeVec, codes: &[u32]) {
    for i in 0..codes.len() {
        assert!(rt; i < vector.len() as usize);
        same_number(rt, vector.get(i as u32), codes[i]);
    }
}

// Such a vector, of all the bytes, is the vector again.
fn is_again(
    rt: &impl Abort,
    again: &(CodeVec, usize),
    vector: &CodeVec,
    bytes: &[u8],
    codes: &[u32],
) {
    let is_alike = again.0.form() == vector.form() && again.0.width() == vector.width();
    assert!(rt; is_alike && again.1 == bytes.len());
    has_codes(rt, &again.0, codes);
}

// The bytes are those of the vector again.
fn is_read_back(
    rt: &impl Abort,
    alloc: Global,
    vector: &CodeVec,
    bytes: &[u8],
    codes: &[u32],
) -> Result<(), AllocError> {
    let read = CodeVec::from_bytes(alloc, bytes, vector.len(), vector.reach())?;
    match &read {
        Some(again) => is_again(rt, again, vector, bytes, codes),
        None => panic!(rt; "not read back"),
    }
    drop(read);
    Ok(())
}

// The bytes of a vector of the codes, which is read back from them.
fn written(
    rt: &impl Abort,
    alloc: Global,
    vector: &CodeVec,
    codes: &[u32],
) -> Result<Vec<u8>, AllocError> {
    let bytes = bytes_of(alloc, vector)?;
    is_read_back(rt, alloc, vector, &bytes, codes)?;
    Ok(bytes)
}

// The same of the vector of a form that the codes make.
fn vector_bytes(
    rt: &impl Abort,
    alloc: Global,
    codes: &[u32],
    reach: u32,
    form: Form,
) -> Result<Vec<u8>, AllocError> {
    let vector = vector_of(rt, alloc, codes, reach, form)?;
    let bytes = written(rt, alloc, &vector, codes);
    drop(vector);
    bytes
}

/// Codes below a limit, with the sizes, the form and the bytes that they have.
#[derive(Clone, Copy)]
struct Case<'a> {
    codes: &'a [u32],
    reach: u32,
    sizes: [u64; 3],
    form: Form,
    bytes: &'a [u8],
}

fn has_bytes(rt: &impl Abort, alloc: Global, case: &Case<'_>) -> Result<(), AllocError> {
    let sizes = sizes(rt, alloc, case.codes, case.reach)?;
    assert!(rt; sizes == case.sizes);
    let bytes = vector_bytes(rt, alloc, case.codes, case.reach, case.form)?;
    same_bytes(rt, &bytes, case.bytes);
    Ok(())
}

const SHORT: [Case<'static>; 2] = [
    Case {
        codes: &[0, 1, 2],
        reach: 3,
        sizes: [6, 192, 7],
        form: Form::Packed,
        bytes: &[0, 0x24],
    },
    Case {
        codes: &[3, 1, 4],
        reach: 5,
        sizes: [9, 192, 9],
        form: Form::Packed,
        bytes: &[0, 0x0b, 0x01],
    },
];

#[test]
fn vectors_have_their_bytes(rt: HostRuntime) -> Result<(), AllocError> {
    for case in &SHORT {
        has_bytes(&rt, rt.alloc(), case)?;
    }
    Ok(())
}

// A thousand codes: so many zeros, then ones.
fn zeros_and_ones(alloc: Global, zeros: usize) -> Result<Vec<u32>, AllocError> {
    let mut codes = Vec::new(alloc);
    codes.resize(zeros, 0)?;
    codes.resize(1000, 1)?;
    Ok(codes)
}

#[test]
fn zeros_take_no_bits(rt: HostRuntime) -> Result<(), AllocError> {
    let alloc = rt.alloc();
    let zeros = zeros_and_ones(alloc, 1000)?;
    let case = Case {
        codes: &zeros,
        reach: 1,
        sizes: [0, 64, 1000],
        form: Form::Packed,
        bytes: &[0],
    };
    has_bytes(&rt, alloc, &case)
}

#[test]
fn two_runs_are_kept_as_runs(rt: HostRuntime) -> Result<(), AllocError> {
    let alloc = rt.alloc();
    let halves = zeros_and_ones(alloc, 600)?;
    let case = Case {
        codes: &halves,
        reach: 2,
        sizes: [1000, 128, 1400],
        form: Form::Runs,
        bytes: &[
            1, 2, 0, 0, 0, 0, 0, 0, 0, 0x58, 2, 0, 0, 1, 0, 0, 0, 0x90, 1, 0, 0,
        ],
    };
    has_bytes(&rt, alloc, &case)
}

// A hundred codes: zeros, and in each tenth place another one.
fn tenths(alloc: Global) -> Result<Vec<u32>, AllocError> {
    let mut codes = Vec::new(alloc);
    for i in 0..100u32 {
        codes.push(if i % 10 == 5 { i / 10 + 1 } else { 0 })?;
    }
    Ok(codes)
}

fn are_sparse(rt: &impl Abort, alloc: Global, codes: &[u32]) -> Result<(), AllocError> {
    let sizes = sizes(rt, alloc, codes, 11)?;
    let bytes = vector_bytes(rt, alloc, codes, 11, Form::Sparse)?;
    assert!(rt; sizes == [400, 1344, 140] && bytes.len() == 1 + 4 + 13 + 5);
    Ok(())
}

#[test]
fn few_exceptions_are_sparse(rt: HostRuntime) -> Result<(), AllocError> {
    let alloc = rt.alloc();
    assert!(rt; width_of(11) == 4);
    let codes = tenths(alloc)?;
    are_sparse(&rt, alloc, &codes)
}

// A code of a vector that has this form: again and again from zero, in runs of a hundred, or zero but in each twentieth
// place.
fn code_at(form: Form, place: u32) -> u32 {
    match form {
        Form::Packed => place % 128,
        Form::Runs => place / 100,
        Form::Sparse => { if place % 20 == 0 { place / 20 + 1 } else { 0 } }
    }
}

// A thousand codes whose vector has this form.
fn thousand(alloc: Global, form: Form) -> Result<Vec<u32>, AllocError> {
    let mut codes = Vec::new(alloc);
    for place in 0..1000u32 {
        codes.push(code_at(form, place))?;
    }
    Ok(codes)
}

// How many places a mask keeps of a vector.
fn kept(
    rt: &impl Abort,
    alloc: Global,
    vector: &CodeVec,
    ranges: &[(u32, u32)],
) -> Result<u32, AllocError> {
    let mut mask = Mask::new(alloc, vector.len())?;
    assert!(rt; mask.len() == vector.len());
    vector.keep_in(ranges, &mut mask);
    Ok(mask.count())
}

// How many it keeps of the vector of a form that codes make.
fn kept_of(
    rt: &impl Abort,
    alloc: Global,
    codes: &[u32],
    form: Form,
    ranges: &[(u32, u32)],
) -> Result<u32, AllocError> {
    let vector = vector_of(rt, alloc, codes, 128, form)?;
    let places = kept(rt, alloc, &vector, ranges);
    drop(vector);
    places
}

// A mask keeps so many places of a vector of a thousand codes.
fn keeps(
    rt: &impl Abort,
    alloc: Global,
    form: Form,
    ranges: &[(u32, u32)],
    count: u32,
) -> Result<(), AllocError> {
    let codes = thousand(alloc, form)?;
    let places = kept_of(rt, alloc, &codes, form, ranges)?;
    same_number(rt, places, count);
    Ok(())
}

const LOW: &[(u32, u32)] = &[(0, 5), (100, 101)];

const HIGH: &[(u32, u32)] = &[(3, 9), (40, 60)];

/// A form, ranges, and how many places stay.
const KEPT: [(Form, &[(u32, u32)], u32); 4] = [
    (Form::Packed, LOW, 48),
    (Form::Runs, LOW, 500),
    (Form::Sparse, LOW, 954),
    (Form::Sparse, HIGH, 17),
];

#[test]
fn a_mask_keeps_the_places_in_ranges(rt: HostRuntime) -> Result<(), AllocError> {
    for (form, ranges, count) in KEPT {
        keeps(&rt, rt.alloc(), form, ranges, count)?;
    }
    Ok(())
}
