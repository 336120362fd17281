//! Times the calls of code vectors.
ghost use Rattle.std.specs.Prelude.{◌^◌, ◌<◌, ◌≤◌, length};
ghost use Rattle.ut_bits.specs.Bits.{AllBelow};

use crate::draws::{Pattern, codes};
use crate::watch::say;
use anyhow::Result;
use std::alloc::Global;
use std::rt::Clock;
use std::time::Instant;
use ut_codes::{CodeVec, width_of};
use ut_mask::Mask;
use ut_packed::Packed;

/// On what the calls are timed, and of which codes.
#[derive(Drop)]
struct Bench<'a, R> {
    rt: &'a R,
    alloc: Global,
    subject: &'a str,
}

impl<'a, R: Print + Eprint + Clock> Bench<'a, R> {
    // Says what a call answered, and how long it took.
    fn say(&self, call: &str, start: Instant, answer: u64) -> Result<()> {
        say(self.rt, self.subject, call, start, answer)
    }
}

// The sum of all codes, read in order.
fn sum(vector: &CodeVec) -> u64 {
    let mut sum = 0u64;
    for i in 0..vector.len() {
        sum = sum.wrapping_add(u64::from(vector.get(i)));
    }
    sum
}

fn time_reading<R: Print + Eprint + Clock>(
    bench: &Bench<'_, R>,
    bytes: &[u8],
    rows: u32,
    reach: u32,
) -> Result<()>
    requires { rows ≤ 2 ^ 31 }
{
    let start = Instant::now(bench.rt)?;
    let size = match CodeVec::from_bytes(bench.alloc, bytes, rows, reach)? {
        Some((_, size)) => size,
        None => 0,
    };
    bench.say("from_bytes", start, size as u64)
}

// Times a scan that lists places.
fn time_range<R: Print + Eprint + Clock>(
    bench: &Bench<'_, R>,
    call: &str,
    vector: &CodeVec,
    ranges: &[(u32, u32)],
    places: &mut Vec<u32>,
) -> Result<()> {
    let start = Instant::now(bench.rt)?;
    vector.places_in(ranges, places)?;
    bench.say(call, start, places.len() as u64)
}

// The second range holds the code 0.
fn time_places<R: Print + Eprint + Clock>(
    bench: &Bench<'_, R>,
    vector: &CodeVec,
    reach: u32,
) -> Result<()> {
    let mut places = Vec::new(bench.alloc);
    let range = [(reach / 4, reach / 2)];
    time_range(bench, "places_in", vector, &range, &mut places)?;
    let mut low = Vec::new(bench.alloc);
    let range = [(0, reach / 2)];
    time_range(bench, "places_in_low", vector, &range, &mut low)
}

// Times a scan that narrows a mask of all rows.
fn time_mask<R: Print + Eprint + Clock>(
    bench: &Bench<'_, R>,
    call: &str,
    vector: &CodeVec,
    ranges: &[(u32, u32)],
) -> Result<()> {
    let mut mask = Mask::new(bench.alloc, vector.len())?;
    let start = Instant::now(bench.rt)?;
    vector.keep_in(ranges, &mut mask);
    bench.say(call, start, u64::from(mask.count()))
}

// Narrows by one range, by two, and by a range of one code.
fn time_masks<R: Print + Eprint + Clock>(
    bench: &Bench<'_, R>,
    vector: &CodeVec,
    reach: u32,
) -> Result<()> {
    let range = [(reach / 4, reach / 2)];
    time_mask(bench, "keep_in", vector, &range)?;
    let ranges = [(0, reach / 4), (reach / 2, reach)];
    time_mask(bench, "keep_in_but", vector, &ranges)?;
    let code = reach / 2;
    time_mask(bench, "keep_one", vector, &[(code, code + 1)])
}

fn time_scans<R: Print + Eprint + Clock>(
    bench: &Bench<'_, R>,
    vector: &CodeVec,
    reach: u32,
) -> Result<()> {
    let start = Instant::now(bench.rt)?;
    let sum = sum(vector);
    bench.say("get", start, sum)?;
    time_places(bench, vector, reach)?;
    time_masks(bench, vector, reach)
}

// Times writing the bytes, which then stay.
fn time_bytes<R: Print + Eprint + Clock>(
    bench: &Bench<'_, R>,
    vector: &CodeVec,
    bytes: &mut Vec<u8>,
) -> Result<()> {
    let start = Instant::now(bench.rt)?;
    vector.bytes_of(bytes)?;
    bench.say("bytes_of", start, bytes.len() as u64)
}

fn time_calls<R: Print + Eprint + Clock>(
    bench: &Bench<'_, R>,
    codes: &[u32],
    reach: u32,
) -> Result<()>
    requires below { AllBelow reach codes.now }
    requires few { length codes.now ≤ 2 ^ 31 }
{
    let start = Instant::now(bench.rt)?;
    let vector = CodeVec::from_codes(bench.alloc, codes, reach)?;
    bench.say("from_codes", start, u64::from(vector.width()))?;
    time_scans(bench, &vector, reach)?;
    let mut bytes = Vec::new(bench.alloc);
    time_bytes(bench, &vector, &mut bytes)?;
    time_reading(bench, bytes.as_slice(), vector.len(), reach)?;
    // The packed form alone, which the choice of a form is no part of.
    let width = width_of(reach);
    let start = Instant::now(bench.rt)?;
    let packed = Packed::from_codes(bench.alloc, codes, width)?;
    bench.say("pack", start, u64::from(packed.len()))
}

/// Times the calls at so many codes of a pattern.
pub(crate) fn time_all<R: Print + Eprint + Clock>(
    rt: &R,
    alloc: Global,
    subject: &str,
    pattern: Pattern,
    count: u32,
    reach: u32,
) -> Result<()>
    requires some { 0 < reach }
    requires few { count ≤ 2 ^ 31 }
{
    let codes = codes(alloc, pattern, count, reach)?;
    let bench = Bench { rt, alloc, subject };
    time_calls(&bench, codes.as_slice(), reach)
}
