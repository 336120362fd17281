//! Codes by a map in one share, and so many that they are mapped in several, on real threads; and the order of a few rows by their codes.
ghost use Rattle.std.specs.Prelude.{IfOk};
ghost use Rattle.ut_bits.specs.Bits.{AllBelow};

use crate::codes::{same_codes, same_number};
use std::alloc::{AllocError, Global};
use std::process::Abort;
use std::thread::Threads;
use ut_recode::{recode, share};
use ut_resort::order;

/// So many codes are mapped in shares, and three shares of them aren't of one length.
const MANY: usize = 100_001;

const CODES: [u32; 7] = [2, 0, 1, 2, 2, 1, 0];

const WANTED: [u32; 7] = [9, 5, 3, 9, 9, 3, 5];

// The codes of a map in three shares.
fn recodes_whole<R: Threads + Sync + Abort>(rt: &R, alloc: Global) -> Result<(), AllocError> {
    let codes = [2, 0, 1, 2, 2, 1, 0];
    let map = [Some(5), Some(3), Some(9), None];
    let whole = recode(rt, alloc, &codes, 0, &map, 10, 3)?;
    same_codes(rt, &whole, &WANTED);
    Ok(())
}

// The first code stays, and the map is of those behind it.
fn recodes_behind<R: Threads + Sync + Abort>(rt: &R, alloc: Global) -> Result<(), AllocError> {
    let codes = [2, 0, 1, 2, 2, 1, 0];
    let behind = recode(rt, alloc, &codes, 1, &[Some(3), Some(9)], 10, 1)?;
    same_codes(rt, &behind, &[9, 0, 3, 9, 9, 3, 0]);
    Ok(())
}

#[test]
fn codes_have_their_entries(rt: HostRuntime) -> Result<(), AllocError> {
    same_number(&rt, share(7, 3, 1), 2);
    same_number(&rt, share(7, 3, 2), 4);
    recodes_whole(&rt, rt.alloc())?;
    recodes_behind(&rt, rt.alloc())
}

// Those seven codes, again and again.
fn repeated(rt: &impl Abort, alloc: Global) -> Result<Vec<u32>, AllocError>
    ensures { IfOk result (λ codes. AllBelow 3 codes.items) }
{
    let mut codes = Vec::new(alloc);
    for i in 0..MANY {
        let code = CODES[i % 7];
        assert!(rt; code < 3);
        codes.push(code)?;
    }
    Ok(codes)
}

fn are_wanted(rt: &impl Abort, joined: &[u32]) {
    assert!(rt; joined.len() == MANY);
    for i in 0..joined.len() {
        same_number(rt, joined[i], WANTED[i % 7]);
    }
}

#[test]
fn shares_on_threads_give_the_codes_of_one_share(rt: HostRuntime) -> Result<(), AllocError> {
    let alloc = rt.alloc();
    let codes = repeated(&rt, alloc)?;
    assert!(rt; codes.len() == MANY);
    let map = [Some(5), Some(3), Some(9), None];
    let joined = recode(&rt, alloc, codes.as_slice(), 0, &map, 10, 3)?;
    are_wanted(&rt, &joined);
    Ok(())
}

fn order_two(
    rt: &impl Abort,
    alloc: Global,
    a: Vec<u32>,
    b: Vec<u32>,
) -> Result<Vec<u32>, AllocError> {
    assert!(rt; a.len() == 4 && b.len() == 4);
    order(alloc, &[a, b], &[2, 1], &[1, 2, 3, 4])
}

#[test]
fn rows_are_ordered_by_the_column_with_fewest_keys(rt: HostRuntime) -> Result<(), AllocError> {
    let alloc = rt.alloc();
    let a = Vec::from_slice(alloc, &[1, 0, 1, 0])?;
    let b = Vec::from_slice(alloc, &[0, 0, 0, 0])?;
    let places = order_two(&rt, alloc, a, b)?;
    same_codes(&rt, &places, &[1, 3, 0, 2]);
    Ok(())
}

fn order_three(
    rt: &impl Abort,
    alloc: Global,
    a: Vec<u32>,
    b: Vec<u32>,
    c: Vec<u32>,
) -> Result<Vec<u32>, AllocError> {
    assert!(rt; a.len() == 3 && b.len() == 3 && c.len() == 3);
    order(alloc, &[a, b, c], &[2, 1, 2], &[9, 8, 7])
}

#[test]
fn wide_codes_are_compared_beyond_the_key(rt: HostRuntime) -> Result<(), AllocError> {
    let alloc = rt.alloc();
    let a = Vec::from_slice(alloc, &[1 << 31, 7, 1 << 31])?;
    let b = Vec::from_slice(alloc, &[1 << 30, 1 << 30, 1 << 30])?;
    let c = Vec::from_slice(alloc, &[5, 1 << 31, 5])?;
    let places = order_three(&rt, alloc, a, b, c)?;
    same_codes(&rt, &places, &[1, 2, 0]);
    Ok(())
}
