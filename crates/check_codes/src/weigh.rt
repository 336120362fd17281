//! Sums of the numbers of a chain's keys, each times its weight.
ghost use Rattle.std.specs.Prelude.{◌≡◌, ◌<◌};

use crate::prefix::{chain_of, dictionary_of, push_dictionary};
use std::alloc::{AllocError, Global};
use std::marker::Brand;
use std::process::Abort;
use std::sync::ledger::{Blank, Ledger};
use ut_key::{KeyList, Steps};
use ut_prefix::{DictChain, PrefixDict};

/// The numbers -5, 0 and 7.
const FIRST: [&[u8]; 3] = [
    b"\x7f\xff\xff\xff\xff\xff\xff\xfb",
    b"\x80\0\0\0\0\0\0\0",
    b"\x80\0\0\0\0\0\0\x07",
];

/// The least number, 100 and the greatest one.
const SECOND: [&[u8]; 3] = [
    b"\0\0\0\0\0\0\0\0",
    b"\x80\0\0\0\0\0\0\x64",
    b"\xff\xff\xff\xff\xff\xff\xff\xff",
];

/// Texts, which are no numbers.
const TEXTS: [&[u8]; 2] = [b"a", b"bc"];

/// The weights of the first keys, and the sum.
type Row = (&'static [u32], i128);

const ROWS: [Row; 11] = [
    (&[], 0),
    (&[1, 1, 1], 2),
    (&[2, 2, 2], 4),
    (&[1, 5, 3], 16),
    (&[4], -20),
    (&[4, 4], -20),
    (&[0, 0, 0, 0, 3], 300),
    (&[3, 3, 3, 2, 2], -18446744073709551410),
    (&[0, 0, 0, 9, 9, 9], 891),
    (&[0, 0, 0, u32::MAX], -39614081247908796759917199360),
    (&[1, 1, 1, 0, 1, 0, 6, 7, 8, 9], 102),
];

fn weighs(rt: &impl Abort, chain: &DictChain, weights: &[u32], sum: i128) {
    assert!(rt; chain.weighed_total(weights) == sum, "{weights:?}");
}

fn are_weighed(rt: &impl Abort, chain: &DictChain) {
    for (weights, sum) in ROWS {
        weighs(rt, chain, weights, sum);
    }
}

fn weigh_each<L: Ledger>(rt: &impl Abort, alloc: Global, blank: Blank) -> Result<(), AllocError>
    requires name { blank.name ≡ L.name }
    requires parts { blank.parts ≡ L.parts }
    requires positive { 0 < blank.parts }
{
    let mut steps = Steps::<L>::new(blank);
    let none = DictChain::new(alloc);
    weighs(rt, &none, &[1, 2], 0);
    drop(none);
    let chain = chain_of(rt, alloc, &[&FIRST, &SECOND, &TEXTS], &mut steps)?;
    are_weighed(rt, &chain);
    drop(chain);
    Ok(())
}

#[test]
fn numbers_are_weighed_in_each_dictionary(rt: HostRuntime) -> Result<(), AllocError> {
    weigh_each::<Brand>(&rt, rt.alloc(), Blank::new(1))
}

// The numbers from 0 to 39, whose keys stand in three blocks.
fn forty(rt: &impl Abort, alloc: Global) -> Result<PrefixDict, AllocError> {
    let mut keys = KeyList::new(alloc);
    for i in 0..40u8 {
        keys.push(&[0x80, 0, 0, 0, 0, 0, 0, i])?;
    }
    dictionary_of(rt, alloc, &keys)
}

fn are_forty_weighed(rt: &impl Abort, chain: &DictChain) {
    let mut weights = [2; 40];
    weighs(rt, chain, &weights, 1560);
    weighs(rt, chain, &weights[..20], 380);
    weights[20] = 5;
    weighs(rt, chain, &weights, 1620);
    weights[39] = 0;
    weighs(rt, chain, &weights, 1542);
}

fn weigh_forty<L: Ledger>(rt: &impl Abort, alloc: Global, blank: Blank) -> Result<(), AllocError>
    requires name { blank.name ≡ L.name }
    requires parts { blank.parts ≡ L.parts }
    requires positive { 0 < blank.parts }
{
    let mut steps = Steps::<L>::new(blank);
    let dict = forty(rt, alloc)?;
    let mut chain = DictChain::new(alloc);
    push_dictionary(rt, alloc, &mut chain, dict, &mut steps)?;
    are_forty_weighed(rt, &chain);
    drop(chain);
    Ok(())
}

#[test]
fn numbers_are_weighed_in_each_block(rt: HostRuntime) -> Result<(), AllocError> {
    weigh_forty::<Brand>(&rt, rt.alloc(), Blank::new(1))
}
