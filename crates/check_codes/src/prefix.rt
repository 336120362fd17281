//! What the calls answer at small dictionaries.
ghost use Rattle.std.specs.Prelude.{◌≡◌, ◌+◌, ◌<◌, ◌≤◌, length};

use crate::codes::{same_bytes, same_number, same_place};
use std::alloc::{AllocError, Global};
use std::marker::Brand;
use std::process::Abort;
use std::sync::Arc;
use std::sync::ledger::{Blank, Ledger};
use ut_key::{Cmp, KeyList, Steps, is_ascending};
use ut_prefix::{DictChain, PrefixDict};

/// The dictionary of a list of few keys.
pub(crate) fn dictionary_of(
    rt: &impl Abort,
    alloc: Global,
    list: &KeyList,
) -> Result<PrefixDict, AllocError> {
    assert!(rt; is_ascending(list) && list.len() < 100);
    PrefixDict::from_sorted(alloc, list)
}

/// A list of the keys.
pub(crate) fn list_of(
    rt: &impl Abort,
    alloc: Global,
    keys: &[&[u8]],
) -> Result<KeyList, AllocError> {
    let mut list = KeyList::new(alloc);
    for key in keys {
        assert!(rt; key.len() < 256);
        list.push(key)?;
    }
    Ok(list)
}

// The dictionary of a few keys that ascend.
fn dictionary(rt: &impl Abort, alloc: Global, keys: &[&[u8]]) -> Result<PrefixDict, AllocError> {
    let list = list_of(rt, alloc, keys)?;
    let dict = dictionary_of(rt, alloc, &list);
    drop(list);
    dict
}

// The dictionary of the even numbers below eighty.
fn forty(rt: &impl Abort, alloc: Global) -> Result<PrefixDict, AllocError> {
    let mut list = KeyList::new(alloc);
    for i in 0..40u8 {
        list.push(&[0, 2 * i])?;
    }
    dictionary_of(rt, alloc, &list)
}

// Forty keys stand in three blocks, and three has two binary digits.
fn find_in_forty<L: Ledger>(dict: &PrefixDict, key: &[u8], steps: &mut Steps<L>) -> Option<u32>
    requires { length dict.now ≡ 40 }
    ensures { steps.new ≤ steps.old + 18 }
{
    dict.find(key, steps)
}

fn find_in_none<L: Ledger>(dict: &PrefixDict, key: &[u8], steps: &mut Steps<L>) -> Option<u32>
    requires { length dict.now ≡ 0 }
    ensures { steps.new ≤ steps.old + 16 }
{
    dict.find(key, steps)
}

fn forty_finds<L: Ledger>(
    rt: &impl Abort,
    dict: &PrefixDict,
    key: &[u8],
    want: Option<u32>,
    steps: &mut Steps<L>,
) {
    assert!(rt; dict.len() == 40);
    same_place(rt, find_in_forty(dict, key, steps), want);
}

fn has_key<L: Ledger>(
    rt: &impl Abort,
    dict: &PrefixDict,
    code: u32,
    want: &[u8],
    steps: &mut Steps<L>,
) {
    assert!(rt; code < dict.len());
    same_bytes(rt, dict.get(code, steps).as_slice(), want);
}

// A key of the forty is found, and the one behind it isn't.
fn is_found<L: Ledger>(rt: &impl Abort, dict: &PrefixDict, i: u8, steps: &mut Steps<L>) {
    assert!(rt; i < 40);
    let (code, key, behind) = (u32::from(i), [0, 2 * i], [0, 2 * i + 1]);
    forty_finds(rt, dict, &key, Some(code), steps);
    forty_finds(rt, dict, &behind, None, steps);
    same_number(rt, dict.lower(&behind, steps), code + 1);
    has_key(rt, dict, code, &key, steps);
}

fn are_found<L: Ledger>(rt: &impl Abort, dict: &PrefixDict, steps: &mut Steps<L>) {
    for i in 0..40u8 {
        is_found(rt, dict, i, steps);
    }
}

fn none_finds<L: Ledger>(
    rt: &impl Abort,
    alloc: Global,
    steps: &mut Steps<L>,
) -> Result<(), AllocError> {
    let none = dictionary(rt, alloc, &[])?;
    assert!(rt; none.len() == 0);
    same_place(rt, find_in_none(&none, &[1], steps), None);
    drop(none);
    Ok(())
}

fn look_up<L: Ledger>(rt: &impl Abort, alloc: Global, blank: Blank) -> Result<(), AllocError>
    requires name { blank.name ≡ L.name }
    requires parts { blank.parts ≡ L.parts }
    requires positive { 0 < blank.parts }
{
    let mut steps = Steps::<L>::new(blank);
    none_finds(rt, alloc, &mut steps)?;
    let dict = forty(rt, alloc)?;
    are_found(rt, &dict, &mut steps);
    drop(dict);
    Ok(())
}

fn push_small<L: Ledger>(
    rt: &impl Abort,
    chain: &mut DictChain,
    dict: Arc<PrefixDict>,
    steps: &mut Steps<L>,
) -> Result<(), AllocError> {
    assert!(rt; chain.lacks_all(&dict, steps));
    assert!(rt; dict.len() < 100 && chain.len() < 100);
    chain.push(dict)
}

/// Adds a dictionary of few keys that the chain lacks.
pub(crate) fn push_dictionary<L: Ledger>(
    rt: &impl Abort,
    alloc: Global,
    chain: &mut DictChain,
    dict: PrefixDict,
    steps: &mut Steps<L>,
) -> Result<(), AllocError> {
    let dict = Arc::new(alloc, dict)?;
    push_small(rt, chain, dict, steps)
}

// Adds a dictionary of a few keys that ascend, which the chain lacks.
fn push_keys<L: Ledger>(
    rt: &impl Abort,
    alloc: Global,
    chain: &mut DictChain,
    keys: &[&[u8]],
    steps: &mut Steps<L>,
) -> Result<(), AllocError> {
    let dict = dictionary(rt, alloc, keys)?;
    push_dictionary(rt, alloc, chain, dict, steps)
}

/// The chain of a dictionary for each of the lists of keys.
pub(crate) fn chain_of<L: Ledger>(
    rt: &impl Abort,
    alloc: Global,
    lists: &[&[&[u8]]],
    steps: &mut Steps<L>,
) -> Result<DictChain, AllocError> {
    let mut chain = DictChain::new(alloc);
    for keys in lists {
        push_keys(rt, alloc, &mut chain, keys, steps)?;
    }
    Ok(chain)
}

fn has_code<L: Ledger>(
    rt: &impl Abort,
    chain: &DictChain,
    code: u32,
    want: &[u8],
    steps: &mut Steps<L>,
) {
    assert!(rt; code < chain.len());
    same_bytes(rt, chain.key(code, steps).as_slice(), want);
}

// What is found in the chain of 2, 4, 6 and of 1, 9.
fn has_five<L: Ledger>(rt: &impl Abort, chain: &DictChain, steps: &mut Steps<L>) {
    same_number(rt, chain.len(), 5);
    same_place(rt, chain.find(&[9], steps), Some(4));
    same_place(rt, chain.find(&[5], steps), None);
    has_code(rt, chain, 3, &[1], steps);
}

/// The ranges of codes of that chain that compare so with 4.
const RANGES: [(Cmp, &[(u32, u32)]); 6] = [
    (Cmp::Eq, &[(1, 2), (4, 4)]),
    (Cmp::Ne, &[(0, 1), (2, 3), (3, 4), (4, 5)]),
    (Cmp::Lt, &[(0, 1), (3, 4)]),
    (Cmp::Le, &[(0, 2), (3, 4)]),
    (Cmp::Gt, &[(2, 3), (4, 5)]),
    (Cmp::Ge, &[(1, 3), (4, 5)]),
];

fn has_ranges<L: Ledger>(
    rt: &impl Abort,
    alloc: Global,
    chain: &DictChain,
    op: Cmp,
    want: &[(u32, u32)],
    steps: &mut Steps<L>,
) -> Result<(), AllocError> {
    let mut ranges = Vec::new(alloc);
    chain.ranges(op, &[4], &mut ranges, steps)?;
    assert!(rt; ranges.as_slice() == want, "{op:?}");
    Ok(())
}

// The chain of 2, 4, 6 and of 1, 9, handed out again.
fn chain_again<L: Ledger>(
    rt: &impl Abort,
    alloc: Global,
    steps: &mut Steps<L>,
) -> Result<DictChain, AllocError> {
    let chain = chain_of(rt, alloc, &[&[&[2], &[4], &[6]], &[&[1], &[9]]], steps)?;
    let again = chain.again(alloc);
    drop(chain);
    again
}

fn compare_each<L: Ledger>(
    rt: &impl Abort,
    alloc: Global,
    chain: &DictChain,
    steps: &mut Steps<L>,
) -> Result<(), AllocError> {
    has_five(rt, chain, steps);
    for (op, want) in RANGES {
        has_ranges(rt, alloc, chain, op, want, steps)?;
    }
    Ok(())
}

fn compare_all<L: Ledger>(rt: &impl Abort, alloc: Global, blank: Blank) -> Result<(), AllocError>
    requires name { blank.name ≡ L.name }
    requires parts { blank.parts ≡ L.parts }
    requires positive { 0 < blank.parts }
{
    let mut steps = Steps::<L>::new(blank);
    let chain = chain_again(rt, alloc, &mut steps)?;
    let compared = compare_each(rt, alloc, &chain, &mut steps);
    drop(chain);
    compared
}

// The keys "ab", "abc" and "b", which are spelled by these bytes.
const SPELLED: [u8; 13] = [3, 0, 0, 0, 2, 0x61, 0x62, 2, 1, 0x63, 0, 1, 0x62];

fn is_spelled(rt: &impl Abort, alloc: Global, dict: &PrefixDict) -> Result<(), AllocError> {
    let mut bytes = Vec::new(alloc);
    dict.bytes_of(&mut bytes)?;
    same_bytes(rt, &bytes, &SPELLED);
    Ok(())
}

fn is_read(rt: &impl Abort, alloc: Global) -> Result<(), AllocError> {
    let read = PrefixDict::from_bytes(alloc, &SPELLED)?;
    match &read {
        Some((dict, size)) => assert!(rt; dict.len() == 3 && *size == 13),
        None => panic!(rt; "not read"),
    }
    drop(read);
    Ok(())
}

fn has_keys(rt: &impl Abort, alloc: Global, dict: &PrefixDict) -> Result<(), AllocError> {
    let keys = dict.keys(alloc)?;
    assert!(rt; keys.len() == 3);
    same_bytes(rt, keys.key(1), b"abc");
    drop(keys);
    Ok(())
}

fn spells(rt: &impl Abort, alloc: Global, dict: &PrefixDict) -> Result<(), AllocError> {
    is_spelled(rt, alloc, dict)?;
    has_keys(rt, alloc, dict)
}

const REFUSED: [&[u8]; 7] = [
    &[3, 0, 0],
    &[1, 0, 0, 0],
    &[0, 0, 0, 0x80],
    &[2, 0, 0, 0, 1, 0x61, 1, 0],
    &[2, 0, 0, 0, 1, 0x62, 0, 1, 0x61],
    &[2, 0, 0, 0, 2, 0x61, 0x62, 1, 2, 0x62, 0x63],
    &[2, 0, 0, 0, 2, 0x61, 0x62, 3, 1, 0x63],
];

fn is_refused(rt: &impl Abort, alloc: Global, bytes: &[u8]) -> Result<(), AllocError> {
    let read = PrefixDict::from_bytes(alloc, bytes)?;
    assert!(rt; read.is_none(), "{bytes:?}");
    drop(read);
    Ok(())
}

#[test]
fn a_dictionary_is_spelled_and_read_back(rt: HostRuntime) -> Result<(), AllocError> {
    let alloc = rt.alloc();
    is_read(&rt, alloc)?;
    for bytes in REFUSED {
        is_refused(&rt, alloc, bytes)?;
    }
    let dict = dictionary(&rt, alloc, &[b"ab", b"abc", b"b"])?;
    let spelled = spells(&rt, alloc, &dict);
    drop(dict);
    spelled
}

#[test]
fn keys_are_found_where_they_stand(rt: HostRuntime) -> Result<(), AllocError> {
    look_up::<Brand>(&rt, rt.alloc(), Blank::new(1))
}

#[test]
fn ranges_hold_the_codes_that_meet(rt: HostRuntime) -> Result<(), AllocError> {
    compare_all::<Brand>(&rt, rt.alloc(), Blank::new(1))
}
