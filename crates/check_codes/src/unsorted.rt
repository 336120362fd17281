//! The order of codes at a few keys.
ghost use Rattle.std.specs.Prelude.{◌+◌, ◌<◌, ◌≤◌, length, OnOk};

use crate::codes::same_codes;
use std::alloc::{AllocError, Global};
use std::process::Abort;
use ut_unsorted::UnsortedDict;

fn add(rt: &impl Abort, dict: &mut UnsortedDict, key: &[u8]) -> Result<(), AllocError>
    requires { length dict.old < 100 }
    ensures { OnOk result (length dict.new ≤ length dict.old + 1) }
{
    assert!(rt; key.len() < 256);
    dict.intern(key)?;
    Ok(())
}

// The codes of keys that are interned one after the other, in the order of the keys.
fn order_of(rt: &impl Abort, alloc: Global, keys: &[&[u8]]) -> Result<Vec<u32>, AllocError> {
    assert!(rt; keys.len() < 100);
    let mut dict = UnsortedDict::new(alloc);
    for key in keys {
        add(rt, &mut dict, key)?;
    }
    let order = dict.order(alloc);
    drop(dict);
    order
}

fn is_ordered(
    rt: &impl Abort,
    alloc: Global,
    keys: &[&[u8]],
    wanted: &[u32],
) -> Result<(), AllocError> {
    let codes = order_of(rt, alloc, keys)?;
    same_codes(rt, &codes, wanted);
    Ok(())
}

const WORDS: [&[u8]; 3] = [
    b"\x00\x00\x00\x00\x00\x00\x01\x00",
    b"\xff\x00\x00\x00\x00\x00\x00\x00",
    b"\x00\x00\x00\x00\x00\x00\x00\xff",
];

const TEXTS: [&[u8]; 4] = [b"b", b"ab", b"", b"a"];

#[test]
fn codes_are_ordered_by_their_keys(rt: HostRuntime) -> Result<(), AllocError> {
    is_ordered(&rt, rt.alloc(), &WORDS, &[2, 0, 1])?;
    is_ordered(&rt, rt.alloc(), &TEXTS, &[2, 3, 1, 0])
}
