//! A worked merge as one piece, and one so great that it is made in two pieces, on real threads.
ghost use Rattle.std.specs.Prelude.{◌<◌, length};
ghost use Rattle.ut_key.specs.Keys.{IsAscending};

use crate::prefix::list_of;
use std::alloc::{AllocError, Global};
use std::process::Abort;
use std::thread::Threads;
use ut_dictmerge::{Cut, Merged, count_piece, cuts, merge};
use ut_key::{KeyList, is_ascending};

// Whether the merge is 1, 2, 4, 6, 9, and points at them.
fn is_worked(merged: &Merged) -> bool {
    let mut same = merged.keys.len() == 5;
    for (i, byte) in [1, 2, 4, 6, 9].iter().enumerate() {
        same = same && i < merged.keys.len() && merged.keys.key(i) == [*byte].as_slice();
    }
    same && merged.from_a.as_slice() == [Some(1), Some(2), Some(3)].as_slice()
        && merged.from_b.as_slice() == [Some(0), Some(2), Some(4)].as_slice()
}

fn same_cuts(rt: &impl Abort, got: &[Cut], wanted: &[Cut]) {
    assert!(rt; got.len() == wanted.len());
    for i in 0..got.len() {
        assert!(rt; got[i].a == wanted[i].a && got[i].b == wanted[i].b);
    }
}

// Ends the test where the keys don't ascend, or are many.
fn ascend(rt: &impl Abort, keys: &KeyList)
    ensures ascending { IsAscending keys.now }
    ensures few { length keys.now < 100000 }
{
    assert!(rt; is_ascending(keys) && keys.len() < 100_000);
}

// The merge has these borders between two pieces.
fn has_borders(
    rt: &impl Abort,
    alloc: Global,
    a: &KeyList,
    b: &KeyList,
    wanted: &[Cut],
) -> Result<(), AllocError> {
    ascend(rt, a);
    ascend(rt, b);
    let borders = cuts(alloc, a, b, 2)?;
    same_cuts(rt, &borders, wanted);
    Ok(())
}

// The merge of two lists whose keys are all used.
fn merged<R: Threads + Sync + Abort>(
    rt: &R,
    alloc: Global,
    a: &KeyList,
    b: &KeyList,
) -> Result<Merged, AllocError> {
    ascend(rt, a);
    ascend(rt, b);
    let used_a = vec![in alloc; true; a.len()]?;
    let used_b = vec![in alloc; true; b.len()]?;
    merge(rt, alloc, a, &used_a, b, &used_b, 2)
}

// How many keys a piece of two lists of three has.
fn count_of(rt: &impl Abort, a: &KeyList, b: &KeyList, used: &[bool], from: &Cut, to: &Cut) -> u32 {
    ascend(rt, a);
    ascend(rt, b);
    assert!(rt; used.len() == a.len() && used.len() == b.len() && used.len() == 3);
    assert!(rt; from.a <= to.a && to.a as usize <= a.len());
    assert!(rt; from.b <= to.b && to.b as usize <= b.len());
    count_piece(a, used, b, used, from, to)
}

// The lists 2, 4, 6 and 1, 4, 9.
fn check_worked<R: Threads + Sync + Abort>(
    rt: &R,
    alloc: Global,
    a: &KeyList,
    b: &KeyList,
) -> Result<(), AllocError> {
    let wanted = [Cut { a: 0, b: 0 }, Cut { a: 2, b: 2 }, Cut { a: 3, b: 3 }];
    has_borders(rt, alloc, a, b, &wanted)?;
    let all = [true; 3];
    let first = count_of(rt, a, b, &all, &wanted[0], &wanted[1]);
    let second = count_of(rt, a, b, &all, &wanted[1], &wanted[2]);
    assert!(rt; first == 3 && second == 2);
    let whole = merged(rt, alloc, a, b)?;
    assert!(rt; is_worked(&whole));
    drop(whole);
    Ok(())
}

#[test]
fn equal_keys_at_a_border_are_one(rt: HostRuntime) -> Result<(), AllocError> {
    let a = list_of(&rt, rt.alloc(), &[&[2], &[4], &[6]])?;
    let b = list_of(&rt, rt.alloc(), &[&[1], &[4], &[9]])?;
    check_worked(&rt, rt.alloc(), &a, &b)
}

/// The last key of both lists: half of all their keys end with one of two equal ones.
const LAST: u32 = 120_000;

// The multiples of a number, up to the last key, in keys of four bytes each.
fn multiples(rt: &impl Abort, alloc: Global, of: usize) -> Result<KeyList, AllocError> {
    assert!(rt; of != 0);
    let mut keys = KeyList::new(alloc);
    for number in (0..=LAST).step_by(of) {
        keys.push(&number.to_be_bytes())?;
    }
    Ok(keys)
}

// Whether a key of four bytes stands there.
fn has_key(keys: &KeyList, place: u32, number: u32) -> bool {
    (place as usize) < keys.len() && keys.key(place as usize) == number.to_be_bytes().as_slice()
}

// Whether a key of a list went there.
fn went_to(from: &[Option<u32>], key: u32, place: u32) -> bool {
    (key as usize) < from.len() && from[key as usize] == Some(place)
}

// The keys of the merge one by one: each multiple of two or of three.
fn check_each(rt: &impl Abort, merged: &Merged) {
    let mut place = 0;
    for number in 0..=LAST {
        let (is_of_a, is_of_b) = (number % 2 == 0, number % 3 == 0);
        let went = (!is_of_a || went_to(&merged.from_a, number / 2, place))
            && (!is_of_b || went_to(&merged.from_b, number / 3, place));
        let stands = !(is_of_a || is_of_b) || has_key(&merged.keys, place, number);
        assert!(rt; went && stands, "{number}");
        if is_of_a || is_of_b {
            place += 1;
        }
    }
    assert!(rt; place as usize == merged.keys.len());
}

// The multiples of two and of three.
fn check_pieces<R: Threads + Sync + Abort>(
    rt: &R,
    alloc: Global,
    twos: &KeyList,
    threes: &KeyList,
) -> Result<(), AllocError> {
    let wanted = [
        Cut { a: 0, b: 0 },
        Cut {
            a: 30_001,
            b: 20_001,
        },
        Cut {
            a: 60_001,
            b: 40_001,
        },
    ];
    has_borders(rt, alloc, twos, threes, &wanted)?;
    let merged = merged(rt, alloc, twos, threes)?;
    assert!(rt; merged.from_a.len() == 60_001 && merged.from_b.len() == 40_001);
    assert!(rt; merged.keys.len() == 80_001);
    check_each(rt, &merged);
    drop(merged);
    Ok(())
}

#[test]
fn pieces_on_threads_are_one_merge(rt: HostRuntime) -> Result<(), AllocError> {
    let twos = multiples(&rt, rt.alloc(), 2)?;
    let threes = multiples(&rt, rt.alloc(), 3)?;
    check_pieces(&rt, rt.alloc(), &twos, &threes)
}
