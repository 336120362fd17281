//! A stream as its bytes come in.
ghost use Rattle.std.specs.Prelude.{◌≤◌};

use std::alloc::{AllocError, Global};
use std::process::Abort;
use ut_stream::{Frames, Heard};
use ut_value::Entry;

/// The end of a merge, twice, each in a frame of its own, and a closed gate.
const STREAM: [u8; 21] = [
    0xa7, 5, 0, 0, 0, 4, 1, 0, 0, 0, 0xa7, 5, 0, 0, 0, 4, 2, 0, 0, 0, 0,
];

// The number of the merge whose end a frame tells.
fn number_in(rt: &impl Abort, entries: &[Entry]) -> u32 {
    let [Entry::Ended { n }] = entries else {
        panic!(rt; "not one end of a merge")
    };
    *n
}

/// The numbers of the merges whose ends are heard, one digit each, until more bytes are wanted.
fn hear(
    rt: &impl Abort,
    alloc: Global,
    frames: &mut Frames,
    heard: u32,
) -> Result<u32, AllocError> {
    let mut numbers = heard;
    for _ in 0..3 {
        let heard = frames.next(alloc)?;
        let number = match &heard {
            Heard::Frame(entries) => Some(number_in(rt, entries.as_slice())),
            Heard::More | Heard::End | Heard::Bad => None,
        };
        let is_bad = matches!(&heard, Heard::Bad);
        drop(heard);
        let Some(number) = number else {
            return Ok(if is_bad { 0 } else { numbers });
        };
        numbers = numbers.wrapping_mul(10).wrapping_add(number);
    }
    Ok(numbers)
}

// All is heard of a stream that comes in pieces of a length.
fn hears_all(
    rt: &impl Abort,
    alloc: Global,
    frames: &mut Frames,
    len: usize,
) -> Result<(), AllocError>
    requires { 1 ≤ len }
{
    let mut numbers = 0;
    for piece in STREAM.chunks(len) {
        frames.feed(alloc, piece)?;
        numbers = hear(rt, alloc, frames, numbers)?;
    }
    let heard = frames.next(alloc)?;
    let is_end = matches!(&heard, Heard::End);
    drop(heard);
    assert!(rt; numbers == 12 && is_end);
    Ok(())
}

#[test]
fn pieces_of_any_length_are_heard_alike(rt: HostRuntime) -> Result<(), AllocError> {
    for len in 1..22 {
        let mut frames = Frames::new(rt.alloc());
        hears_all(&rt, rt.alloc(), &mut frames, len)?;
    }
    Ok(())
}

// The numbers that are heard where the stream comes in two pieces, of the first and of both.
fn hear_two(
    rt: &impl Abort,
    alloc: Global,
    frames: &mut Frames,
    first: &[u8],
    second: &[u8],
) -> Result<[u32; 2], AllocError> {
    frames.feed(alloc, first)?;
    let early = hear(rt, alloc, frames, 0)?;
    frames.feed(alloc, second)?;
    let all = hear(rt, alloc, frames, early)?;
    Ok([early, all])
}

#[test]
fn a_stream_may_be_cut_at_any_byte(rt: HostRuntime) -> Result<(), AllocError> {
    for cut in 0..22 {
        let (first, second) = STREAM.split_at(cut);
        let mut frames = Frames::new(rt.alloc());
        let [early, all] = hear_two(&rt, rt.alloc(), &mut frames, first, second)?;
        // of the first piece the frames are heard that it has in full
        let whole = match cut {
            0..10 => 0,
            10..20 => 1,
            _ => 12,
        };
        assert!(rt; early == whole && all == 12, "{cut}");
    }
    Ok(())
}

// What is heard first of some bytes.
fn first_heard(alloc: Global, bytes: &[u8]) -> Result<Heard, AllocError> {
    let mut frames = Frames::new(alloc);
    frames.feed(alloc, bytes)?;
    frames.next(alloc)
}

#[test]
fn what_is_off_the_grammar_is_told(rt: HostRuntime) -> Result<(), AllocError> {
    let bytes: [&[u8]; 3] = [
        &[0xa7, 0, 0, 0, 0],
        &[0xa7, 1, 0, 0, 0x40],
        &[0xa7, 1, 0, 0, 0, 5],
    ];
    for off in bytes {
        let heard = first_heard(rt.alloc(), off)?;
        let is_bad = matches!(&heard, Heard::Bad);
        drop(heard);
        assert!(rt; is_bad);
    }
    Ok(())
}
