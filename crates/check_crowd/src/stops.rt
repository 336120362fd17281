//! Crashes at every moment of a crowd: what is opened has each turn that was acknowledged, and perhaps the next.
use crate::facts::holds;
use crate::faults::left_torn;
use check_books::books::lefts_of;
use check_books::runs::{Crowd, Left, run_failing};
use check_books::scripts::of_four;
use check_run::saved::TEARS;
use std::alloc::{AllocError, Global};
use std::process::Abort;
use std::sync::Wait;
use std::thread::Threads;
use ut_app::Status;
use ut_outside::{Ack, Disk, MemDisk};

/// How many turns were acknowledged where so many calls of the disk had returned.
fn told_by(acks: &[Ack], moment: u64) -> usize {
    acks.iter().filter(|ack| ack.moment <= moment).count()
}

/// What a crash may leave.
#[derive(Clone, Copy)]
struct Kept<'a> {
    lefts: &'a [Vec<u8>],
    /// So many turns were acknowledged.
    told: usize,
    /// The store is made.
    is_made: bool,
}

impl Kept<'_> {
    /// Whether a store has the turns that were told, and perhaps the next one.
    fn has(&self, left: &Left) -> bool {
        match left {
            Left::NoStore => !self.is_made,
            Left::Answers(answer) => {
                let next = self.told.saturating_add(1);
                is_at(self.lefts, self.told, answer) || is_at(self.lefts, next, answer)
            }
            Left::Else => false,
        }
    }
}

fn is_at(lefts: &[Vec<u8>], place: usize, answer: &[u8]) -> bool {
    match lefts.get(place) {
        Some(left) => left.as_slice() == answer,
        None => false,
    }
}

fn check_tears(
    rt: &(impl Abort + Threads + Wait + Sync),
    alloc: Global,
    disk: &MemDisk,
    moment: u64,
    kept: Kept<'_>,
) -> Result<(), AllocError> {
    for tear in TEARS {
        let left = left_torn(rt, alloc, disk, moment, tear)?;
        let told = kept.told;
        assert!(rt;
            kept.has(&left),
            "{left:?} of {told} turns after {moment} with {tear:?}"
        );
    }
    Ok(())
}

/// How many calls it takes to make a store.
fn calls_of_making(rt: &(impl Threads + Wait + Sync), alloc: Global) -> Result<u64, AllocError> {
    let crowd = run_failing(rt, alloc, b"", &[])?;
    Ok(crowd.disk.calls())
}

/// A whole crowd of four sessions.
fn whole(rt: &(impl Abort + Threads + Wait + Sync), alloc: Global) -> Result<Crowd, AllocError> {
    let lines = of_four(alloc)?;
    let crowd = run_failing(rt, alloc, &lines, &[])?;
    holds(rt, crowd.came.status == Status::Done);
    Ok(crowd)
}

/// What the store of a book answers behind none, one, two and all of its turns.
fn lefts_behind(rt: &impl Abort, alloc: Global, book: &[u8]) -> Result<Vec<Vec<u8>>, AllocError> {
    let Some(lefts) = lefts_of(alloc, book)? else {
        panic!(rt; "a turn isn't told as the slow store tells it")
    };
    Ok(lefts)
}

fn check_moments(
    rt: &(impl Abort + Threads + Wait + Sync),
    alloc: Global,
    crowd: &Crowd,
    lefts: &[Vec<u8>],
    making: u64,
) -> Result<(), AllocError> {
    for moment in 0..=crowd.disk.calls() {
        let kept = Kept {
            lefts,
            told: told_by(crowd.came.acks.as_slice(), moment),
            is_made: moment >= making,
        };
        check_tears(rt, alloc, &crowd.disk, moment, kept)?;
    }
    Ok(())
}

#[test]
fn a_crash_leaves_each_turn_that_was_told(rt: HostRuntime) -> Result<(), AllocError> {
    let making = calls_of_making(&rt, rt.alloc())?;
    let crowd = whole(&rt, rt.alloc())?;
    let lefts = lefts_behind(&rt, rt.alloc(), &crowd.came.book)?;
    check_moments(&rt, rt.alloc(), &crowd, &lefts, making)
}
