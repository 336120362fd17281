//! Faults of the disk at each of its calls in a crowd: the last turn tells of them, and what was told before is there again.
ghost use Rattle.std.specs.Prelude.{◌<◌};

use crate::facts::{holds, holds_at};
use check_books::books::{Outcome, Share, outcome_of, share_of};
use check_books::runs::{Came, Crowd, Left, left_on, run_failing};
use check_books::scripts::{OF_THREE, of_four};
use check_run::saved::TEARS;
use std::alloc::{AllocError, Global};
use std::process::Abort;
use std::sync::Wait;
use std::thread::Threads;
use ut_app::Status;
use ut_outside::{Disk, MemDisk, Tear};

/// No crowd of these lines calls the disk so often.
const MOST: u64 = 3000;

/// The first session's ten commits alone have so many calls.
const LEAST: u64 = 40;

/// How often the disk is called differs from run to run, so calls are tried until so many runs have ended before theirs.
const WHOLE: u32 = 5;

/// What a book came to, each of whose turns was acknowledged.
fn outcome_behind(
    rt: &impl Abort,
    alloc: Global,
    came: &Came,
    call: u64,
) -> Result<Outcome, AllocError> {
    let Some(outcome) = outcome_of(alloc, &came.book, 0)? else {
        panic!(rt; "a turn isn't told as the slow store tells it, at {call}")
    };
    holds(rt, outcome.turns == came.acks.len());
    holds_at(rt, outcome.is_open() || came.book.is_empty(), call);
    Ok(outcome)
}

/// What a crash leaves.
pub(crate) fn left_torn(
    rt: &(impl Abort + Threads + Wait + Sync),
    alloc: Global,
    disk: &MemDisk,
    moment: u64,
    tear: Tear,
) -> Result<Left, AllocError> {
    assert!(rt; moment <= disk.calls());
    let image = disk.image(moment, tear)?;
    left_on(rt, alloc, &image)
}

/// What a crash behind a crowd that failed leaves, whatever it makes of the failed call.
fn check_left(
    rt: &(impl Abort + Threads + Wait + Sync),
    alloc: Global,
    outcome: &Outcome,
    disk: &MemDisk,
    call: u64,
) -> Result<(), AllocError> {
    for tear in TEARS {
        let left = left_torn(rt, alloc, disk, disk.calls(), tear)?;
        assert!(rt; outcome.is_left(&left), "{left:?} at {call} with {tear:?}");
    }
    Ok(())
}

/// The disk failed in the last turn of a crowd, and what was told before is there again.
fn check_fault(
    rt: &(impl Abort + Threads + Wait + Sync),
    alloc: Global,
    crowd: &Crowd,
    call: u64,
) -> Result<(), AllocError> {
    holds_at(rt, crowd.came.status == Status::DiskFault, call);
    holds(rt, crowd.disk.calls() == call.saturating_add(1));
    let outcome = outcome_behind(rt, alloc, &crowd.came, call)?;
    check_left(rt, alloc, &outcome, &crowd.disk, call)
}

/// A crowd that ended before the call that fails is whole. Else the disk failed in its last turn.
fn check_ended(
    rt: &(impl Abort + Threads + Wait + Sync),
    alloc: Global,
    lines: &[u8],
    crowd: &Crowd,
    call: u64,
) -> Result<(), AllocError> {
    let share = share_of(alloc, lines, &crowd.came.book)?;
    if crowd.came.status == Status::Done {
        holds_at(rt, crowd.disk.calls() <= call, call);
        holds(rt, share == Share::All);
        return Ok(());
    }
    holds_at(rt, share != Share::Else, call);
    check_fault(rt, alloc, crowd, call)
}

/// Whether a crowd ended before the call that fails.
fn is_whole(
    rt: &(impl Abort + Threads + Wait + Sync),
    alloc: Global,
    lines: &[u8],
    call: u64,
) -> Result<bool, AllocError> {
    let crowd = run_failing(rt, alloc, lines, &[call])?;
    check_ended(rt, alloc, lines, &crowd, call)?;
    Ok(crowd.came.status == Status::Done)
}

/// Tries each call, or one of so many.
fn check_calls(
    rt: &(impl Abort + Threads + Wait + Sync),
    alloc: Global,
    lines: &[u8],
    step: usize,
) -> Result<(), AllocError>
    requires { 0 < step }
{
    let mut whole: u32 = 0;
    for call in (0..MOST).step_by(step) {
        if is_whole(rt, alloc, lines, call)? {
            holds_at(rt, call >= LEAST, call);
            whole = whole.saturating_add(1);
        }
        if whole >= WHOLE {
            return Ok(());
        }
    }
    panic!(rt; "no crowd of few lines calls the disk so often")
}

#[test]
fn a_fault_of_the_disk_is_the_last_turn(rt: HostRuntime) -> Result<(), AllocError> {
    check_calls(&rt, rt.alloc(), OF_THREE, 1)
}

#[test]
fn a_fault_of_the_disk_amid_savepoints_is_the_last_turn(rt: HostRuntime) -> Result<(), AllocError> {
    let lines = of_four(rt.alloc())?;
    check_calls(&rt, rt.alloc(), &lines, 3)
}
