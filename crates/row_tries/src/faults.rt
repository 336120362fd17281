//! Faults of the disk amid the run of a row: what was told is told, the fault is, and what was told is there again.
use crate::crashes::{base_of, torn, torn_each};
use crate::left::{Base, Must, replies_by};
use crate::scene::Scene;
use crate::tries::Trouble;
use check_run::run::{RUN, Ran, Run, run_on};
use row_files::{Row, Wanted};
use std::alloc::{AllocError, Global};
use std::sync::Wait;
use std::thread::Threads;
use ut_app::Status;
use ut_outside::{Ack, Disk, MemDisk, Tear};

/// An opening and a commit have as many calls of the disk, so a run of fewer tries nothing.
const FEWEST_CALLS: u64 = 8;

/// Opens the store behind a failure, on the disk that failed.
const LOOK: &[u8] = b"1 count T\n";

/// A fault at each call of the disk, or at two.
pub(crate) fn each_fault(
    rt: &(impl Threads + Wait + Sync),
    alloc: Global,
    scene: Scene<'_, '_>,
    acks: &[Ack],
    calls: u64,
    more: Option<u64>,
) -> Result<Option<Trouble>, AllocError> {
    if calls < FEWEST_CALLS {
        return Ok(Some(Trouble::at(calls)));
    }
    let base = base_of(rt, alloc, scene)?;
    for call in 0..calls {
        if let Some(trouble) = fault(rt, alloc, scene, base, acks, call, more)? {
            return Ok(Some(trouble));
        }
    }
    Ok(None)
}

/// A fault at two calls.
pub(crate) fn two_faults(
    rt: &(impl Threads + Wait + Sync),
    alloc: Global,
    scene: Scene<'_, '_>,
    acks: &[Ack],
    call: u64,
    more: u64,
) -> Result<Option<Trouble>, AllocError> {
    let base = base_of(rt, alloc, scene)?;
    fault(rt, alloc, scene, base, acks, call, Some(more))
}

// What is kept behind a fault, whatever a crash makes of it.
fn fault(
    rt: &(impl Threads + Wait + Sync),
    alloc: Global,
    scene: Scene<'_, '_>,
    base: Base,
    acks: &[Ack],
    call: u64,
    more: Option<u64>,
) -> Result<Option<Trouble>, AllocError> {
    let mut failed = failed_at(rt, alloc, scene, call, more)?;
    all_kept(rt, alloc, scene, base, acks, call, more, &mut failed)
}

// What is kept of a run that failed. Behind two faults the store is opened once on the disk that failed.
fn all_kept(
    rt: &(impl Threads + Wait + Sync),
    alloc: Global,
    scene: Scene<'_, '_>,
    base: Base,
    acks: &[Ack],
    call: u64,
    more: Option<u64>,
    failed: &mut Run,
) -> Result<Option<Trouble>, AllocError> {
    if !is_told(scene.row, acks, failed, call) {
        return Ok(Some(Trouble::of(call, &failed.ran)));
    }
    if more.is_some() {
        look(rt, alloc, &mut failed.disk)?;
    }
    let kept = base.kept_behind(scene.row, failed.ran.acks.as_slice(), call);
    let moment = failed.disk.calls();
    torn_each(rt, alloc, scene, &failed.disk, moment, Must::Keep(kept))
}

/// A fault at a call, and a crash behind it with a tear.
pub(crate) fn fault_at(
    rt: &(impl Threads + Wait + Sync),
    alloc: Global,
    scene: Scene<'_, '_>,
    acks: &[Ack],
    call: u64,
    tear: Tear,
    wanted: Wanted,
) -> Result<Option<Trouble>, AllocError> {
    let failed = failed_at(rt, alloc, scene, call, None)?;
    torn_behind(rt, alloc, scene, acks, call, tear, wanted, &failed)
}

fn torn_behind(
    rt: &(impl Threads + Wait + Sync),
    alloc: Global,
    scene: Scene<'_, '_>,
    acks: &[Ack],
    call: u64,
    tear: Tear,
    wanted: Wanted,
    failed: &Run,
) -> Result<Option<Trouble>, AllocError> {
    if !is_told(scene.row, acks, failed, call) {
        return Ok(Some(Trouble::of(call, &failed.ran)));
    }
    let disk = &failed.disk;
    torn(rt, alloc, scene, disk, disk.calls(), tear, Must::Be(wanted))
}

// Runs a row on a disk that fails at a call, and at one so many calls behind it.
fn failed_at(
    rt: &(impl Threads + Wait + Sync),
    alloc: Global,
    scene: Scene<'_, '_>,
    call: u64,
    more: Option<u64>,
) -> Result<Run, AllocError> {
    let mut disk = scene.disk(alloc)?;
    match run_failing(rt, alloc, scene, call, more, &mut disk) {
        Ok(ran) => Ok(Run { ran, disk }),
        Err(error) => Err(error),
    }
}

fn run_failing(
    rt: &(impl Threads + Wait + Sync),
    alloc: Global,
    scene: Scene<'_, '_>,
    call: u64,
    more: Option<u64>,
    disk: &mut MemDisk,
) -> Result<Ran, AllocError> {
    disk.fail_at(call)?;
    if let Some(more) = more {
        disk.fail_at(call.saturating_add(more))?;
    }
    scene.run_on(rt, alloc, disk)
}

fn look(
    rt: &(impl Threads + Wait + Sync),
    alloc: Global,
    disk: &mut MemDisk,
) -> Result<(), AllocError> {
    let _ran = run_on(rt, alloc, RUN, LOOK, disk)?;
    Ok(())
}

fn is_told(row: &Row<'_>, acks: &[Ack], failed: &Run, call: u64) -> bool {
    failed.ran.status == Status::DiskFault
        && is_front(row, acks, failed.ran.replies.as_slice(), call)
}

// Whether the replies are those that had begun before the call, and one that says that the disk failed. A run whose lines aren't the
// row's tells nothing then.
fn is_front(row: &Row<'_>, acks: &[Ack], replies: &[u8], call: u64) -> bool {
    if acks.len() != row.asked.len() {
        return replies.is_empty();
    }
    let count = replies_by(acks, call);
    if replies.is_empty() {
        return count == 0;
    }
    let Some(told) = replies.strip_suffix(b" fault disk\n") else {
        return false;
    };
    let Some(start) = row.starts.get(count) else {
        return false;
    };
    let session = told.len().saturating_sub(*start);
    row.answers.starts_with(told) && (session == 1 || session == 2)
}
