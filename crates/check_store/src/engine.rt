//! Why there is no store on a disk, as a caller over any disk is told it.
ghost use Rattle.std.specs.Prelude.{◌≡◌, ◌≤◌};

use std::alloc::{AllocError, Global};
use std::process::Abort;
use ut_engine::{Engine, OpenError};
use ut_outside::{Disk, MemDisk, Which};

/// Ids enough.
const IDS: u32 = 100;

// A store is made and left, or not: the caller knows what became of its disk.
fn made_and_left<D: Disk>(alloc: Global, disk: &mut D) -> Result<(), OpenError>
    ensures told { (D.view disk.new).told ≡ (D.view disk.old).told }
    ensures later { (D.view disk.old).faults ≤ (D.view disk.new).faults }
{
    match Engine::make(alloc, disk, IDS) {
        Ok(engine) => {
            let _disk = engine.release();
            Ok(())
        }
        Err(unopened) => Err(unopened.cause),
    }
}

/// A store is made, or not, and left.
fn left(alloc: Global, disk: &mut MemDisk) -> Result<(), OpenError> {
    made_and_left(alloc, disk)
}

// A store is opened and left, or not: the caller knows what became of its disk.
fn opened_and_left<D: Disk>(alloc: Global, disk: &mut D) -> Result<(), OpenError>
    ensures told { (D.view disk.new).told ≡ (D.view disk.old).told }
    ensures later { (D.view disk.old).faults ≤ (D.view disk.new).faults }
{
    match Engine::open(alloc, disk, IDS) {
        Ok(engine) => {
            let _disk = engine.release();
            Ok(())
        }
        Err(unopened) => Err(unopened.cause),
    }
}

/// Why the store of a disk is not opened, if it isn't.
fn cause_of(alloc: Global, disk: &mut MemDisk) -> Option<OpenError> {
    match opened_and_left(alloc, disk) {
        Ok(()) => None,
        Err(cause) => Some(cause),
    }
}

/// The same disk, without its log.
fn without_log(alloc: Global, disk: &MemDisk) -> Result<MemDisk, AllocError> {
    MemDisk::of(alloc, &[], &[], disk.bytes(Which::Pages))
}

/// There is no store, then one is made, and not again.
fn is_made_once(rt: &impl Abort, alloc: Global, disk: &mut MemDisk) {
    let before = cause_of(alloc, disk);
    let first = left(alloc, disk);
    let second = left(alloc, disk);
    assert!(rt; before == Some(OpenError::NotMade));
    assert!(rt; first == Ok(()) && second == Err(OpenError::Made));
}

/// Without its log there is no store.
fn is_damaged(rt: &impl Abort, alloc: Global, disk: &MemDisk) -> Result<(), AllocError> {
    let mut cut = without_log(alloc, disk)?;
    let cause = cause_of(alloc, &mut cut);
    drop(cut);
    assert!(rt; cause == Some(OpenError::Damaged));
    Ok(())
}

#[test]
fn it_is_told_why_there_is_no_store(rt: HostRuntime) -> Result<(), AllocError> {
    let mut disk = MemDisk::of(rt.alloc(), &[], &[], &[])?;
    is_made_once(&rt, rt.alloc(), &mut disk);
    let told = is_damaged(&rt, rt.alloc(), &disk);
    drop(disk);
    told
}

/// A disk whose second call fails.
fn failing(alloc: Global) -> Result<MemDisk, AllocError> {
    let mut disk = MemDisk::of(alloc, &[], &[], &[])?;
    disk.fail_at(1)?;
    Ok(disk)
}

#[test]
fn a_disk_that_fails_has_no_store(rt: HostRuntime) -> Result<(), AllocError> {
    let mut disk = failing(rt.alloc())?;
    let made = left(rt.alloc(), &mut disk);
    drop(disk);
    assert!(rt; made == Err(OpenError::Disk));
    Ok(())
}
