//! Crashes amid the run of a row: what is opened then has each entry that was told, and the root that was selected.
use crate::left::{Base, Must, meets, moment_of};
use crate::scene::Scene;
use crate::tries::Trouble;
use check_run::run::{RUN, RUN_NEW, run_on};
use row_files::{Place, Row, Wanted};
use std::alloc::{AllocError, Global};
use std::sync::Wait;
use std::thread::Threads;
use ut_outside::{Ack, Disk, MemDisk, Tear};

/// What a crash may make of what isn't synced.
const TEARS: [Tear; 6] = [
    Tear::Old,
    Tear::New,
    Tear::Fill(0x00),
    Tear::Fill(0xA7),
    Tear::Fill(0x33),
    Tear::Fill(0xFF),
];

/// What there is of a row's store before its script.
pub(crate) fn base_of(
    rt: &(impl Threads + Wait + Sync),
    alloc: Global,
    scene: Scene<'_, '_>,
) -> Result<Base, AllocError> {
    let mut disk = scene.disk(alloc)?;
    base_on(rt, alloc, scene.row, &mut disk)
}

fn base_on(
    rt: &(impl Threads + Wait + Sync),
    alloc: Global,
    row: &Row<'_>,
    disk: &mut MemDisk,
) -> Result<Base, AllocError> {
    if row.behind.is_some() {
        let ran = run_on(rt, alloc, RUN, b"", disk)?;
        return Ok(Base {
            making: 0,
            entries: ran.journal,
        });
    }
    let _made = run_on(rt, alloc, RUN_NEW, b"", disk)?;
    Ok(Base {
        making: disk.calls(),
        entries: 0,
    })
}

/// A crash at each moment.
pub(crate) fn each_crash(
    rt: &(impl Threads + Wait + Sync),
    alloc: Global,
    scene: Scene<'_, '_>,
    acks: &[Ack],
    disk: &MemDisk,
) -> Result<Option<Trouble>, AllocError> {
    let base = base_of(rt, alloc, scene)?;
    for moment in 0..=disk.calls() {
        let must = Must::Keep(base.kept_at(scene.row, acks, moment));
        if let Some(trouble) = torn_each(rt, alloc, scene, disk, moment, must)? {
            return Ok(Some(trouble));
        }
    }
    Ok(None)
}

/// A crash at each moment from the reply before a line to its own, if it calls the disk.
pub(crate) fn crash_in(
    rt: &(impl Threads + Wait + Sync),
    alloc: Global,
    scene: Scene<'_, '_>,
    acks: &[Ack],
    disk: &MemDisk,
    line: usize,
    wanted: Wanted,
) -> Result<Option<Trouble>, AllocError> {
    let from = moment_of(acks, line.saturating_sub(1));
    let to = moment_of(acks, line);
    if from >= to || to > disk.calls() {
        return Ok(Some(Trouble::at(to)));
    }
    for moment in from..=to {
        let must = Must::Be(wanted);
        if let Some(trouble) = torn_each(rt, alloc, scene, disk, moment, must)? {
            return Ok(Some(trouble));
        }
    }
    Ok(None)
}

/// The moment at a place of a run. Without one there is none at that place.
pub(crate) fn moment_at(acks: &[Ack], place: Place) -> Option<u64> {
    acks.get(place.line)?.moment.checked_sub(place.before)
}

/// A crash with each tear.
pub(crate) fn torn_each(
    rt: &(impl Threads + Wait + Sync),
    alloc: Global,
    scene: Scene<'_, '_>,
    disk: &MemDisk,
    moment: u64,
    must: Must,
) -> Result<Option<Trouble>, AllocError> {
    for tear in TEARS {
        if let Some(trouble) = torn(rt, alloc, scene, disk, moment, tear, must)? {
            return Ok(Some(trouble));
        }
    }
    Ok(None)
}

/// A crash at a moment, with a tear.
pub(crate) fn torn(
    rt: &(impl Threads + Wait + Sync),
    alloc: Global,
    scene: Scene<'_, '_>,
    disk: &MemDisk,
    moment: u64,
    tear: Tear,
    must: Must,
) -> Result<Option<Trouble>, AllocError> {
    if moment > disk.calls() {
        return Ok(Some(Trouble::at(moment)));
    }
    let mut image = disk.image(moment, tear)?;
    torn_on(rt, alloc, scene, moment, tear, must, &mut image)
}

// What is opened on what a crash left.
fn torn_on(
    rt: &(impl Threads + Wait + Sync),
    alloc: Global,
    scene: Scene<'_, '_>,
    moment: u64,
    tear: Tear,
    must: Must,
    image: &mut MemDisk,
) -> Result<Option<Trouble>, AllocError> {
    let left = scene.asked_on(rt, alloc, image)?;
    if meets(scene.row, &left, must) {
        return Ok(None);
    }
    Ok(Some(Trouble {
        tear: Some(tear),
        ..Trouble::of(moment, &left)
    }))
}
