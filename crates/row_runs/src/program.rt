//! Rows on the program's top call, over a disk and streams in memory.
use crate::wrong::say_wrong;
use anyhow::Result;
use check_run::run::copy_of;
use check_run::verdict::Tally;
use row_files::Row;
use row_tries::{Found, check_row};
use std::alloc::{AllocError, Global};
use std::sync::Wait;
use std::thread::Threads;
use ut_outside::MemDisk;

/// Runs rows, and says those that are answered otherwise.
pub(crate) fn tally_of(
    rt: &(impl Print + Threads + Wait + Sync),
    alloc: Global,
    rows: &[Row<'_>],
) -> Result<Tally> {
    let mut disks = Vec::new(alloc);
    let mut tally = Tally::new();
    for row in rows {
        let mut disk = disk_for(alloc, disks.as_slice(), row)?;
        let is_right = is_answered(rt, alloc, row, &mut disk);
        disks.push(disk)?;
        tally.count(is_right?);
    }
    Ok(tally)
}

fn is_answered(
    rt: &(impl Print + Threads + Wait + Sync),
    alloc: Global,
    row: &Row<'_>,
    disk: &mut MemDisk,
) -> Result<bool> {
    let found = check_row(rt, alloc, row, disk)?;
    is_right(rt, row, &found)
}

// The disk that a row is for: as the row left it that it stands behind, or an empty one.
fn disk_for(alloc: Global, disks: &[MemDisk], row: &Row<'_>) -> Result<MemDisk, AllocError> {
    match row.behind {
        Some(place) if place < disks.len() => copy_of(alloc, &disks[place]),
        _ => MemDisk::of(alloc, &[], &[], &[]),
    }
}

// Whether a row is right. Else it is said.
fn is_right(rt: &impl Print, row: &Row<'_>, found: &Found) -> Result<bool> {
    let name = row.name;
    match found {
        Found::Right => return Ok(true),
        Found::NoSuchPlace => println!(rt; "row {name}: what is changed before it isn't there")?,
        Found::Told(told) => say_wrong(rt, row, "the program", told.as_slice())?,
        Found::Tried { line, trouble } => {
            println!(rt; "row {name}: what line {line} tries isn't as it must be: {trouble:?}")?
        }
    }
    Ok(false)
}
