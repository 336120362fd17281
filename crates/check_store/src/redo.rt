//! A log byte for byte, in its first file and behind a Switch frame, which takes seven calls of the disk.
use crate::frame::frame_of;
use std::alloc::Global;
use std::process::Abort;
use std::test::Fail;
use ut_outside::{Disk, Failed, MemDisk, Which};
use ut_redo::{Frame, Redo, RedoError};
use ut_value::same_bytes;

/// A table of one column, and a row of it.
const CREATE: &[u8] = b"\x01\x01T\x01\x00\x01k";

const INSERT: &[u8] = b"\x02\x01\0\0\0\x01\0\0\x01\0\0\0\x01\x00\x80\0\0\0\0\0\0\x01";

/// The file with the table, and the one with the row.
const FIRST: &[u8] = b"\xa7\x07\0\0\0\x01\x01T\x01\x00\x01k\xa7\x01\0\0\0\x05\x00";

const SECOND: &[u8] =
    b"\xa7\x16\0\0\0\x02\x01\0\0\0\x01\0\0\x01\0\0\0\x01\x00\x80\0\0\0\0\0\0\x01\x00";

// An entry is logged in the first file, and another one in the second.
fn switches(
    rt: &impl Abort,
    disk: &mut MemDisk,
    create: &Frame,
    insert: &Frame,
) -> Result<(), Failed> {
    let mut redo = Redo::make(disk)?;
    redo.append(disk, create)?;
    let (file, end) = redo.place();
    let calls = disk.calls();
    assert!(rt; file == Which::Redo && end == 12 && calls < 100);
    redo.switch(disk)?;
    assert!(rt; disk.calls() == calls + 7);
    redo.append(disk, insert)
}

// The table and its row are logged.
fn logs(rt: &impl Abort, alloc: Global, disk: &mut MemDisk) -> Result<(), Fail> {
    let create = frame_of(rt, alloc, CREATE)?;
    let insert = frame_of(rt, alloc, INSERT)?;
    switches(rt, disk, &create, &insert)?;
    Ok(())
}

// Both entries are read.
fn reads(rt: &impl Abort, alloc: Global, disk: &mut MemDisk) -> Result<(), RedoError> {
    let (read, entries) = Redo::read_all(alloc, disk, Which::Redo, 0)?;
    let (file, end) = read.place();
    assert!(rt; entries.len() == 2 && file == Which::Redo2 && end == 27);
    Ok(())
}

fn goes_on(rt: &impl Abort, alloc: Global, disk: &mut MemDisk) -> Result<(), Fail> {
    logs(rt, alloc, disk)?;
    assert!(rt; same_bytes(disk.bytes(Which::Redo), FIRST));
    assert!(rt; same_bytes(disk.bytes(Which::Redo2), SECOND));
    reads(rt, alloc, disk)?;
    Ok(())
}

#[test]
fn a_log_goes_on_in_its_other_file(rt: HostRuntime) -> Result<(), Fail> {
    let mut disk = MemDisk::of(rt.alloc(), b"left", b"over", &[])?;
    let gone = goes_on(&rt, rt.alloc(), &mut disk);
    drop(disk);
    gone
}
