//! A group of two entries byte for byte, and what a crash at each moment of it leaves.
ghost use Rattle.std.specs.Prelude.{◌≡◌, ◌+◌, ◌≤◌, ◌^◌, length};
ghost use Rattle.ut_outside.specs.MemDisks.{mem_view};
ghost use Rattle.ut_redo.specs.Appends.{HasClosedGate};

use crate::frame::frame_of;
use std::alloc::Global;
use std::process::Abort;
use std::test::Fail;
use ut_outside::{Disk, MemDisk, Tear, Which};
use ut_redo::{Frame, Redo};
use ut_value::same_bytes;

/// A table of one column, and two rows of it.
const CREATE: &[u8] = b"\x01\x01T\x01\x00\x01k";

const FIRST: &[u8] = b"\x02\x01\0\0\0\x01\0\0\x01\0\0\0\x01\x00\x80\0\0\0\0\0\0\x01";

const SECOND: &[u8] = b"\x02\x01\0\0\0\x01\0\0\x02\0\0\0\x01\x00\x80\0\0\0\0\0\0\x02";

const TEARS: [Tear; 5] = [
    Tear::Old,
    Tear::New,
    Tear::Fill(0x00),
    Tear::Fill(0xA7),
    Tear::Fill(0xFF),
];

// Both entries at once.
fn both(disk: &mut MemDisk, redo: &mut Redo, first: &Frame, second: &Frame) -> Result<(), Fail>
    requires low { redo.old.place.end ≤ 2 ^ 61 }
    requires gate { HasClosedGate redo.old.place (mem_view disk.old) }
    requires short { length first.now.payload + length second.now.payload ≤ 2 ^ 30 }
{
    redo.group_begin(disk, first.size() + second.size())?;
    redo.group_add(disk, first)?;
    redo.group_add(disk, second)?;
    redo.group_end(disk)?;
    Ok(())
}

// How many entries a crash of that kind at that moment leaves.
fn left(alloc: Global, disk: &MemDisk, moment: u64, tear: Tear) -> Result<usize, Fail>
    requires { moment ≤ (mem_view disk.now).moment }
{
    let mut image = disk.image(moment, tear)?;
    let read = Redo::read_all(alloc, &mut image, Which::Redo, 0);
    drop(image);
    let (_, entries) = read?;
    Ok(entries.len())
}

// A table is logged, and then both entries at once. Tells how many calls there were before them.
fn logs(
    rt: &impl Abort,
    disk: &mut MemDisk,
    create: &Frame,
    first: &Frame,
    second: &Frame,
) -> Result<u64, Fail> {
    assert!(rt; first.size() == 22 && second.size() == 22);
    let mut redo = Redo::make(disk)?;
    redo.append(disk, create)?;
    let (_, end) = redo.place();
    assert!(rt; end == 12);
    let calls = disk.calls();
    assert!(rt; calls < 100);
    both(disk, &mut redo, first, second)?;
    assert!(rt; disk.calls() == calls + 7 && redo.place().1 == 61);
    Ok(calls)
}

fn logs_group(rt: &impl Abort, alloc: Global, disk: &mut MemDisk) -> Result<u64, Fail> {
    let create = frame_of(rt, alloc, CREATE)?;
    let first = frame_of(rt, alloc, FIRST)?;
    let second = frame_of(rt, alloc, SECOND)?;
    logs(rt, disk, &create, &first, &second)
}

// A crash at a moment of the group leaves the table alone, or all. Tells of how many kinds all is left.
fn left_whole(rt: &impl Abort, alloc: Global, disk: &MemDisk, moment: u64) -> Result<u32, Fail> {
    assert!(rt; moment <= disk.calls());
    let mut whole = 0_u32;
    for tear in &TEARS {
        let entries = left(alloc, disk, moment, *tear)?;
        assert!(rt; entries == 1 || entries == 3, "{entries} at {moment}");
        if entries == 3 {
            whole = whole.saturating_add(1);
        }
    }
    Ok(whole)
}

// The same at each moment from a call on.
fn are_left_whole(rt: &impl Abort, alloc: Global, disk: &MemDisk, calls: u64) -> Result<(), Fail> {
    let mut whole = 0_u32;
    for moment in calls..=disk.calls() {
        whole = whole.saturating_add(left_whole(rt, alloc, disk, moment)?);
    }
    assert!(rt; whole >= 5);
    Ok(())
}

/// The log of all three.
const LOG: &[u8] =
    b"\xa7\x07\0\0\0\x01\x01T\x01\x00\x01k\xa7\x2c\0\0\0\x02\x01\0\0\0\x01\0\0\x01\0\0\0\x01\x00\x80\0\0\0\0\0\0\x01\x02\x01\0\0\0\x01\0\0\x02\0\0\0\x01\x00\x80\0\0\0\0\0\0\x02\x00";

fn counts_at_once(rt: &impl Abort, alloc: Global, disk: &mut MemDisk) -> Result<(), Fail> {
    let calls = logs_group(rt, alloc, disk)?;
    assert!(rt; same_bytes(disk.bytes(Which::Redo), LOG));
    are_left_whole(rt, alloc, disk, calls)
}

#[test]
fn a_group_counts_at_once(rt: HostRuntime) -> Result<(), Fail> {
    let mut disk = MemDisk::of(rt.alloc(), b"left", &[], &[])?;
    let counted = counts_at_once(&rt, rt.alloc(), &mut disk);
    drop(disk);
    counted
}
