//! A page file that was just made, byte for byte.
use std::alloc::Global;
use std::process::Abort;
use std::test::Fail;
use ut_outside::{MemDisk, Which};
use ut_pages::{Pages, Root};

// All bytes of a made file.
fn are_made(rt: &impl Abort, bytes: &[u8]) {
    assert!(rt; bytes.len() == 12288);
    for (at, byte) in bytes.iter().enumerate() {
        let told = match at {
            0 => 0x55,
            4096 => 2,
            4112 => 1,
            _ => 0,
        };
        assert!(rt; *byte == told, "at {at}");
    }
}

// There is a segment of no bytes, and the first pages are free.
fn has_none(
    rt: &impl Abort,
    alloc: Global,
    pages: &mut Pages,
    disk: &mut MemDisk,
) -> Result<(), Fail> {
    let none = pages.segment(alloc, disk, 0, 0)?;
    let free = pages.free_pages(alloc, 2)?;
    assert!(rt; none.is_empty());
    assert!(rt; matches!(&free, Some(free) if free.as_slice() == [3, 4].as_slice()));
    Ok(())
}

#[test]
fn a_made_file_has_an_empty_root_and_no_pages(rt: HostRuntime) -> Result<(), Fail> {
    let alloc = rt.alloc();
    let mut disk = MemDisk::of(alloc, &[], &[], &[])?;
    Pages::make(&mut disk)?;
    are_made(&rt, disk.bytes(Which::Pages));
    let (mut pages, root, directory) = Pages::read(alloc, &mut disk)?;
    assert!(rt; root == Root::empty() && directory.is_empty());
    has_none(&rt, alloc, &mut pages, &mut disk)
}
