//! Faults that are planned come, in the call that was named and in no other: of a disk, a source and a sink in memory.
use std::alloc::{AllocError, Global};
use std::process::Abort;
use ut_outside::{Disk, Failed, MemDisk, MemSink, MemSource, Sink, Source, Which};
use ut_value::same_bytes;

/// How many kinds of calls a disk has.
const KINDS: u64 = 5;

// A call of each kind, by its number.
fn ask(disk: &mut MemDisk, kind: u64) -> Result<(), Failed> {
    match kind {
        0 => {
            disk.size(Which::Redo)?;
        }
        1 => {
            let mut byte = [0u8; 1];
            disk.read_at(Which::Pages, 0, &mut byte)?;
        }
        2 => disk.write_at(Which::Redo, 0, b"L")?,
        3 => disk.cut(Which::Redo2, 1)?,
        _ => disk.sync(Which::Redo)?,
    }
    Ok(())
}

// A disk in whose files something stands, and whose call of a number fails.
fn failing(alloc: Global, planned: u64) -> Result<MemDisk, AllocError> {
    let mut disk = MemDisk::of(alloc, b"left", b"over", b"pages")?;
    disk.fail_at(planned)?;
    Ok(disk)
}

// Of a call of each kind this one fails, and leaves no byte.
fn fails_once(rt: &impl Abort, disk: &mut MemDisk, planned: u64) {
    for kind in 0..KINDS {
        let failed = ask(disk, kind).is_err();
        assert!(rt; failed == (kind == planned), "{kind} of {planned}");
    }
    let written = same_bytes(disk.bytes(Which::Redo), b"Left");
    assert!(rt;
        disk.calls() == KINDS && written == (planned != 2),
        "{planned}"
    );
}

#[test]
fn a_planned_call_of_a_disk_fails(rt: HostRuntime) -> Result<(), AllocError> {
    for planned in 0..KINDS {
        let mut disk = failing(rt.alloc(), planned)?;
        fails_once(&rt, &mut disk, planned);
        drop(disk);
    }
    Ok(())
}

#[test]
fn a_planned_call_of_a_source_fails(rt: HostRuntime) -> Result<(), AllocError> {
    let sink = MemSink::new(rt.alloc(), None);
    let mut source = MemSource::new(rt.alloc(), b"abcd", 2, Some(1))?;
    for call in 0..4u64 {
        let mut buf = [0u8; 8];
        let told = Source::<MemSink>::take(&mut source, &sink, &mut buf);
        let is_planned = match told {
            Ok(count) => call != 1 && count == if call == 3 { 0 } else { 2 },
            Err(_) => call == 1,
        };
        assert!(rt; is_planned, "{call}");
    }
    assert!(rt; source.asks().len() == 3);
    Ok(())
}

#[test]
fn a_planned_call_of_a_sink_fails(rt: HostRuntime) -> Result<(), AllocError> {
    let disk = MemDisk::of(rt.alloc(), &[], &[], &[])?;
    let mut sink = MemSink::new(rt.alloc(), Some(1));
    for call in 0..3u64 {
        let failed = sink.give(&disk, b"ab").is_err();
        assert!(rt; failed == (call == 1), "{call}");
    }
    assert!(rt; same_bytes(sink.bytes(), b"abab"));
    drop(disk);
    Ok(())
}
