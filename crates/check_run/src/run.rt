//! Runs of the program over objects in memory.
use std::alloc::{AllocError, Global};
use std::sync::Wait;
use std::thread::Threads;
use ut_app::{Report, Status, top};
use ut_outside::{AckList, MemDisk, MemSink, MemSource, NoHook, Which};

/// The words that open a store, and those that make one.
pub const RUN: &[&str] = &["ut", "run"];

pub const RUN_NEW: &[&str] = &["ut", "run", "--new"];

/// The bytes that a source gives in one call.
pub const PIECE: usize = 4096;

/// How a run ended, and what it wrote.
pub struct Ran {
    pub status: Status,
    pub replies: Vec<u8>,
    pub acks: AckList,
    pub journal: u64,
}

// A drop of its own is one step of a proof wherever one is dropped. A derived one is a step for each part, at each place.
impl Drop for Ran {
    fn drop(self) {
        let Ran {
            status: _,
            replies: _,
            acks: _,
            journal: _,
        } = self;
    }
}

impl Ran {
    /// What it wrote.
    pub fn into_replies(self) -> Vec<u8> {
        let Ran {
            status: _,
            replies,
            acks: _,
            journal: _,
        } = self;
        replies
    }
}

/// A run, and the disk that it leaves.
#[derive(Drop)]
pub struct Run {
    pub ran: Ran,
    pub disk: MemDisk,
}

/// A disk whose files are empty.
pub fn new_disk(alloc: Global) -> Result<MemDisk, AllocError> {
    MemDisk::of(alloc, &[], &[], &[])
}

/// Runs a script on a disk.
pub fn run_on(
    rt: &(impl Threads + Wait + Sync),
    alloc: Global,
    words: &[&str],
    script: &[u8],
    disk: &mut MemDisk,
) -> Result<Ran, AllocError> {
    let mut source = MemSource::new(alloc, script, PIECE, None)?;
    let sink = MemSink::new(alloc, None);
    run_between(rt, alloc, words, &mut source, sink, disk)
}

/// A run on a new disk.
pub fn run_new(
    rt: &(impl Threads + Wait + Sync),
    alloc: Global,
    words: &[&str],
    script: &[u8],
) -> Result<Run, AllocError> {
    let mut disk = new_disk(alloc)?;
    match run_on(rt, alloc, words, script, &mut disk) {
        Ok(ran) => Ok(Run { ran, disk }),
        Err(error) => Err(error),
    }
}

/// Runs the program between a source and a sink.
pub fn run_between(
    rt: &(impl Threads + Wait + Sync),
    alloc: Global,
    words: &[&str],
    source: &mut MemSource,
    mut sink: MemSink,
    disk: &mut MemDisk,
) -> Result<Ran, AllocError> {
    let report = top(rt, alloc, words, source, &mut sink, disk, &NoHook);
    ran_of(alloc, report, sink.bytes())
}

fn ran_of(alloc: Global, report: Report, replies: &[u8]) -> Result<Ran, AllocError> {
    let replies = Vec::from_slice(alloc, replies)?;
    Ok(Ran {
        status: report.status,
        replies,
        acks: report.acks,
        journal: report.journal,
    })
}

/// A disk with the same files, all of it durable.
pub fn copy_of(alloc: Global, disk: &MemDisk) -> Result<MemDisk, AllocError> {
    MemDisk::of(
        alloc,
        disk.bytes(Which::Redo),
        disk.bytes(Which::Redo2),
        disk.bytes(Which::Pages),
    )
}
