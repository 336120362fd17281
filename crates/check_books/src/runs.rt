//! Runs of crowds over a disk and streams in memory, and what they leave.
use check_run::run::{RUN, copy_of, new_disk, run_on};
use check_run::saved::QUESTION;
use std::alloc::{AllocError, Global};
use std::sync::Wait;
use std::thread::Threads;
use ut_app::{Report, Status, top};
use ut_outside::{AckList, Hook, MemDisk, MemSink, MemSource, NoHook};

/// The words that answer a crowd with merges of few rows, in a store that is there and in one that is made.
pub const CROWD: &[&str] = &["ut", "crowd", "--l1", "2"];

pub const CROWD_NEW: &[&str] = &["ut", "crowd", "--new", "--l1", "2"];

/// The bytes that a source gives in one call.
const PIECE: usize = 4096;

/// How a crowd ended, its book, its acknowledgements, and how many entries its journal had.
pub struct Came {
    pub status: Status,
    pub book: Vec<u8>,
    pub acks: AckList,
    pub journal: u64,
}

// A drop of its own is one step of a proof wherever one is dropped. A derived one is a step for each part, at each place.
impl Drop for Came {
    fn drop(self) {
        let Came {
            status: _,
            book: _,
            acks: _,
            journal: _,
        } = self;
    }
}

pub fn run_crowd(
    rt: &(impl Threads + Wait + Sync),
    alloc: Global,
    words: &[&str],
    lines: &[u8],
    disk: &mut MemDisk,
) -> Result<Came, AllocError> {
    run_hooked(rt, alloc, words, lines, &NoHook, disk)
}

/// Runs a crowd with a hook.
pub fn run_hooked<H: Hook + Sync>(
    rt: &(impl Threads + Wait + Sync),
    alloc: Global,
    words: &[&str],
    lines: &[u8],
    hook: &H,
    disk: &mut MemDisk,
) -> Result<Came, AllocError> {
    let mut source = MemSource::new(alloc, lines, PIECE, None)?;
    let mut sink = MemSink::new(alloc, None);
    let report = top(rt, alloc, words, &mut source, &mut sink, disk, hook);
    came_of(alloc, report, sink.bytes())
}

fn came_of(alloc: Global, report: Report, book: &[u8]) -> Result<Came, AllocError> {
    let book = Vec::from_slice(alloc, book)?;
    Ok(Came {
        status: report.status,
        book,
        acks: report.acks,
        journal: report.journal,
    })
}

/// A crowd, and the disk that it leaves.
pub struct Crowd {
    pub came: Came,
    pub disk: MemDisk,
}

impl Drop for Crowd {
    fn drop(self) {
        let Crowd { came: _, disk: _ } = self;
    }
}

/// Runs a crowd on a new disk whose calls of these numbers fail.
pub fn run_failing(
    rt: &(impl Threads + Wait + Sync),
    alloc: Global,
    lines: &[u8],
    calls: &[u64],
) -> Result<Crowd, AllocError> {
    run_over(rt, alloc, CROWD_NEW, lines, &NoHook, failing(alloc, calls)?)
}

/// Runs a crowd on a new disk, with a hook.
pub fn run_watched<H: Hook + Sync>(
    rt: &(impl Threads + Wait + Sync),
    alloc: Global,
    words: &[&str],
    lines: &[u8],
    hook: &H,
) -> Result<Crowd, AllocError> {
    run_over(rt, alloc, words, lines, hook, new_disk(alloc)?)
}

fn failing(alloc: Global, calls: &[u64]) -> Result<MemDisk, AllocError> {
    let mut disk = new_disk(alloc)?;
    for call in calls {
        disk.fail_at(*call)?;
    }
    Ok(disk)
}

fn run_over<H: Hook + Sync>(
    rt: &(impl Threads + Wait + Sync),
    alloc: Global,
    words: &[&str],
    lines: &[u8],
    hook: &H,
    mut disk: MemDisk,
) -> Result<Crowd, AllocError> {
    match run_hooked(rt, alloc, words, lines, hook, &mut disk) {
        Ok(came) => Ok(Crowd { came, disk }),
        Err(error) => Err(error),
    }
}

/// What a disk has.
#[derive(Debug, Drop)]
pub enum Left {
    NoStore,
    /// A store that answers the question so.
    Answers(Vec<u8>),
    Else,
}

/// Opens a store, and asks for its rows, its stages, and the numbers of its merges and its commits. It is asked on a copy of the disk,
/// since the answer to a question that begins a merge and makes a table is another one the second time.
pub fn left_on(
    rt: &(impl Threads + Wait + Sync),
    alloc: Global,
    disk: &MemDisk,
) -> Result<Left, AllocError> {
    let mut copy = copy_of(alloc, disk)?;
    left_by(rt, alloc, &mut copy)
}

fn left_by(
    rt: &(impl Threads + Wait + Sync),
    alloc: Global,
    disk: &mut MemDisk,
) -> Result<Left, AllocError> {
    let ran = run_on(rt, alloc, RUN, QUESTION, disk)?;
    Ok(match ran.status {
        Status::NoStore => Left::NoStore,
        Status::Done => Left::Answers(ran.into_replies()),
        _ => Left::Else,
    })
}

/// Opens a store and asks it nothing: how many entries its journal has, if it is a store.
pub fn journal_on(
    rt: &(impl Threads + Wait + Sync),
    alloc: Global,
    disk: &mut MemDisk,
) -> Result<Option<u64>, AllocError> {
    let came = run_crowd(rt, alloc, RUN, b"", disk)?;
    Ok(match came.status {
        Status::Done => Some(came.journal),
        _ => None,
    })
}
