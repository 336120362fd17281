//! Sources and sinks that fail, and input past the limits.
use crate::facts::{holds, holds_at};
use check_books::books::is_front;
use check_books::runs::{CROWD_NEW, Came, Crowd, journal_on};
use check_books::scripts::OF_TWO;
use check_run::run::new_disk;
use check_run::saved::put_line;
use check_run::told::last_told;
use std::alloc::{AllocError, Global};
use std::process::Abort;
use std::sync::Wait;
use std::thread::Threads;
use ut_app::{Status, top};
use ut_outside::{Disk, Failed, MemDisk, MemSink, MemSource, NoHook, Sink, Taken};

/// The longest line that is read.
const LINE_LIMIT: usize = 65536;

/// No book of two sessions is so long.
const MOST: u64 = 10_000;

/// A sink that takes one byte a call, and fails once it took so many.
#[derive(Drop)]
struct Narrow {
    bytes: Vec<u8>,
    left: u64,
    faults: u64,
}

impl Taken for Narrow {
    ghost use Rattle.std.specs.Prelude.{None};

    ghost held = { λ _. None };

    fn taken(&self) -> u64 {
        self.bytes.len() as u64
    }
}

impl<D: Disk> Sink<D> for Narrow {
    ghost use Rattle.std.specs.Prelude.{[], ℕ, List, Option, MatchOption};
    ghost use Rattle.std.proofs.Common.{subst};

    ghost moments = { λ _. [] };

    ghost faults = { λ s. s.faults };

    fn give(&mut self, _: &D, bytes: &[u8]) -> Result<usize, Failed> {
        if self.left == 0 || self.bytes.push(bytes[0]).is_err() {
            self.faults = self.faults.saturating_add(1);
            return Err(Failed);
        }
        self.left = self.left.saturating_sub(1);
        Ok(1)
    }

    ghost one_each = { λ _ bytes is. absurd (subst (λ (held : Option (List ℕ)). MatchOption held (Unit {0}) (λ _. ⊥)) is tt) };
}

/// Runs the crowd of two sessions into a sink that takes so many bytes.
fn run_narrow(
    rt: &(impl Threads + Wait + Sync),
    alloc: Global,
    bytes: u64,
    disk: &mut MemDisk,
) -> Result<Came, AllocError> {
    let mut source = MemSource::new(alloc, OF_TWO, 7, None)?;
    let mut sink = Narrow {
        bytes: Vec::new(alloc),
        left: bytes,
        faults: 0,
    };
    let report = top(rt, alloc, CROWD_NEW, &mut source, &mut sink, disk, &NoHook);
    let Narrow {
        bytes: book,
        left: _,
        faults: _,
    } = sink;
    Ok(Came {
        status: report.status,
        book,
        acks: report.acks,
        journal: report.journal,
    })
}

/// A crowd whose sink fails, and the disk that it leaves.
fn crowd_into(
    rt: &(impl Threads + Wait + Sync),
    alloc: Global,
    bytes: u64,
) -> Result<Crowd, AllocError> {
    let mut disk = new_disk(alloc)?;
    let came = run_narrow(rt, alloc, bytes, &mut disk)?;
    Ok(Crowd { came, disk })
}

/// All lines were answered, and are there again.
fn check_answered(
    rt: &(impl Abort + Threads + Wait + Sync),
    alloc: Global,
    came: &Came,
    disk: &mut MemDisk,
) -> Result<(), AllocError> {
    holds(rt, came.acks.len() >= 8);
    let there = journal_on(rt, alloc, disk)?;
    holds(rt, there == Some(came.journal));
    holds(rt, last_told(came.acks.as_slice()) == came.journal);
    Ok(())
}

/// A book that was written as far as its sink took it.
fn check_cut(rt: &impl Abort, alloc: Global, came: &Came, bytes: u64) -> Result<(), AllocError> {
    let len = came.book.len() as u64;
    holds_at(rt, is_front(alloc, &came.book, 1)?, bytes);
    if came.status == Status::Done {
        holds(rt, len <= bytes);
    } else {
        holds_at(rt, came.status == Status::WriteFault, bytes);
        holds(rt, len == bytes);
    }
    Ok(())
}

/// Whether a sink that takes so many bytes takes the whole book.
fn takes_all(
    rt: &(impl Abort + Threads + Wait + Sync),
    alloc: Global,
    bytes: u64,
) -> Result<bool, AllocError> {
    let mut crowd = crowd_into(rt, alloc, bytes)?;
    check_answered(rt, alloc, &crowd.came, &mut crowd.disk)?;
    check_cut(rt, alloc, &crowd.came, bytes)?;
    Ok(crowd.came.status == Status::Done)
}

#[test]
fn a_fault_of_the_sink_at_each_byte_cuts_the_book(rt: HostRuntime) -> Result<(), AllocError> {
    for bytes in 0..MOST {
        if takes_all(&rt, rt.alloc(), bytes)? {
            return Ok(());
        }
    }
    panic!(rt; "no book of eight lines is so long")
}

/// How a crowd over a source ends, of which no line is answered.
fn status_of_nothing(
    rt: &(impl Abort + Threads + Wait + Sync),
    alloc: Global,
    words: &[&str],
    source: &mut MemSource,
    disk: &mut MemDisk,
) -> Status {
    let mut sink = MemSink::new(alloc, None);
    let report = top(rt, alloc, words, source, &mut sink, disk, &NoHook);
    holds(rt, sink.bytes().is_empty() && report.acks.len() == 0);
    holds(rt, report.lines == 0 && report.journal == 0);
    report.status
}

/// Runs a crowd over a source, and looks that no line is answered.
fn check_nothing_on(
    rt: &(impl Abort + Threads + Wait + Sync),
    alloc: Global,
    words: &[&str],
    source: &mut MemSource,
    status: Status,
    disk: &mut MemDisk,
) -> Result<(), AllocError> {
    let ended = status_of_nothing(rt, alloc, words, source, disk);
    holds(rt, ended == status);
    holds(rt, journal_on(rt, alloc, disk)? == Some(0));
    Ok(())
}

fn check_nothing_run(
    rt: &(impl Abort + Threads + Wait + Sync),
    alloc: Global,
    words: &[&str],
    mut source: MemSource,
    status: Status,
) -> Result<(), AllocError> {
    let mut disk = new_disk(alloc)?;
    check_nothing_on(rt, alloc, words, &mut source, status, &mut disk)
}

#[test]
fn a_fault_of_the_source_at_each_call_runs_nothing(rt: HostRuntime) -> Result<(), AllocError> {
    for call in 0..=OF_TWO.len() as u64 {
        let source = MemSource::new(rt.alloc(), OF_TWO, 1, Some(call))?;
        check_nothing_run(&rt, rt.alloc(), CROWD_NEW, source, Status::ReadFault)?;
    }
    Ok(())
}

/// Puts a comment of so many bytes behind others.
fn put_comment(lines: &mut Vec<u8>, len: usize) -> Result<(), AllocError> {
    let end = lines.len().saturating_add(len);
    lines.resize(end, b'#')?;
    lines.push(b'\n')?;
    Ok(())
}

/// The lines of two sessions, with a comment of so many bytes at a place.
fn with_comment(alloc: Global, place: usize, len: usize) -> Result<Vec<u8>, AllocError> {
    let mut lines = Vec::new(alloc);
    for (number, line) in OF_TWO.split(|byte| *byte == b'\n').enumerate() {
        if number == place {
            put_comment(&mut lines, len)?;
        }
        if !line.is_empty() {
            put_line(&mut lines, line)?;
        }
    }
    Ok(lines)
}

/// A source of these lines, with a comment of so many bytes at a place.
fn commented(alloc: Global, place: usize, len: usize) -> Result<MemSource, AllocError> {
    let lines = with_comment(alloc, place, len)?;
    MemSource::new(alloc, &lines, 4096, None)
}

#[test]
fn a_line_that_is_too_long_runs_nothing(rt: HostRuntime) -> Result<(), AllocError> {
    for place in 0..=8 {
        let source = commented(rt.alloc(), place, LINE_LIMIT + 1)?;
        check_nothing_run(&rt, rt.alloc(), CROWD_NEW, source, Status::TooLong)?;
    }
    Ok(())
}

#[test]
fn more_lines_than_the_limit_run_nothing(rt: HostRuntime) -> Result<(), AllocError> {
    for limit in ["1", "2", "3", "4", "5", "6", "7"] {
        let words = &["ut", "crowd", "--new", "--lines", limit];
        let source = MemSource::new(rt.alloc(), OF_TWO, 4096, None)?;
        check_nothing_run(&rt, rt.alloc(), words, source, Status::TooLong)?;
    }
    Ok(())
}

/// All nine lines of a source are answered.
fn run_nine(
    rt: &(impl Abort + Threads + Wait + Sync),
    alloc: Global,
    source: &mut MemSource,
    sink: &mut MemSink,
    disk: &mut MemDisk,
) {
    let words = &["ut", "crowd", "--new", "--lines", "9"];
    let report = top(rt, alloc, words, source, sink, disk, &NoHook);
    holds(rt, report.status == Status::Done);
    holds(rt, report.lines == 9);
}

fn check_nine_on(
    rt: &(impl Abort + Threads + Wait + Sync),
    alloc: Global,
    source: &mut MemSource,
    disk: &mut MemDisk,
) -> Result<(), AllocError> {
    let mut sink = MemSink::new(alloc, None);
    run_nine(rt, alloc, source, &mut sink, disk);
    holds(rt, is_front(alloc, sink.bytes(), 1)?);
    Ok(())
}

fn check_nine(
    rt: &(impl Abort + Threads + Wait + Sync),
    alloc: Global,
    mut source: MemSource,
) -> Result<(), AllocError> {
    let mut disk = new_disk(alloc)?;
    check_nine_on(rt, alloc, &mut source, &mut disk)
}

/// A line at the limit, and as many lines as there may be.
#[test]
fn input_at_the_limits_is_answered(rt: HostRuntime) -> Result<(), AllocError> {
    for len in [LINE_LIMIT, 1] {
        let source = commented(rt.alloc(), 4, len)?;
        check_nine(&rt, rt.alloc(), source)?;
    }
    Ok(())
}
