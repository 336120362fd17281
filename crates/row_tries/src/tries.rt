//! What is tried with a row that was run.
use crate::crashes::{crash_in, each_crash, moment_at, torn};
use crate::faults::{each_fault, fault_at, two_faults};
use crate::files::{BYTES, CUT, are_spelled, each_place, hold, opened_with, opened_with_two};
use crate::left::Must;
use crate::scene::Scene;
use crate::streams::{commented, each_unread, in_pieces, unwritten};
use check_run::run::Ran;
use row_files::{Try, number_in};
use std::alloc::{AllocError, Global};
use std::sync::Wait;
use std::thread::Threads;
use ut_app::Status;
use ut_outside::{Ack, Disk, MemDisk, Tear};

/// What isn't as it must be: the call, moment or place where it is tried, the tear of a crash, and how the run ended, with so many
/// entries of the journal.
#[derive(Clone, Copy, Debug)]
pub struct Trouble {
    pub at: u64,
    pub tear: Option<Tear>,
    pub end: Option<Status>,
    pub entries: u64,
}

impl Trouble {
    /// Nothing was run, since there is no such place.
    pub(crate) fn at(at: u64) -> Trouble {
        Trouble {
            at,
            tear: None,
            end: None,
            entries: 0,
        }
    }

    pub(crate) fn of(at: u64, ran: &Ran) -> Trouble {
        Trouble {
            at,
            tear: None,
            end: Some(ran.status),
            entries: ran.journal,
        }
    }

    fn unless(is_right: bool) -> Option<Trouble> {
        if is_right {
            return None;
        }
        Some(Trouble::at(0))
    }
}

/// Tries what a line of a row says.
pub(crate) fn tried(
    rt: &(impl Threads + Wait + Sync),
    alloc: Global,
    scene: Scene<'_, '_>,
    acks: &[Ack],
    disk: &MemDisk,
    one: Try<'_>,
) -> Result<Option<Trouble>, AllocError> {
    match one {
        Try::CrashEach => each_crash(rt, alloc, scene, acks, disk),
        Try::CrashIn(line, wanted) => crash_in(rt, alloc, scene, acks, disk, line, wanted),
        Try::CrashAt(place, tear, wanted) => {
            let moment = moment_at(acks, place).unwrap_or(u64::MAX);
            torn(rt, alloc, scene, disk, moment, tear, Must::Be(wanted))
        }
        Try::FaultAt(place, tear, wanted) => {
            let call = moment_at(acks, place).unwrap_or(u64::MAX);
            fault_at(rt, alloc, scene, acks, call, tear, wanted)
        }
        Try::FaultEach => each_fault(rt, alloc, scene, acks, disk.calls(), None),
        Try::FaultEachAnd(more) => { each_fault(rt, alloc, scene, acks, disk.calls(), Some(more)) }
        Try::FaultAnd(call, more) => two_faults(rt, alloc, scene, acks, call, more),
        Try::SourceEach
        | Try::Sink(_, _)
        | Try::Pieces(_)
        | Try::CommentDone(_)
        | Try::CommentTooLong(_) => tried_streams(rt, alloc, scene, one),
        Try::Patched(_, _)
        | Try::PatchedTwice(_, _, _)
        | Try::CutEach(_, _)
        | Try::ByteEach(_, _) => tried_files(rt, alloc, scene, disk, one),
        _ => Ok(Trouble::unless(is_so(acks, disk, one))),
    }
}

// Tries streams.
fn tried_streams(
    rt: &(impl Threads + Wait + Sync),
    alloc: Global,
    scene: Scene<'_, '_>,
    one: Try<'_>,
) -> Result<Option<Trouble>, AllocError> {
    match one {
        Try::SourceEach => each_unread(rt, alloc, scene),
        Try::Sink(call, replies) => unwritten(rt, alloc, scene, call, replies),
        Try::Pieces(len) => in_pieces(rt, alloc, scene, len),
        Try::CommentDone(len) => commented(rt, alloc, scene, len, Status::Done),
        Try::CommentTooLong(len) => commented(rt, alloc, scene, len, Status::TooLong),
        _ => Ok(Trouble::unless(false)),
    }
}

// Tries files that are changed.
fn tried_files(
    rt: &(impl Threads + Wait + Sync),
    alloc: Global,
    scene: Scene<'_, '_>,
    disk: &MemDisk,
    one: Try<'_>,
) -> Result<Option<Trouble>, AllocError> {
    match one {
        Try::Patched(patch, wanted) => opened_with(rt, alloc, scene, disk, patch, wanted),
        Try::PatchedTwice(first, second, wanted) => {
            opened_with_two(rt, alloc, scene, disk, first, second, wanted)
        }
        Try::CutEach(file, wanted) => each_place(rt, alloc, scene, disk, file, CUT, wanted),
        Try::ByteEach(file, wanted) => each_place(rt, alloc, scene, disk, file, BYTES, wanted),
        _ => Ok(Trouble::unless(false)),
    }
}

// Whether what was told and what the files hold is as a line says.
fn is_so(acks: &[Ack], disk: &MemDisk, one: Try<'_>) -> bool {
    match one {
        Try::Entries(numbers) => are_entries(acks, numbers),
        Try::Replies(count) => acks.len() == count,
        Try::Holds(file, at, hex) => hold(disk.bytes(file), at, hex),
        Try::IsAll(file, hex) => are_spelled(disk.bytes(file), hex),
        Try::Has(file, len) => disk.bytes(file).len() == len,
        _ => false,
    }
}

// Whether the journal had so many entries at each reply.
fn are_entries(acks: &[Ack], numbers: &str) -> bool {
    let mut place: usize = 0;
    for number in numbers.split(' ') {
        if acks.get(place).map(|ack| ack.journal) != number_in(number) {
            return false;
        }
        place = place.saturating_add(1);
    }
    place == acks.len()
}
