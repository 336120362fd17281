//! The verdict on a crowd in which an allocation may have been refused.
use crate::books::{Share, outcome_of, share_of};
use crate::runs::{Came, journal_on, left_on, run_failing};
use crate::scripts::OF_THREE;
use std::alloc::{AllocError, Global};
use std::fmt;
use std::sync::Wait;
use std::thread::Threads;
use ut_app::Status;
use ut_outside::MemDisk;

/// What may be wrong with a run or a crowd.
#[derive(Clone, Copy, Debug, PartialEq, Eq)]
pub enum Wrong {
    /// The last line of a run that was answered should have another reply.
    Reply,
    /// A turn of its book, or a turn behind the one in which the disk failed.
    Turn,
    /// The lines that have a turn.
    Lines,
    /// It shouldn't have ended so.
    End,
    /// The store that is opened again has other rows or entries than were told.
    Left,
}

/// What a run or a crowd came to.
#[derive(Clone, Copy)]
pub struct Verdict {
    status: Status,
    wrong: Option<Wrong>,
}

impl Verdict {
    pub fn new(status: Status, wrong: Option<Wrong>) -> Verdict {
        Verdict { status, wrong }
    }

    pub fn is_right(&self) -> bool {
        self.wrong.is_none()
    }
}

impl fmt::Display for Verdict {
    fn fmt<W: fmt::Write>(&self, f: &mut fmt::Formatter<W>) -> fmt::Result {
        let status = self.status;
        match self.wrong {
            None => write!(f, "right, {status:?}"),
            Some(wrong) => write!(f, "WRONG {wrong:?}, {status:?}"),
        }
    }
}

/// The verdict on a crowd of three sessions over a new store.
pub fn verdict_on(rt: &(impl Threads + Wait + Sync), alloc: Global) -> Result<Verdict, AllocError> {
    let mut crowd = run_failing(rt, alloc, OF_THREE, &[])?;
    let wrong = wrong_in(rt, alloc, &crowd.came, &mut crowd.disk)?;
    Ok(Verdict::new(crowd.came.status, wrong))
}

fn wrong_in(
    rt: &(impl Threads + Wait + Sync),
    alloc: Global,
    came: &Came,
    disk: &mut MemDisk,
) -> Result<Option<Wrong>, AllocError> {
    match came.status {
        Status::Done => wrong_in_book(rt, alloc, came, disk),
        Status::DiskFault if !came.book.is_empty() => wrong_in_book(rt, alloc, came, disk),
        Status::DiskFault | Status::Memory | Status::ReadFault | Status::WriteFault => {
            wrong_without_book(rt, alloc, came, disk)
        }
        _ => Ok(Some(Wrong::End)),
    }
}

/// What is wrong with a crowd that wrote its whole book.
fn wrong_in_book(
    rt: &(impl Threads + Wait + Sync),
    alloc: Global,
    came: &Came,
    disk: &mut MemDisk,
) -> Result<Option<Wrong>, AllocError> {
    let Some(outcome) = outcome_of(alloc, &came.book, 0)? else {
        return Ok(Some(Wrong::Turn));
    };
    let is_done = came.status == Status::Done;
    if outcome.is_open() && is_done {
        return Ok(Some(Wrong::End));
    }
    let share = share_of(alloc, OF_THREE, &came.book)?;
    if share == Share::Else || (is_done && share != Share::All) {
        return Ok(Some(Wrong::Lines));
    }
    // Asked twice, since what lacked memory once has it then.
    for _ in 0..2 {
        let left = left_on(rt, alloc, disk)?;
        if outcome.is_left(&left) {
            return Ok(None);
        }
    }
    Ok(Some(Wrong::Left))
}

/// What is wrong with a crowd that wrote nothing: each acknowledgement has its entries in the store, and where there is none the
/// store may not be made.
fn wrong_without_book(
    rt: &(impl Threads + Wait + Sync),
    alloc: Global,
    came: &Came,
    disk: &mut MemDisk,
) -> Result<Option<Wrong>, AllocError> {
    if !came.book.is_empty() {
        return Ok(Some(Wrong::End));
    }
    let told = came.acks.as_slice().last().map_or(0, |ack| ack.journal);
    for _ in 0..2 {
        let is_left = match journal_on(rt, alloc, disk)? {
            Some(there) => told <= there && there == came.journal,
            None => came.acks.len() == 0 && came.journal == 0,
        };
        if is_left {
            return Ok(None);
        }
    }
    Ok(Some(Wrong::Left))
}
