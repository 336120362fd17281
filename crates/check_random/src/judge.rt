//! A run in which an allocation may have been refused, judged by the slow store.
//!
//! A line that was answered by `refused memory` has changed nothing: the slow store passes over it.
use crate::compare::{AMPLE, apart_in_questions};
use crate::worked::lines_of;
use check_books::judge::{Verdict, Wrong};
use check_oracle::Oracle;
use check_run::run::{RUN, RUN_NEW, Ran, Run, run_new, run_on};
use check_scripts::Answers;
use std::alloc::{AllocError, Global};
use std::fmt;
use std::sync::Wait;
use std::thread::Threads;
use ut_app::Status;
use ut_outside::MemDisk;

/// What a run came to.
#[derive(Clone, Copy)]
pub(crate) struct Judged {
    verdict: Verdict,
    answered: usize,
    refused: usize,
}

impl Judged {
    pub fn is_right(&self) -> bool {
        self.verdict.is_right()
    }
}

impl fmt::Display for Judged {
    fn fmt<W: fmt::Write>(&self, f: &mut fmt::Formatter<W>) -> fmt::Result {
        let verdict = self.verdict;
        let answered = self.answered;
        let refused = self.refused;
        write!(
            f,
            "{verdict} after {answered} lines, {refused} of them refused memory"
        )
    }
}

/// A slow store that follows what a run has told.
struct Follower<'a> {
    /// What is still to be followed.
    rest: &'a [u8],
    /// So many lines were answered, and so many of them refused for want of memory.
    answered: usize,
    refused: usize,
    store: Oracle,
    /// The store without the last line, where its commit is open: the disk failed, or its reply couldn't be written.
    before: Option<Oracle>,
}

// One step of a proof, wherever one is dropped.
impl<'a> Drop for Follower<'a> {
    fn drop(self) {
        let Follower {
            rest: _,
            answered: _,
            refused: _,
            store: _,
            before: _,
        } = self;
    }
}

impl<'a> Follower<'a> {
    fn new(alloc: Global, told: &'a [u8]) -> Result<Follower<'a>, AllocError> {
        Ok(Follower {
            rest: told,
            answered: 0,
            refused: 0,
            store: Oracle::new(alloc, AMPLE)?,
            before: None,
        })
    }

    // Whether a line was answered as it may be. A run that has told all that it told answered no further line.
    fn follow(&mut self, alloc: Global, line: &str) -> Result<bool, AllocError> {
        if self.before.is_some() {
            return Ok(false);
        }
        self.answered = self.answered.saturating_add(1);
        if let Some(rest) = behind(alloc, self.rest, line, "refused memory")? {
            self.rest = rest;
            self.refused = self.refused.saturating_add(1);
            return Ok(may_lack_memory(line));
        }
        if let Some(rest) = behind(alloc, self.rest, line, "fault disk")? {
            self.rest = rest;
            self.leave_open(alloc, line)?;
            return Ok(true);
        }
        let reply = self.reply_to(alloc, line)?;
        let Some(rest) = self.rest.strip_prefix(reply.as_slice()) else {
            return Ok(false);
        };
        self.rest = rest;
        Ok(true)
    }

    fn reply_to(&mut self, alloc: Global, line: &str) -> Result<Vec<u8>, AllocError> {
        let mut reply = Vec::new(alloc);
        self.store.answer(alloc, line.as_bytes(), &mut reply)?;
        Ok(reply)
    }

    // The run ended at a line whose commit may be there or not.
    fn leave_open(&mut self, alloc: Global, line: &str) -> Result<(), AllocError> {
        self.before = Some(self.store.reopened(alloc, AMPLE)?);
        let _reply = self.reply_to(alloc, line)?;
        Ok(())
    }

    // What is wrong with a run of these lines that ended so, if anything is.
    fn wrong_in(
        &mut self,
        rt: &(impl Threads + Wait + Sync),
        alloc: Global,
        lines: &[&str],
        status: Status,
        disk: &mut MemDisk,
    ) -> Result<Option<Wrong>, AllocError> {
        for line in lines {
            if self.rest.is_empty() {
                if status == Status::WriteFault {
                    self.leave_open(alloc, line)?;
                }
                break;
            }
            if !self.follow(alloc, line)? {
                return Ok(Some(Wrong::Reply));
            }
        }
        if !self.may_end(status, lines.len()) {
            return Ok(Some(Wrong::End));
        }
        let is_left = self.is_left(rt, alloc, disk)?;
        Ok(if is_left { None } else { Some(Wrong::Left) })
    }

    // Whether a run of so many lines may have ended so.
    fn may_end(&self, status: Status, lines: usize) -> bool {
        let is_told = self.rest.is_empty();
        match status {
            Status::Done => is_told && self.answered == lines && self.before.is_none(),
            Status::Memory | Status::ReadFault => is_told && self.before.is_none(),
            Status::DiskFault => is_told && (self.answered == 0 || self.before.is_some()),
            Status::WriteFault => is_told && self.before.is_some(),
            _ => false,
        }
    }

    // Whether the disk has what was told, and no more than that and an open commit.
    fn is_left(
        &self,
        rt: &(impl Threads + Wait + Sync),
        alloc: Global,
        disk: &mut MemDisk,
    ) -> Result<bool, AllocError> {
        if self.answered == 0 && run_on(rt, alloc, RUN, b"", disk)?.status == Status::NoStore {
            return Ok(true);
        }
        if has_rows_of(rt, alloc, &self.store, disk)? {
            return Ok(true);
        }
        match &self.before {
            Some(store) => has_rows_of(rt, alloc, store, disk),
            None => Ok(false),
        }
    }
}

// Whether a disk has the rows of a slow store. It is asked twice, since what lacked memory once has it then.
fn has_rows_of(
    rt: &(impl Threads + Wait + Sync),
    alloc: Global,
    store: &Oracle,
    disk: &mut MemDisk,
) -> Result<bool, AllocError> {
    for _ in 0..2 {
        let mut again = store.reopened(alloc, AMPLE)?;
        if apart_in_questions(rt, alloc, &mut again, disk)?.is_none() {
            return Ok(true);
        }
    }
    Ok(false)
}

// What stands behind the reply of a text to a line, where that reply comes first.
fn behind<'a>(
    alloc: Global,
    told: &'a [u8],
    line: &str,
    text: &str,
) -> Result<Option<&'a [u8]>, AllocError> {
    let session = line.split(' ').next().unwrap_or("?");
    let reply = format!(in alloc; "{session} {text}\n")?;
    Ok(told.strip_prefix(reply.as_bytes()))
}

// What ends a transaction takes no memory, and no statement of a savepoint but its begin.
fn may_lack_memory(line: &str) -> bool {
    let mut words = line.split(' ').skip(1);
    match words.next() {
        Some("commit" | "abort") => false,
        Some("save") => words.next() == Some("begin"),
        _ => true,
    }
}

/// The verdict on a run of the worked script of that number over a new store.
pub(crate) fn verdict_on(
    rt: &(impl Threads + Wait + Sync),
    alloc: Global,
    number: usize,
) -> Result<Judged, AllocError> {
    let lines = lines_of(alloc, number)?;
    verdict_of(rt, alloc, &lines)
}

fn verdict_of(
    rt: &(impl Threads + Wait + Sync),
    alloc: Global,
    lines: &[&str],
) -> Result<Judged, AllocError> {
    let mut run = run_of(rt, alloc, lines)?;
    judged_by(rt, alloc, lines, &run.ran, &mut run.disk)
}

fn run_of(
    rt: &(impl Threads + Wait + Sync),
    alloc: Global,
    lines: &[&str],
) -> Result<Run, AllocError> {
    let script = script_of(alloc, lines)?;
    run_new(rt, alloc, RUN_NEW, &script)
}

fn script_of(alloc: Global, lines: &[&str]) -> Result<Vec<u8>, AllocError> {
    let mut script = Vec::new(alloc);
    for line in lines {
        script.extend_from_slice(line.as_bytes())?;
        script.push(b'\n')?;
    }
    Ok(script)
}

// The verdict on what a run of those lines told and left on its disk.
fn judged_by(
    rt: &(impl Threads + Wait + Sync),
    alloc: Global,
    lines: &[&str],
    ran: &Ran,
    disk: &mut MemDisk,
) -> Result<Judged, AllocError> {
    let mut follower = Follower::new(alloc, &ran.replies)?;
    let wrong = follower.wrong_in(rt, alloc, lines, ran.status, disk)?;
    Ok(Judged {
        verdict: Verdict::new(ran.status, wrong),
        answered: follower.answered,
        refused: follower.refused,
    })
}
