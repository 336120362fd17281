//! A long log is opened, many rows are replied, and the image of many rows is a chain of pages.
use check_run::run::{RUN, RUN_NEW, Ran, Run, run_new, run_on};
use std::alloc::{AllocError, Global};
use std::process::Abort;
use std::sync::Wait;
use std::thread::Threads;
use ut_app::Status;
use ut_outside::{MemDisk, Which};

/// How many entries the log has behind the one that makes the table.
const ENTRIES: u32 = 100_000;

/// How many rows are selected.
const ROWS: u32 = 1000;

/// An entry's bytes before and behind the id of its row: a transaction that inserts the number 5 into the first table.
const BEFORE_ID: &[u8] = b"\xa7\x16\0\0\0\x02\x01\0\0\0\x01\0\0";

const BEHIND_ID: &[u8] = b"\x01\x00\x80\0\0\0\0\0\0\x05";

/// A run ends well, with these replies.
fn check_replies(rt: &impl Abort, ran: &Ran, replies: &[u8]) {
    assert!(rt; ran.status == Status::Done && ran.replies.as_slice() == replies);
}

/// The log of a table, with a row for each entry more.
fn long_log(alloc: Global) -> Result<Vec<u8>, AllocError> {
    let mut redo = Vec::from_slice(alloc, b"\xa7\x07\0\0\0\x01\x01T\x01\x00\x01k")?;
    for id in 1..=ENTRIES {
        redo.extend_from_slice(BEFORE_ID)?;
        redo.extend_from_slice(&id.to_le_bytes())?;
        redo.extend_from_slice(BEHIND_ID)?;
    }
    redo.push(0)?;
    Ok(redo)
}

/// The page file of a new store, and a long log.
fn long_disk(
    rt: &(impl Abort + Threads + Wait + Sync),
    alloc: Global,
) -> Result<MemDisk, AllocError> {
    let redo = long_log(alloc)?;
    let made = run_new(rt, alloc, RUN_NEW, b"")?;
    assert!(rt; made.ran.status == Status::Done);
    let disk = MemDisk::of(alloc, &redo, &[], made.disk.bytes(Which::Pages));
    drop(made);
    disk
}

#[test]
fn a_log_of_many_entries_is_opened(rt: HostRuntime) -> Result<(), AllocError> {
    let mut disk = long_disk(&rt, rt.alloc())?;
    let script = b"1 count T where k = 5\n1 insert T 6\n1 count T\n";
    let ran = run_on(&rt, rt.alloc(), RUN, script, &mut disk);
    drop(disk);
    let ran = ran?;
    let wanted = b"1 count 100000\n1 ok 1 commit 100002\n1 count 100001\n";
    check_replies(&rt, &ran, wanted);
    Ok(())
}

/// The lines that insert many rows, and others behind them.
fn long_script(alloc: Global, behind: &[u8]) -> Result<Vec<u8>, AllocError> {
    let mut script = Vec::from_slice(alloc, b"1 create T k:int\n1 bulk T")?;
    for _ in 0..ROWS {
        script.extend_from_slice(b" 7")?;
    }
    script.push(b'\n')?;
    script.extend_from_slice(behind)?;
    Ok(script)
}

/// What a select of them is answered.
fn long_replies(alloc: Global) -> Result<Vec<u8>, AllocError> {
    let mut replies = Vec::from_slice(alloc, b"1 ok commit 1\n1 ok 1000 commit 2\n1 rows 1000\n")?;
    for _ in 0..ROWS {
        replies.extend_from_slice(b"7\n")?;
    }
    Ok(replies)
}

/// Runs the lines on a new disk, and hands out both.
fn check_long(
    rt: &(impl Abort + Threads + Wait + Sync),
    alloc: Global,
    behind: &[u8],
    replies: &[u8],
) -> Result<Run, AllocError> {
    let script = long_script(alloc, behind)?;
    let run = run_new(rt, alloc, RUN_NEW, &script)?;
    check_replies(rt, &run.ran, replies);
    Ok(run)
}

#[test]
fn many_rows_are_replied(rt: HostRuntime) -> Result<(), AllocError> {
    let wanted = long_replies(rt.alloc())?;
    let run = check_long(&rt, rt.alloc(), b"1 select T *\n", &wanted)?;
    drop(run);
    Ok(())
}

/// A savepoint in three steps, and what it is answered behind the lines that insert.
const SAVE: &[u8] =
    b"0 save begin\n0 save step 1\n0 save step 1\n0 save step 9\n0 save seal\n0 save flip\n";

const SAVED: &[u8] = b"1 ok commit 1\n1 ok 1000 commit 2\n\
    0 ok 0 of 3\n0 ok 1 of 3\n0 ok 2 of 3\n0 ok 3 of 3\n0 ok sealed 3\n0 ok root 2\n";

/// A directory of a thousand rows is a chain of three pages: 19 bytes, and 12 for each row.
#[test]
fn a_long_directory_is_a_chain_of_pages(rt: HostRuntime) -> Result<(), AllocError> {
    let mut run = check_long(&rt, rt.alloc(), SAVE, SAVED)?;
    let question = b"0 shape T\n1 count T where k = 7\n";
    let ran = run_on(&rt, rt.alloc(), RUN, question, &mut run.disk);
    drop(run);
    let ran = ran?;
    let again = b"0 shape l1 0 l2 1000 closed none parts none\n1 count 1000\n";
    check_replies(&rt, &ran, again);
    Ok(())
}
