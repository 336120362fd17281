//! Crowds: sessions on threads over the top call, with merges and savepoints beside them, over faults of the disk and the sink.
use check_run::run::{Ran, Run, new_disk, run_between, run_on};
use std::alloc::{AllocError, Global};
use std::process::Abort;
use std::sync::Wait;
use std::thread::Threads;
use ut_app::Status;
use ut_outside::{Disk, MemDisk, MemSink, MemSource, Tear};

/// The words that make a store and answer a crowd, with merges of few rows.
const CROWD_NEW: &[&str] = &["ut", "crowd", "--new", "--l1", "2"];

/// The words that answer a crowd in a store that is there.
const CROWD: &[&str] = &["ut", "crowd"];

/// Four sessions, a comment, a line of nobody's, and one that speaks for the store.
const LINES: &[u8] = b"nobody\n0 merge end\n# a comment\n\
    1 create T k:int\n1 insert T 7\n2 insert T 7\n9 count T\n16 bulk T 1 2 3\n\
    1 insert T 7\n2 insert T 7\n9 count T\n16 bulk T 1 2 3\n\
    1 insert T 7\n2 insert T 7\n9 count T\n16 bulk T 1 2 3\n";

/// What the book begins with.
const FRONT: &[u8] = b"> nobody\n? refused syntax\n> 0 merge end\n? refused syntax\n";

/// How many of the lines are a session's.
const TURNS: usize = 13;

/// Runs the lines from a source and into a sink, of which the calls of these numbers fail.
fn run_into(
    rt: &(impl Threads + Wait + Sync),
    alloc: Global,
    words: &[&str],
    unread: Option<u64>,
    unwritten: Option<u64>,
    disk: &mut MemDisk,
) -> Result<Ran, AllocError> {
    let mut source = MemSource::new(alloc, LINES, 7, unread)?;
    let sink = MemSink::new(alloc, unwritten);
    let ran = run_between(rt, alloc, words, &mut source, sink, disk);
    drop(source);
    ran
}

/// The same, where neither fails.
fn run_crowd(
    rt: &(impl Threads + Wait + Sync),
    alloc: Global,
    words: &[&str],
    disk: &mut MemDisk,
) -> Result<Ran, AllocError> {
    run_into(rt, alloc, words, None, None, disk)
}

/// The same on a disk whose calls of these numbers fail from now on.
fn run_with_faults(
    rt: &(impl Threads + Wait + Sync),
    alloc: Global,
    calls: &[u64],
    disk: &mut MemDisk,
) -> Result<Ran, AllocError> {
    for call in calls {
        disk.fail_at(*call)?;
    }
    run_crowd(rt, alloc, CROWD_NEW, disk)
}

/// Runs the lines on a new disk whose calls of these numbers fail.
fn run_failing(
    rt: &(impl Threads + Wait + Sync),
    alloc: Global,
    calls: &[u64],
) -> Result<Run, AllocError> {
    let mut disk = new_disk(alloc)?;
    let ran = run_with_faults(rt, alloc, calls, &mut disk)?;
    Ok(Run { ran, disk })
}

/// How often these bytes stand in a text.
fn times(text: &[u8], bytes: &[u8]) -> usize {
    let mut times: usize = 0;
    for at in 0..text.len() {
        if text[at..].starts_with(bytes) {
            times = times.saturating_add(1);
        }
    }
    times
}

/// How many turns of sessions a book has.
fn turns_in(book: &[u8]) -> usize {
    let mut turns: usize = 0;
    for arrow in [
        b"> 1 ".as_slice(),
        b"> 2 ".as_slice(),
        b"> 9 ".as_slice(),
        b"> 16 ".as_slice(),
    ] {
        turns = turns.saturating_add(times(book, arrow));
    }
    turns
}

/// How many commits a book tells.
fn commits_in(book: &[u8]) -> usize {
    times(book, b" commit ")
}

/// A number that is followed by what is no digit.
fn number_in(bytes: &[u8]) -> usize {
    let mut number: usize = 0;
    for digit in bytes {
        if digit.is_ascii_digit() {
            number = number.saturating_mul(10);
            number = number.saturating_add((*digit & 15) as usize);
        }
    }
    number
}

/// How many commits a store has, as the number of the next one says.
fn commits_on(
    rt: &(impl Threads + Wait + Sync),
    alloc: Global,
    disk: &mut MemDisk,
) -> Result<usize, AllocError> {
    let ran = run_on(rt, alloc, &["ut", "run"], b"1 create Z k:int\n", disk)?;
    let next = match ran.replies.strip_prefix(b"1 ok commit ") {
        Some(number) => number_in(number),
        None => 0,
    };
    Ok(next.saturating_sub(1))
}

fn check_turns(rt: &impl Abort, ran: &Ran) {
    let book = ran.replies.as_slice();
    assert!(rt; ran.status == Status::Done && book.starts_with(FRONT));
    assert!(rt; turns_in(book) == TURNS && times(book, b"> ") == ran.acks.len());
}

/// Each line has its turn, and the commits that are told are there.
fn check_made(
    rt: &(impl Abort + Threads + Wait + Sync),
    alloc: Global,
    run: &mut Run,
) -> Result<(), AllocError> {
    check_turns(rt, &run.ran);
    let there = commits_on(rt, alloc, &mut run.disk)?;
    assert!(rt; there == commits_in(run.ran.replies.as_slice()));
    Ok(())
}

#[test]
fn each_line_has_its_turn(rt: HostRuntime) -> Result<(), AllocError> {
    let mut run = run_failing(&rt, rt.alloc(), &[])?;
    let checked = check_made(&rt, rt.alloc(), &mut run);
    drop(run);
    checked
}

/// How a crowd ended, and what its book tells.
#[derive(Clone, Copy)]
struct Told {
    status: Status,
    turns: usize,
    commits: usize,
    /// Nothing was written, and no line answered.
    is_nothing: bool,
}

fn told_in(ran: &Ran) -> Told {
    let book = ran.replies.as_slice();
    Told {
        status: ran.status,
        turns: turns_in(book),
        commits: commits_in(book),
        is_nothing: book.is_empty() && ran.acks.len() == 0,
    }
}

fn told_on(
    rt: &(impl Threads + Wait + Sync),
    alloc: Global,
    words: &[&str],
    disk: &mut MemDisk,
) -> Result<Told, AllocError> {
    let ran = run_crowd(rt, alloc, words, disk)?;
    let told = told_in(&ran);
    drop(ran);
    Ok(told)
}

/// A crowd in a store that is there goes on where it stands; without a store there is none.
fn check_opened(
    rt: &(impl Abort + Threads + Wait + Sync),
    alloc: Global,
    disk: &mut MemDisk,
) -> Result<(), AllocError> {
    let none = told_on(rt, alloc, CROWD, disk)?;
    let made = told_on(rt, alloc, CROWD_NEW, disk)?;
    let twice = told_on(rt, alloc, CROWD_NEW, disk)?;
    let again = told_on(rt, alloc, CROWD, disk)?;
    assert!(rt; none.status == Status::NoStore && made.status == Status::Done);
    assert!(rt; twice.status == Status::Exists && again.status == Status::Done);
    let there = commits_on(rt, alloc, disk)?;
    let commits = made.commits.saturating_add(again.commits);
    assert!(rt; again.turns == TURNS && there == commits);
    Ok(())
}

#[test]
fn a_crowd_opens_what_is_there(rt: HostRuntime) -> Result<(), AllocError> {
    let mut disk = new_disk(rt.alloc())?;
    let checked = check_opened(&rt, rt.alloc(), &mut disk);
    drop(disk);
    checked
}

/// What a crowd tells whose source fails.
fn told_unread(
    rt: &(impl Threads + Wait + Sync),
    alloc: Global,
    disk: &mut MemDisk,
) -> Result<Told, AllocError> {
    let ran = run_into(rt, alloc, CROWD, Some(3), None, disk)?;
    let told = told_in(&ran);
    drop(ran);
    Ok(told)
}

/// Nothing is run where there are too many lines, or the source fails.
fn check_unread(
    rt: &(impl Abort + Threads + Wait + Sync),
    alloc: Global,
    disk: &mut MemDisk,
) -> Result<(), AllocError> {
    let few = &["ut", "crowd", "--new", "--lines", "15"];
    let long = told_on(rt, alloc, few, disk)?;
    assert!(rt; long.status == Status::TooLong && long.is_nothing);
    let cut = told_unread(rt, alloc, disk)?;
    let there = commits_on(rt, alloc, disk)?;
    assert!(rt; cut.status == Status::ReadFault && cut.is_nothing && there == 0);
    Ok(())
}

#[test]
fn nothing_is_run_before_all_is_read(rt: HostRuntime) -> Result<(), AllocError> {
    let mut disk = new_disk(rt.alloc())?;
    let checked = check_unread(&rt, rt.alloc(), &mut disk);
    drop(disk);
    checked
}

/// A crowd whose disk may fail ends well or tells of it, once, where it wrote its book.
fn check_fault(rt: &impl Abort, ran: &Ran, call: u64) {
    let book = ran.replies.as_slice();
    let is_right = match ran.status {
        Status::Done => true,
        Status::DiskFault => book.is_empty() || times(book, b" fault disk\n") == 1,
        _ => false,
    };
    assert!(rt; is_right, "at {call}");
}

/// How many commits a crash behind all leaves.
fn commits_behind(
    rt: &(impl Threads + Wait + Sync),
    alloc: Global,
    disk: &MemDisk,
) -> Result<usize, AllocError> {
    let mut image = disk.image(disk.calls(), Tear::Old)?;
    let commits = commits_on(rt, alloc, &mut image);
    drop(image);
    commits
}

fn check_failing(
    rt: &(impl Abort + Threads + Wait + Sync),
    alloc: Global,
    run: &Run,
    call: u64,
) -> Result<(), AllocError> {
    check_fault(rt, &run.ran, call);
    let told = commits_in(run.ran.replies.as_slice());
    let there = commits_behind(rt, alloc, &run.disk)?;
    let is_kept = told <= there && there <= told.saturating_add(1);
    assert!(rt; is_kept, "at {call}: {told} told, {there} there");
    Ok(())
}

fn check_call(
    rt: &(impl Abort + Threads + Wait + Sync),
    alloc: Global,
    call: u64,
) -> Result<(), AllocError> {
    let run = run_failing(rt, alloc, &[call])?;
    let checked = check_failing(rt, alloc, &run, call);
    drop(run);
    checked
}

/// Each call of the disk fails in turn: what the book tells is there again.
#[test]
fn a_fault_of_the_disk_loses_nothing_that_was_told(rt: HostRuntime) -> Result<(), AllocError> {
    for call in 0..90 {
        check_call(&rt, rt.alloc(), call)?;
    }
    Ok(())
}

/// A run into a sink whose call of a number fails.
fn run_unwritten(
    rt: &(impl Threads + Wait + Sync),
    alloc: Global,
    call: u64,
) -> Result<Ran, AllocError> {
    let mut disk = new_disk(alloc)?;
    let ran = run_into(rt, alloc, CROWD_NEW, None, Some(call), &mut disk);
    drop(disk);
    ran
}

/// The sink fails at each byte of the front: what was written is that front, and all lines were answered.
#[test]
fn a_fault_of_the_sink_cuts_the_book(rt: HostRuntime) -> Result<(), AllocError> {
    for call in [0, 1] {
        let ran = run_unwritten(&rt, rt.alloc(), call)?;
        let is_cut = ran.status == Status::WriteFault && ran.replies.is_empty();
        let are_answered = ran.acks.len() >= TURNS;
        drop(ran);
        assert!(rt; (call != 0 || is_cut) && are_answered, "at {call}");
    }
    Ok(())
}
