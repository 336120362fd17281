//! Books of crowds: each is one history, which the slow store tells the same.
use crate::asking::{check_lines, lines_with};
use crate::facts::holds;
use crate::watch::Watch;
use check_books::books::{Outcome, Share, outcome_of, share_of};
use check_books::runs::{
    CROWD, CROWD_NEW, Came, journal_on, left_on, run_crowd, run_failing, run_watched,
};
use check_books::scripts::{LINES_OF_THREE, OF_THREE};
use check_run::run::new_disk;
use check_run::saved::put_line;
use check_scripts::{LINES, StoreLines, script_line};
use std::alloc::{AllocError, Global};
use std::process::Abort;
use std::sync::Wait;
use std::thread::Threads;
use ut_app::Status;
use ut_outside::MemDisk;

/// The books of a script differ from run to run, so it is run so often.
const ROUNDS: u32 = 10;

/// Runs a crowd on a new store. All lines have their turns, the book is one history, and the store that is opened again is the one
/// behind it.
fn check_history(
    rt: &(impl Abort + Threads + Wait + Sync),
    alloc: Global,
    lines: &[u8],
    strangers: usize,
) -> Result<(), AllocError> {
    let crowd = run_failing(rt, alloc, lines, &[])?;
    check_book(rt, alloc, &crowd.came, lines, strangers, &crowd.disk)
}

/// What a book came to, whose turns were all answered and acknowledged.
fn outcome_behind(
    rt: &impl Abort,
    alloc: Global,
    came: &Came,
    strangers: usize,
) -> Result<Outcome, AllocError> {
    let Some(outcome) = outcome_of(alloc, &came.book, strangers)? else {
        panic!(rt; "a turn isn't told as the slow store tells it")
    };
    holds(rt, outcome.turns == came.acks.len());
    holds(rt, outcome.refused == 0 && !outcome.is_open());
    Ok(outcome)
}

/// A disk has what a book came to.
fn check_left(
    rt: &(impl Abort + Threads + Wait + Sync),
    alloc: Global,
    outcome: &Outcome,
    disk: &MemDisk,
) -> Result<(), AllocError> {
    let left = left_on(rt, alloc, disk)?;
    assert!(rt; outcome.is_left(&left), "{left:?}");
    Ok(())
}

fn check_book(
    rt: &(impl Abort + Threads + Wait + Sync),
    alloc: Global,
    came: &Came,
    lines: &[u8],
    strangers: usize,
    disk: &MemDisk,
) -> Result<(), AllocError> {
    holds(rt, came.status == Status::Done);
    holds(rt, share_of(alloc, lines, &came.book)? == Share::All);
    let outcome = outcome_behind(rt, alloc, came, strangers)?;
    check_left(rt, alloc, &outcome, disk)
}

#[test]
fn a_book_is_one_history(rt: HostRuntime) -> Result<(), AllocError> {
    for _ in 0..ROUNDS {
        check_history(&rt, rt.alloc(), OF_THREE, 0)?;
    }
    Ok(())
}

/// A line of the random script of a seed.
fn random_line(alloc: Global, seed: u64, number: u32) -> Result<Vec<u8>, AllocError> {
    let mut line = Vec::new(alloc);
    script_line(StoreLines::OfDelta, seed, number, &mut line)?;
    Ok(line)
}

/// The lines of the random script of a seed that are a session's.
fn random_lines(alloc: Global, seed: u64) -> Result<Vec<u8>, AllocError> {
    let mut lines = Vec::new(alloc);
    for number in 0..LINES {
        let line = random_line(alloc, seed, number)?;
        if !line.as_slice().starts_with(b"0 ") {
            put_line(&mut lines, &line)?;
        }
    }
    Ok(lines)
}

#[test]
fn books_of_random_lines_are_histories(rt: HostRuntime) -> Result<(), AllocError> {
    for seed in 1..20 {
        let lines = random_lines(rt.alloc(), seed)?;
        check_history(&rt, rt.alloc(), &lines, 0)?;
    }
    Ok(())
}

/// Lines outside the grammar: of sessions, and of nobody.
const BAD: &[u8] = b"1 insert T\n3 merge end\n0 save begin\n0 count T\n17 begin\n";

/// So many of them have no session that can be read.
const STRANGERS: usize = 3;

/// The lines of three sessions, with the bad ones at a place.
fn with_bad_lines(alloc: Global, place: usize) -> Result<Vec<u8>, AllocError> {
    let mut lines = Vec::new(alloc);
    for (number, line) in OF_THREE.split(|byte| *byte == b'\n').enumerate() {
        if number == place {
            lines.extend_from_slice(BAD)?;
        }
        if !line.is_empty() {
            put_line(&mut lines, line)?;
        }
    }
    Ok(lines)
}

#[test]
fn bad_lines_are_refused_in_each_place(rt: HostRuntime) -> Result<(), AllocError> {
    for place in 0..=LINES_OF_THREE {
        let lines = with_bad_lines(rt.alloc(), place)?;
        check_history(&rt, rt.alloc(), &lines, STRANGERS)?;
    }
    Ok(())
}

/// One session makes a table and fills it, another fills it too, and a line tries to be the store.
fn of_hundred(alloc: Global) -> Result<Vec<u8>, AllocError> {
    let mut lines = Vec::from_slice(alloc, b"0 merge end\n1 create T k:int\n")?;
    for _ in 0..49 {
        lines.extend_from_slice(b"1 insert T 7\n")?;
    }
    for _ in 0..50 {
        lines.extend_from_slice(b"2 insert T 7\n")?;
    }
    Ok(lines)
}

/// Runs the program's own words, with a hook. The book is one history.
fn check_watched(
    rt: &(impl Abort + Threads + Wait + Sync),
    alloc: Global,
    lines: &[u8],
    watch: &Watch,
) -> Result<(), AllocError> {
    let words = &["ut", "crowd", "--new", "--l1", "8"];
    let crowd = run_watched(rt, alloc, words, lines, watch)?;
    check_book(rt, alloc, &crowd.came, lines, 1, &crowd.disk)
}

/// The program's own words, with a hook that holds a session until a merge is built, and that build until three more lines are
/// answered.
#[test]
fn the_program_answers_lines_while_a_merge_is_built(rt: HostRuntime) -> Result<(), AllocError> {
    let watch = Watch::new();
    let lines = of_hundred(rt.alloc())?;
    check_watched(&rt, rt.alloc(), &lines, &watch)?;
    watch.check(&rt);
    Ok(())
}

/// Four sessions of the least number and the greatest and of two between, a comment, a line of nobody's, and one that tries to be the
/// store.
fn of_four_and_strangers(alloc: Global) -> Result<Vec<u8>, AllocError> {
    let mut lines = Vec::from_slice(
        alloc,
        b"nobody\n0 merge end\n# a comment\n1 create T k:int\n",
    )?;
    for _ in 0..10 {
        lines.extend_from_slice(b"1 insert T 7\n2 insert T 7\n9 count T\n16 bulk T 1 2 3\n")?;
    }
    Ok(lines)
}

/// How many turns sessions have, by what their lines begin with.
const TURNS: [(&[u8], usize); 4] = [(b"> 1 ", 11), (b"> 2 ", 10), (b"> 9 ", 10), (b"> 16 ", 10)];

/// So many turns these sessions have. The lines of nobody come first, and the store has turns of its own.
fn check_turns(rt: &impl Abort, book: &[u8]) {
    holds(
        rt,
        book.starts_with(b"> nobody\n? refused syntax\n> 0 merge end\n? refused syntax\n"),
    );
    holds(rt, lines_with(book, b"> 0 ") >= 2);
    check_lines(rt, book, &TURNS);
}

fn check_strangers(
    rt: &(impl Abort + Threads + Wait + Sync),
    alloc: Global,
    lines: &[u8],
    watch: &Watch,
) -> Result<(), AllocError> {
    let crowd = run_watched(rt, alloc, CROWD_NEW, lines, watch)?;
    check_turns(rt, &crowd.came.book);
    check_book(rt, alloc, &crowd.came, lines, 2, &crowd.disk)
}

#[test]
fn each_line_has_its_turn(rt: HostRuntime) -> Result<(), AllocError> {
    let watch = Watch::new(); // the store has a turn before the session of the ninth line goes on
    let lines = of_four_and_strangers(rt.alloc())?;
    check_strangers(&rt, rt.alloc(), &lines, &watch)
}

/// How many entries the journal of a crowd has that ends well, and all of whose lines were answered.
fn journal_behind(
    rt: &(impl Abort + Threads + Wait + Sync),
    alloc: Global,
    words: &[&str],
    disk: &mut MemDisk,
) -> Result<u64, AllocError> {
    let came = run_crowd(rt, alloc, words, OF_THREE, disk)?;
    holds(rt, came.status == Status::Done);
    holds(rt, share_of(alloc, OF_THREE, &came.book)? == Share::All);
    Ok(came.journal)
}

/// A crowd in a store that is there goes on where it stands.
fn check_second(
    rt: &(impl Abort + Threads + Wait + Sync),
    alloc: Global,
    disk: &mut MemDisk,
) -> Result<(), AllocError> {
    let first = journal_behind(rt, alloc, CROWD_NEW, disk)?;
    let second = journal_behind(rt, alloc, CROWD, disk)?;
    holds(rt, first < second);
    let there = journal_on(rt, alloc, disk)?;
    holds(rt, there == Some(second));
    Ok(())
}

fn check_two(rt: &(impl Abort + Threads + Wait + Sync), alloc: Global) -> Result<(), AllocError> {
    let mut disk = new_disk(alloc)?;
    check_second(rt, alloc, &mut disk)
}

#[test]
fn a_second_crowd_goes_on_behind_the_first(rt: HostRuntime) -> Result<(), AllocError> {
    check_two(&rt, rt.alloc())
}
