//! The calls of ut_crowd by hand: a crowd of two sessions over a new store, and the text of a book.
ghost use Rattle.std.specs.Prelude.{IfOk};
ghost use Rattle.ut_plain.specs.Plain.{Plain};
ghost use Rattle.ut_engine.specs.Runs.{Runs};

use crate::asking::check_lines;
use crate::facts::holds;
use check_run::run::new_disk;
use std::alloc::{AllocError, Global};
use std::collections::VecDeque;
use std::process::Abort;
use std::sync::Wait;
use std::thread::Threads;
use ut_crowd::{Asked, Ended, Turn, crowd, put_book};
use ut_engine::{Engine, OpenError};
use ut_merge::Builder;
use ut_outside::{Disk, MemDisk, NoHook};
use ut_plain::{Refusal, Reply, Statement};
use ut_value::Seq;

/// More ids, and more rows, than these lines insert: so nothing is merged.
const AMPLE: u32 = 1000;

/// Two sessions, each with a table of its own, so that their answers hang on the other's turns in the numbers of commits alone.
const LINES: [&[u8]; 6] = [
    b"1 create T k:int",
    b"1 insert T 7",
    b"1 select T *",
    b"2 create U k:int",
    b"2 insert U 8",
    b"2 select U *",
];

/// What lines of the text of their book begin with, and how many do.
const TOLD: [(&[u8], usize); 10] = [
    (b"> 1 ", 3),
    (b"1 ok commit ", 1),
    (b"1 ok 1 commit ", 1),
    (b"1 rows 1", 1),
    (b"7", 1),
    (b"> 2 ", 3),
    (b"2 ok commit ", 1),
    (b"2 ok 1 commit ", 1),
    (b"2 rows 1", 1),
    (b"8", 1),
];

fn seq_of(alloc: Global, bytes: &[u8]) -> Result<Seq<u8>, AllocError> {
    Ok(Seq::from_vec(Vec::from_slice(alloc, bytes)?))
}

fn put(alloc: Global, lines: &mut VecDeque<Seq<u8>>, line: &[u8]) -> Result<(), AllocError> {
    match lines.push_back(seq_of(alloc, line)?) {
        Ok(()) => Ok(()),
        Err(_) => Err(AllocError),
    }
}

pub(crate) fn lines_of(alloc: Global, all: &[&[u8]]) -> Result<VecDeque<Seq<u8>>, AllocError> {
    let mut lines = VecDeque::new(alloc);
    for line in all {
        put(alloc, &mut lines, line)?;
    }
    Ok(lines)
}

pub(crate) fn made<D: Disk>(alloc: Global, disk: &mut D) -> Result<Engine<'_, D>, OpenError>
    ensures { IfOk result (λ e. (p : Plain) × Runs e.store (D.view e.disk) p) }
{
    match Engine::make(alloc, disk, AMPLE) {
        Ok(engine) => Ok(engine),
        Err(unopened) => Err(unopened.cause),
    }
}

/// What a crowd came to: its book, whether each line was answered, and how many entries the store has that came back.
#[derive(Drop)]
struct Came {
    book: Vec<Turn>,
    all: bool,
    entries: u32,
}

fn taken_apart(ended: Ended<'_, MemDisk>) -> Came {
    let entries = ended.engine.journal_len();
    let Ended {
        engine,
        book,
        all,
        stopped: _,
    } = ended;
    let _disk = engine.release();
    Came { book, all, entries }
}

fn run(
    rt: &(impl Abort + Threads + Wait + Sync),
    alloc: Global,
    disk: &mut MemDisk,
    lines: VecDeque<Seq<u8>>,
) -> Result<Came, AllocError> {
    let builder = Builder::alone(rt, &NoHook);
    match made(alloc, disk) {
        Ok(engine) => match crowd(rt, alloc, engine, lines, AMPLE, &builder, &NoHook) {
            Ok(ended) => Ok(taken_apart(ended)),
            Err(back) => {
                let _disk = back.value.release();
                panic!(rt; "no memory for a crowd")
            }
        },
        Err(_) => panic!(rt; "the store is not made"),
    }
}

/// Runs the lines on a new disk.
fn run_new(
    rt: &(impl Abort + Threads + Wait + Sync),
    alloc: Global,
    lines: VecDeque<Seq<u8>>,
) -> Result<Came, AllocError> {
    let mut disk = new_disk(alloc)?;
    run(rt, alloc, &mut disk, lines)
}

fn text_of(alloc: Global, book: &[Turn]) -> Result<Vec<u8>, AllocError> {
    let mut text = Vec::new(alloc);
    put_book(&mut text, book)?;
    Ok(text)
}

/// So many lines of the text of a book begin so.
pub(crate) fn check_told(
    rt: &impl Abort,
    alloc: Global,
    book: &[Turn],
    told: &[(&[u8], usize)],
) -> Result<(), AllocError> {
    let text = text_of(alloc, book)?;
    check_lines(rt, &text, told);
    Ok(())
}

/// Two tables are made, and a row is put into each of them. Each line of each session has its turn and its answer.
#[test]
fn two_sessions_are_answered(rt: HostRuntime) -> Result<(), AllocError> {
    let lines = lines_of(rt.alloc(), &LINES)?;
    let came = run_new(&rt, rt.alloc(), lines)?;
    holds(&rt, came.all && came.book.len() == LINES.len());
    holds(&rt, came.entries == 4);
    check_told(&rt, rt.alloc(), &came.book, &TOLD)
}

/// A turn behind others. How many entries the journal has, and the moment, aren't in the text.
fn put_turn(
    book: &mut Vec<Turn>,
    session: Option<u8>,
    asked: Asked,
    reply: Reply,
) -> Result<(), AllocError> {
    book.push(Turn {
        session,
        asked,
        reply,
        journal: 0,
        moment: 0,
    })?;
    Ok(())
}

fn put_line(
    alloc: Global,
    book: &mut Vec<Turn>,
    session: Option<u8>,
    line: &[u8],
    reply: Reply,
) -> Result<(), AllocError> {
    let asked = Asked::Line(seq_of(alloc, line)?);
    put_turn(book, session, asked, reply)
}

fn put_own(book: &mut Vec<Turn>, st: Statement, done: u32) -> Result<(), AllocError> {
    let reply = Reply::Saving { done, pages: 1 };
    put_turn(book, Some(0), Asked::Store(st), reply)
}

/// Nobody's line, those of the sessions of the least number and the greatest, and two statements of the store's own.
fn put_turns(alloc: Global, book: &mut Vec<Turn>) -> Result<(), AllocError> {
    put_line(
        alloc,
        book,
        None,
        b"nobody",
        Reply::Refused(Refusal::Syntax),
    )?;
    put_line(
        alloc,
        book,
        Some(1),
        b"1 create T k:int",
        Reply::Committed(1),
    )?;
    put_line(
        alloc,
        book,
        Some(16),
        b"16 insert T 7",
        Reply::Changed {
            rows: 1,
            commit: Some(2),
        },
    )?;
    put_own(book, Statement::SaveBegin, 0)?;
    put_own(book, Statement::SaveStep { n: 8 }, 1)
}

/// The text of these turns.
const TEXT: &[u8] = b"> nobody\n? refused syntax\n\
    > 1 create T k:int\n1 ok commit 1\n\
    > 16 insert T 7\n16 ok 1 commit 2\n\
    > 0 save begin\n0 ok 0 of 1\n\
    > 0 save step 8\n0 ok 1 of 1\n";

fn check_text(rt: &impl Abort, alloc: Global, book: &[Turn]) -> Result<(), AllocError> {
    let text = text_of(alloc, book)?;
    holds(rt, text.as_slice() == TEXT);
    Ok(())
}

#[test]
fn a_book_is_written_turn_by_turn(rt: HostRuntime) -> Result<(), AllocError> {
    let mut book = Vec::new(rt.alloc());
    put_turns(rt.alloc(), &mut book)?;
    check_text(&rt, rt.alloc(), &book)
}
