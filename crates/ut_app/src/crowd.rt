//! A run of the crowd: all lines are read, sessions answer them on threads, and the book of their turns is written.
ghost use Rattle.std.specs.Prelude.{◌≡◌, ◌≤◌, ◌++◌, ◌∷◌, [], ℕ, IfOk, IfErr, OnOk, OnErr};
ghost use Rattle.ut_words.specs.Plans.{IsInRange};
ghost use Rattle.ut_crowd.specs.Book.{acks_in};
ghost use Rattle.ut_app.specs.Crowds.{CrowdRun, IsFrontOf, IsRead, IsUnread, TellsEnd, last_length, untold};

use std::alloc::{AllocError, Global};
use std::collections::VecDeque;
use std::sync::Wait;
use std::thread::Threads;
use ut_crowd::{Ended, Turn, crowd as answer_all, put_book};
use ut_engine::Engine;
use ut_merge::Build;
use ut_outside::{Ack, AckList, Disk, Hook, Sink, Source, Taken};
use ut_run::{Report, Status, begin, ended, open_status, start_of, write_all};
use ut_script::{LineError, Lines};
use ut_value::Seq;
use ut_words::Plan;

/// Makes the store or opens it, reads all lines of the source, has them answered by sessions on threads, and writes the book.
pub(crate) fn crowd<
    S: Source<K>,
    K: Sink<D>,
    D: Disk + Send,
    B: Build + Sync,
    H: Hook + Sync,
    R: Threads + Wait + Sync,
>(
    rt: &R,
    alloc: Global,
    plan: &Plan,
    builder: &B,
    hook: &H,
    source: &mut S,
    sink: &mut K,
    disk: &mut D,
) -> Report
    requires ready { (b : B) → B.ready b }
    requires range { IsInRange plan.now }
    ensures { CrowdRun plan.now
        (record { source = S.left source.old; asks = S.asks source.old; reads = S.faults source.old; sink = K.held sink.old; marks = K.moments sink.old; writes = K.faults sink.old; disk = D.view disk.old })
        (record { source = S.left source.new; asks = S.asks source.new; reads = S.faults source.new; sink = K.held sink.new; marks = K.moments sink.new; writes = K.faults sink.new; disk = D.view disk.new })
        result.status result.lines result.acks.items result.journal }
{
    let engine = match begin(alloc, start_of(plan), plan.rows, disk) {
        Ok(engine) => engine,
        Err(unopened) => return ended(alloc, open_status(unopened.cause)),
    };
    let journal = engine.journal_len();
    let lines = match read_all(alloc, plan.lines, source, sink) {
        Ok(lines) => lines,
        Err(status) => {
            let _disk = engine.release();
            return unrun(alloc, status, journal);
        }
    };
    let count = lines.len();
    match answer_all(rt, alloc, engine, lines, plan.l1, builder, hook) {
        Ok(over) => {
            let Ended {
                engine,
                book,
                all: _,
                stopped,
            } = over;
            let report = tell(alloc, &engine, &book, stopped, count, sink);
            let _disk = engine.release();
            report
        }
        Err(back) => {
            let _disk = back.value.release();
            unrun(alloc, Status::Memory, journal)
        }
    }
}

// A run in which no line of a session was answered.
fn unrun(alloc: Global, status: Status, journal: u32) -> Report
    ensures status { result.status ≡ status }
    ensures lines { result.lines ≡ 0 }
    ensures acks { result.acks.items ≡ [] }
    ensures journal { result.journal ≡ journal }
{
    Report {
        status,
        lines: 0,
        acks: AckList::new(alloc),
        journal: journal as u64,
    }
}

// Reads all lines, so many at most, or says why not.
fn read_all<S: Source<K>, K: Taken>(
    alloc: Global,
    limit: u32,
    source: &mut S,
    sink: &K,
) -> Result<VecDeque<Seq<u8>>, Status>
    ensures read { IfOk result (λ lines. IsRead limit (S.left source.old) (S.left source.new) lines.items) }
    ensures unread { IfErr result (λ status. IsUnread limit (S.left source.old) status (S.faults source.old) (S.faults source.new)) }
    ensures later { S.faults source.old ≤ S.faults source.new }
    ensures still { OnOk result (S.faults source.new ≡ S.faults source.old) }
{
    let mut reader = match Lines::new(alloc, limit) {
        Ok(reader) => reader,
        Err(_) => return Err(Status::Memory),
    };
    let mut lines = VecDeque::new(alloc);
    loop {
        match reader.advance(source, sink) {
            Ok(true) => {}
            Ok(false) => return Ok(lines),
            Err(LineError::Read) => return Err(Status::ReadFault),
            Err(LineError::TooLong) => return Err(Status::TooLong),
        }
        match keep(alloc, &mut lines, reader.line()) {
            Ok(()) => {}
            Err(_) => return Err(Status::Memory),
        }
    }
}

// Puts a copy of a line behind the others.
fn keep(alloc: Global, lines: &mut VecDeque<Seq<u8>>, line: &[u8]) -> Result<(), AllocError>
    ensures { OnOk result (lines.new.items ≡ lines.old.items ++ line.now ∷ []) }
{
    let copy = Seq::from_vec(Vec::from_slice(alloc, line)?);
    match lines.push_back(copy) {
        Ok(()) => Ok(()),
        Err(_) => Err(AllocError),
    }
}

// Writes the book, and says what the run came to.
fn tell<K: Sink<D>, D: Disk>(
    alloc: Global,
    engine: &Engine<'_, D>,
    book: &[Turn],
    stopped: bool,
    lines: usize,
    sink: &mut K,
) -> Report
    ensures told { TellsEnd stopped engine.now.store.down book.now lines
        (record { held = K.held sink.old; marks = K.moments sink.old; writes = K.faults sink.old }) (D.view engine.now.disk).moment
        (record { held = K.held sink.new; marks = K.moments sink.new; writes = K.faults sink.new })
        result.status result.lines result.acks.items }
    ensures journal { result.journal ≡ last_length engine.now.store.down engine.now.store.store.counts.entries book.now }
{
    let mut acks = AckList::new(alloc);
    let journal = last_length(engine, book) as u64;
    let mut text = Vec::new(alloc);
    let down = engine.down();
    if note_all(&mut acks, book).is_err() || put_book(&mut text, book).is_err() {
        return untold(down, acks, journal);
    }
    if stopped && !down {
        return untold(down, acks, journal);
    }
    let (status, lines) = match write_all(sink, engine.disk(), &text) {
        Ok(()) => if down {
            (Status::DiskFault, 0)
        } else {
            (Status::Done, lines)
        },
        Err(_) => (Status::WriteFault, lines),
    };
    Report {
        status,
        lines: lines as u64,
        acks,
        journal,
    }
}

// Where memory is wanting no book is written. That the disk failed outranks it.
fn untold(down: bool, acks: AckList, journal: u64) -> Report
    ensures status { result.status ≡ untold down }
    ensures lines { result.lines ≡ 0 }
    ensures acks { result.acks.items ≡ acks.items }
    ensures journal { result.journal ≡ journal }
{
    Report {
        status: if down {
            Status::DiskFault
        } else {
            Status::Memory
        },
        lines: 0,
        acks,
        journal,
    }
}

// Notes an acknowledgement for each turn, as far as there is memory.
fn note_all(acks: &mut AckList, book: &[Turn]) -> Result<(), AllocError>
    ensures all { OnOk result (acks.new.items ≡ acks.old.items ++ acks_in book.now) }
    ensures some { OnErr result (IsFrontOf (acks.old.items ++ acks_in book.now) acks.new.items) }
{
    for turn in book {
        acks.make_room()?;
        acks.add(Ack {
            journal: turn.journal as u64,
            moment: turn.moment,
        });
    }
    Ok(())
}

// The length of the journal behind the last turn without a fault.
fn last_length<D: Disk>(engine: &Engine<'_, D>, book: &[Turn]) -> u32
    ensures { result ≡ last_length engine.now.store.down engine.now.store.store.counts.entries book.now }
{
    if engine.down() {
        match book {
            [.., last] => last.journal,
            [] => 0,
        }
    } else {
        engine.journal_len()
    }
}
