//! A run of the benchmark's script.
ghost use Rattle.std.specs.Prelude.{ℕ, ◌≡◌, ◌≤◌, ◌<◌, ◌+◌, ◌-◌, ◌^◌, [], ◌∷◌, false, List, Option, OnOk, OnErr, IsErrOf};
ghost use Rattle.ut_outside.specs.declared.ask.Ask.{Ask};
ghost use Rattle.ut_plain.specs.Plain.{Plain};
ghost use Rattle.ut_store.specs.Stands.{StandsFor};
ghost use Rattle.ut_words.specs.Plans.{IsInRange};
ghost use Rattle.ut_app.specs.Figures.{figures_by, figures_text};
ghost use Rattle.ut_app.specs.Benching.{BenchRun, KeepsNotes, TellsEnd};

use crate::figures::{Figures, put_figures, rows_of};
use crate::hear::{Notes, answer_line};
use std::alloc::{AllocError, Global};
use ut_engine::Engine;
use ut_gen::Script;
use ut_merge::Build;
use ut_outside::{Disk, Sink};
use ut_run::{Report, Status, begin, ended, open_status, start_of, write_all};
use ut_words::Plan;

/// At most so many bytes has a line of the script.
const LINE_ROOM: usize = 16_384;

/// Why no line is taken.
#[derive(Clone, Copy, Debug, PartialEq, Eq)]
pub(crate) enum LineEnd {
    /// The script was answered to its end.
    Over,
    Memory,
}

/// Makes the store or opens it, answers the lines of the plan's script one after the other, and writes one line of what came of
/// them in place of their replies.
pub(crate) fn bench<K: Sink<D>, D: Disk, B: Build>(
    alloc: Global,
    plan: &Plan,
    builder: &B,
    sink: &mut K,
    disk: &mut D,
) -> Report
    requires ready { B.ready builder.now }
    requires range { IsInRange plan.now }
    ensures { (source : Option (List ℕ)) (asks : Option (List Ask)) (reads : ℕ) → BenchRun plan.now
        (record { source = source; asks = asks; reads = reads; sink = K.held sink.old; marks = K.moments sink.old; writes = K.faults sink.old; disk = D.view disk.old })
        (record { source = source; asks = asks; reads = reads; sink = K.held sink.new; marks = K.moments sink.new; writes = K.faults sink.new; disk = D.view disk.new })
        result.status result.lines result.acks.items result.journal }
{
    let mut text = match Vec::with_capacity(alloc, LINE_ROOM) {
        Ok(text) => text,
        Err(_) => return ended(alloc, Status::Memory),
    };
    let mut engine = match begin(alloc, start_of(plan), plan.rows, disk) {
        Ok(engine) => engine,
        Err(unopened) => return ended(alloc, open_status(unopened.cause)),
    };
    let mut script = Script::new(plan.seed as u64, plan.size);
    let mut notes = Notes::new(alloc, engine.journal_len());
    loop {
        match next_line(&mut notes, &mut script, &mut text) {
            Ok(()) => {}
            Err(end) => {
                let status = finish(alloc, &engine, &notes, end, &mut text, sink);
                let _disk = engine.release();
                return notes.report(status);
            }
        }
        let heard = answer_line(alloc, &mut engine, builder, &text, &mut notes);
        if heard.is_fault() {
            let _disk = engine.release();
            return notes.report(Status::DiskFault);
        }
    }
}

// Makes room for one acknowledgement more and takes the next line of the script, or says why there is none.
fn next_line(notes: &mut Notes, script: &mut Script, text: &mut Vec<u8>) -> Result<(), LineEnd>
    requires few { notes.old.lines < 2 ^ 32 - 1 }
    ensures room { OnOk result (1 ≤ notes.new.acks.spare) }
    ensures line { OnOk result (script.old ≡ text.new.items ∷ script.new) }
    ensures lines { OnOk result (notes.new.lines ≡ notes.old.lines + 1) }
    ensures over { IsErrOf result LineEnd.Over → script.old ≡ [] }
    ensures none { OnErr result (notes.new.lines ≡ notes.old.lines) }
    ensures same { KeepsNotes notes.old.acks.items notes.old.journal notes.old.tally notes.new.acks.items notes.new.journal notes.new.tally }
{
    if notes.acks.make_room().is_err() {
        return Err(LineEnd::Memory);
    }
    text.clear();
    match script.next_line(text) {
        Ok(true) => {
            notes.lines += 1;
            Ok(())
        }
        Ok(false) => Err(LineEnd::Over),
        Err(_) => Err(LineEnd::Memory),
    }
}

// Writes the line of a run whose script was answered, and says how the run ends.
fn finish<K: Sink<D>, D: Disk>(
    alloc: Global,
    engine: &Engine<'_, D>,
    notes: &Notes,
    end: LineEnd,
    text: &mut Vec<u8>,
    sink: &mut K,
) -> Status
    requires up { engine.now.store.down ≡ false }
    ensures told { TellsEnd engine.now.store.store notes.now.lines notes.now.tally result
        (record { held = K.held sink.old; marks = K.moments sink.old; writes = K.faults sink.old }) (D.view engine.now.disk).moment
        (record { held = K.held sink.new; marks = K.moments sink.new; writes = K.faults sink.new }) }
    ensures lacks { end ≡ LineEnd.Memory → result ≡ Status.Memory }
{
    match end {
        LineEnd::Over => tell(alloc, engine, notes, text, sink),
        LineEnd::Memory => Status::Memory,
    }
}

// Writes the line, where there is memory for it.
fn tell<K: Sink<D>, D: Disk>(
    alloc: Global,
    engine: &Engine<'_, D>,
    notes: &Notes,
    text: &mut Vec<u8>,
    sink: &mut K,
) -> Status
    requires up { engine.now.store.down ≡ false }
    ensures { TellsEnd engine.now.store.store notes.now.lines notes.now.tally result
        (record { held = K.held sink.old; marks = K.moments sink.old; writes = K.faults sink.old }) (D.view engine.now.disk).moment
        (record { held = K.held sink.new; marks = K.moments sink.new; writes = K.faults sink.new }) }
{
    match put_line(alloc, engine, notes, text) {
        Ok(()) => match write_all(sink, engine.disk(), text) {
            Ok(()) => Status::Done,
            Err(_) => Status::WriteFault,
        },
        Err(_) => Status::Memory,
    }
}

// Puts the line of a run whose script was answered, alone.
fn put_line<D: Disk>(
    alloc: Global,
    engine: &Engine<'_, D>,
    notes: &Notes,
    text: &mut Vec<u8>,
) -> Result<(), AllocError>
    requires up { engine.now.store.down ≡ false }
    ensures { OnOk result ((p : Plain) → StandsFor engine.now.store.store p → text.new.items ≡ figures_text (figures_by notes.now.lines notes.now.tally p.journal)) }
{
    let figures = Figures {
        lines: notes.lines,
        commits: engine.commits(),
        refused: notes.tally.refused,
        rows: rows_of(alloc, engine)?,
        total: notes.tally.total,
    };
    text.clear();
    put_figures(text, &figures)
}
