//! A run of the crowd.
ghost use Rattle.std.specs.Prelude.{◌≡◌, ◌≤◌, ◌⊎◌, ℕ, Option, IfOk, IfErr, IsTrue, vec_len};
ghost use Rattle.ut_plain.specs.Plain.{Plain};
ghost use Rattle.ut_engine.specs.Runs.{Runs};
ghost use Rattle.ut_crowd.specs.declared.book.Begun.{Begun};
ghost use Rattle.ut_crowd.specs.Crowding.{Crowded};
ghost use Rattle.ut_merge.specs.Jobs.{JobValue};
ghost use Rattle.ut_crowd.specs.Queues.{IsOver, HasNone};
ghost use Rattle.ut_crowd.specs.Standing.{StandsOn, Starts};

use crate::advance::Advance;
use crate::book::Turn;
use crate::hall::{Hall, Opening, hall_of};
use crate::merger::Merger;
use crate::queues::{Queue, has_line, waiting};
use crate::saver::Saver;
use std::alloc::{AllocError, Global};
use std::collections::VecDeque;
use std::marker::Brand;
use std::sync::Wait;
use std::thread::Threads;
use ut_crew::together;
use ut_engine::Engine;
use ut_gate::Back;
use ut_merge::Build;
use ut_outside::{Disk, Hook};
use ut_value::Seq;

/// What a crowd came to.
#[derive(Drop)]
pub struct Ended<'d, D: Disk> {
    pub engine: Engine<'d, D>,
    /// What was asked and answered, in order.
    pub book: Vec<Turn>,
    /// Whether each line of each session was answered.
    pub all: bool,
    /// Whether there was no memory for a turn.
    pub stopped: bool,
}

/// Has the lines of sixteen sessions answered, each session on a thread of its own, with a merger and a saver beside them. A merge
/// moves or takes `l1` rows at least, and is built outside the turns. The lines of a session are answered in their order; those whose
/// session can't be read come first, and comments are left out. Where there is no memory to begin, the store is handed back.
pub fn crowd<'d, D: Disk + Send, B: Build + Sync, H: Hook + Sync, R: Threads + Wait + Sync>(
    rt: &R,
    alloc: Global,
    engine: Engine<'d, D>,
    lines: VecDeque<Seq<u8>>,
    l1: u32,
    builder: &B,
    hook: &H,
) -> Result<Ended<'d, D>, Back<Engine<'d, D>>>
    requires runs { (p : Plain) × Runs engine.store (D.view engine.disk) p }
    requires range { (1 ≤ l1) × (l1 ≤ 1048576) }
    requires ready { (b : B) → B.ready b }
    ensures ran { IfOk result (λ e. Crowded engine.entry.store (D.view engine.entry.disk) l1 lines.items e.book.items e.all e.stopped e.engine.store (D.view e.engine.disk)) }
    ensures loan { IfOk result (λ e. e.engine.loan ≡ engine.entry.loan) }
    ensures err { IfErr result (λ b. b.value ≡ engine.entry) }
{
    match on_ground::<D, Brand, B, H, R>(rt, alloc, engine, lines, l1, builder, hook) {
        Ok(over) => Ok(ending(over)),
        Err(back) => Err(back),
    }
}

/// A hall that is over, without what names its ground.
#[derive(Drop)]
pub(crate) struct Over<'d, D: Disk> {
    pub engine: Engine<'d, D>,
    pub queues: Vec<Queue>,
    pub book: Vec<Turn>,
    pub stopped: bool,
}

fn ending<'d, D: Disk>(over: Over<'d, D>) -> Ended<'d, D>
    requires over { IsOver over.stopped over.engine.store over.queues.items }
    ensures engine { result.engine ≡ over.entry.engine }
    ensures book { result.book.items ≡ over.entry.book.items }
    ensures stopped { result.stopped ≡ over.entry.stopped }
    ensures all { IsTrue result.all → HasNone over.entry.queues.items }
    ensures cause { IsTrue result.all ⊎ IsTrue result.stopped ⊎ IsTrue result.engine.store.down }
{
    let all = !over.stopped && !over.engine.down();
    let Over {
        engine,
        queues: _,
        book,
        stopped,
    } = over;
    Ended {
        engine,
        book,
        all,
        stopped,
    }
}

// One run on a ground that its caller names.
fn on_ground<
    'd,
    D: Disk + Send,
    O: Opening + Send,
    B: Build + Sync,
    H: Hook + Sync,
    R: Threads + Wait + Sync,
>(
    rt: &R,
    alloc: Global,
    engine: Engine<'d, D>,
    lines: VecDeque<Seq<u8>>,
    l1: u32,
    builder: &B,
    hook: &H,
) -> Result<Over<'d, D>, Back<Engine<'d, D>>>
    requires starts { Starts O.ground lines.items engine.loan (D.view engine.disk) engine.store l1 }
    requires ready { (b : B) → B.ready b }
    ensures stands { IfOk result (λ e. (job : Option JobValue) × (n : ℕ) × (last : Begun) × StandsOn O.ground e.queues.items e.book.items e.engine.loan (D.view e.engine.disk) e.engine.store job n last) }
    ensures over { IfOk result (λ e. IsOver e.stopped e.engine.store e.queues.items) }
    ensures err { IfErr result (λ b. b.value ≡ engine.entry) }
{
    let hall = match hall_of::<D, O>(alloc, engine, lines, l1) {
        Ok(hall) => hall,
        Err(back) => return Err(back),
    };
    let Ok(acts) = sessions(alloc, &hall.queues, hook) else {
        return Err(Back {
            value: engine_of(hall),
        });
    };
    let merger = Merger {
        alloc,
        builder,
        hook,
    };
    match together(rt, alloc, hall, acts, merger, Saver) {
        Ok(hall) => Ok(apart(finish(rt, hall))),
        Err(back) => Err(Back {
            value: engine_of(back.value),
        }),
    }
}

// An act for each session with lines.
fn sessions<'a, H>(
    alloc: Global,
    queues: &[Queue],
    hook: &'a H,
) -> Result<Vec<Advance<'a, H>>, AllocError>
    ensures { IfOk result (λ acts. vec_len acts ≤ 16) }
{
    let mut acts = Vec::new(alloc);
    for session in 1..17u8 {
        if has_line(queues, session) {
            acts.push(Advance { session, hook })?;
        }
    }
    Ok(acts)
}

// Goes on alone until the hall is over.
fn finish<'d, D: Disk, O: Opening, R: Wait>(rt: &R, hall: Hall<'d, D, O>) -> Hall<'d, D, O>
    requires stands { StandsOn O.ground hall.queues.items hall.book.items hall.engine.loan (D.view hall.engine.disk) hall.engine.store hall.job hall.l1 hall.last }
    ensures stands { StandsOn O.ground result.queues.items result.book.items result.engine.loan (D.view result.engine.disk) result.engine.store result.job result.l1 result.last }
    ensures over { IsOver result.stopped result.engine.store result.queues.items }
{
    let mut hall = hall;
    for _ in rt.forever() {
        match waiting(&hall.queues) {
            Some(session) => {
                let _answered = hall.advance(session);
                if hall.stopped || hall.engine.down() {
                    return hall;
                }
            }
            None => return hall,
        }
    }
    unreachable!()
}

fn apart<'d, D: Disk, O: Opening>(hall: Hall<'d, D, O>) -> Over<'d, D>
    ensures { result ≡ record { engine = hall.entry.engine; queues = hall.entry.queues; book = hall.entry.book; stopped = hall.entry.stopped } }
{
    let Hall {
        alloc: _,
        engine,
        queues,
        book,
        l1: _,
        job: _,
        last: _,
        save_waits: _,
        stopped,
        of: _,
    } = hall;
    Over {
        engine,
        queues,
        book,
        stopped,
    }
}

fn engine_of<'d, D: Disk, O: Opening>(hall: Hall<'d, D, O>) -> Engine<'d, D>
    ensures { result ≡ hall.entry.engine }
{
    let Hall {
        alloc: _,
        engine,
        queues: _,
        book: _,
        l1: _,
        job: _,
        last: _,
        save_waits: _,
        stopped: _,
        of: _,
    } = hall;
    engine
}
