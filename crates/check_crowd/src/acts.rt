//! The acts of a crowd by hand, one turn after another and no thread: what each comes to, and the book.
ghost use Rattle.std.specs.Prelude.{◌≡◌, ◌≤◌, None};
ghost use Rattle.ut_crew.specs.Work.{CanAlways};
ghost use Rattle.ut_crowd.specs.Standing.{Starts};
ghost use Rattle.ut_engine.specs.Runs.{Runs};
ghost use Rattle.ut_plain.specs.Plain.{Plain};

use crate::calls::{check_told, lines_of, made};
use crate::facts::holds;
use check_run::run::new_disk;
use std::alloc::{AllocError, Global};
use std::collections::VecDeque;
use std::marker::Brand;
use std::process::Abort;
use std::thread::Threads;
use ut_crew::{Build, Kept, Went};
use ut_crowd::{Advance, Merger, Opening, Saver, hall_of};
use ut_engine::Engine;
use ut_gate::{Act, Held, Slip};
use ut_merge::Builder;
use ut_outside::{Disk, MemDisk, NoHook};
use ut_value::Seq;

/// The last of them is left when there is a merge to ask for.
const LINES: [&[u8]; 3] = [b"1 create T k:int", b"1 insert T 7", b"1 select T *"];

/// What lines of the text of the book begin with, and how many do.
const TOLD: [(&[u8], usize); 7] = [
    (b"> 1 ", 3),
    (b"> 0 merge l1 T 1", 1),
    (b"> 0 merge begin T partial", 1),
    (b"> 0 merge end", 1),
    (b"0 ok 1", 3),
    (b"1 rows 1", 1),
    (b"7", 1),
];

/// A session's turn with an empty slip, which is lost behind it, comes to this.
fn goes<E: Held, A: Act<E, Answer = Went>>(rt: &impl Abort, act: &mut A, value: &mut E, went: Went)
    requires asks { A.asks act.old (record { job = None }) }
    requires ground { E.stands_on E.ground value.old }
    ensures ground { E.stands_on E.ground value.new }
{
    let mut slip = Slip { job: None };
    holds(rt, act.run(value, &mut slip) == went);
}

/// A keeper's turn with such a slip comes to this.
fn keeps<E: Held, A: Act<E, Answer = Kept>>(rt: &impl Abort, act: &mut A, value: &mut E, kept: Kept)
    requires asks { A.asks act.old (record { job = None }) }
    requires ground { E.stands_on E.ground value.old }
    ensures ground { E.stands_on E.ground value.new }
{
    let mut slip = Slip { job: None };
    holds(rt, act.run(value, &mut slip) == kept);
}

/// A merger's turn, and behind it that of the act which ends the job that it took: what the last of them came to.
fn merged<E: Held, M: Act<E, Answer = Kept> + Build<E>>(
    merger: &mut M,
    value: &mut E,
) -> Option<Kept>
    requires takes { (m : M) (s : _) → s.job ≡ None → M.asks m s }
    requires ready { (m : M) → M.ready m }
    requires ground { E.stands_on E.ground value.old }
    ensures ground { E.stands_on E.ground value.new }
{
    let mut slip = Slip { job: None };
    let kept = merger.run(value, &mut slip);
    let Some(job) = &slip.job else {
        return Some(kept);
    };
    let mut end = merger.build(job)?;
    Some(end.run(value, &mut slip))
}

/// Nothing is due before the first line; behind the second a row moves, then a merge begins and ends.
fn check_merge<
    E: Held,
    A: Act<E, Answer = Went>,
    M: Act<E, Answer = Kept> + Build<E>,
    S: Act<E, Answer = Kept>,
>(rt: &impl Abort, value: &mut E, session: &mut A, merger: &mut M, saver: &mut S)
    requires can { CanAlways A.asks M.asks M.ready S.asks }
    requires ground { E.stands_on E.ground value.old }
    ensures ground { E.stands_on E.ground value.new }
{
    keeps(rt, saver, value, Kept::Idle);
    keeps(rt, merger, value, Kept::Idle);
    goes(rt, session, value, Went::On);
    goes(rt, session, value, Went::Due);
    keeps(rt, merger, value, Kept::Did);
    holds(rt, merged(merger, value) == Some(Kept::Due));
}

/// Behind the merge nothing is due; behind the last line all are over.
fn check_end<
    E: Held,
    A: Act<E, Answer = Went>,
    M: Act<E, Answer = Kept> + Build<E>,
    S: Act<E, Answer = Kept>,
>(rt: &impl Abort, value: &mut E, session: &mut A, merger: &mut M, saver: &mut S)
    requires can { CanAlways A.asks M.asks M.ready S.asks }
    requires ground { E.stands_on E.ground value.old }
{
    keeps(rt, merger, value, Kept::Idle);
    keeps(rt, saver, value, Kept::Idle);
    goes(rt, session, value, Went::On);
    goes(rt, session, value, Went::Over);
    keeps(rt, merger, value, Kept::Over);
    keeps(rt, saver, value, Kept::Over);
}

// A hall on a ground that its caller names, with a row a merge. It is dropped by one call.
fn on_ground<D: Disk + Send, O: Opening + Send>(
    rt: &(impl Abort + Threads + Sync),
    alloc: Global,
    engine: Engine<'_, D>,
    lines: VecDeque<Seq<u8>>,
) -> Result<(), AllocError>
    requires starts { Starts O.ground lines.items engine.loan (D.view engine.disk) engine.store 1 }
{
    let builder = Builder::alone(rt, &NoHook);
    let mut session = Advance {
        session: 1,
        hook: &NoHook,
    };
    let mut merger = Merger {
        alloc,
        builder: &builder,
        hook: &NoHook,
    };
    match hall_of::<D, O>(alloc, engine, lines, 1) {
        Ok(mut hall) => {
            check_merge(rt, &mut hall, &mut session, &mut merger, &mut Saver);
            check_end(rt, &mut hall, &mut session, &mut merger, &mut Saver);
            let told = check_told(rt, alloc, &hall.book, &TOLD);
            drop(hall);
            told
        }
        Err(_) => panic!(rt; "no memory for a hall"),
    }
}

fn check_acts<D: Disk + Send>(
    rt: &(impl Abort + Threads + Sync),
    alloc: Global,
    engine: Engine<'_, D>,
    lines: VecDeque<Seq<u8>>,
) -> Result<(), AllocError>
    requires runs { (p : Plain) × Runs engine.store (D.view engine.disk) p }
{
    on_ground::<D, Brand>(rt, alloc, engine, lines)
}

#[test]
fn each_act_is_idle_or_over_just_where_it_has_to_be(rt: HostRuntime) -> Result<(), AllocError> {
    let lines = lines_of(rt.alloc(), &LINES)?;
    let mut disk = new_disk(rt.alloc())?;
    match made::<MemDisk>(rt.alloc(), &mut disk) {
        Ok(engine) => check_acts(&rt, rt.alloc(), engine, lines),
        Err(_) => panic!(rt; "the store is not made"),
    }
}
