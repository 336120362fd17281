//! What one member does, from its first turn to its last.
ghost use Rattle.std.specs.Prelude.{◌≡◌, None, IfSome, IfNone};
ghost use Rattle.ut_gate.specs.declared.held.Slip.{Slip};
ghost use Rattle.ut_crew.specs.Work.{CanAlways};
ghost use Rattle.ut_crew.specs.Leaving.{HasLeft, IsStuck, MergerLeft, Merges, SaverLeft, SessionLeft};

use crate::floor::{Done, Floor};
use crate::role::{Between, Build, Kept, Role, Went};
use std::snapshot::Snapshot;
use std::sync::Wait;
use ut_gate::{Act, Held, Pass};

/// A part and the pass to play it with.
#[derive(Drop)]
pub(crate) struct Member<E: Held, A: Drop, M: Drop, S: Drop> {
    pub role: Role<A, M, S>,
    pub pass: Pass<E>,
}

/// Works until it is over, and gives its pass back.
pub(crate) fn work<
    E: Held,
    A: Act<E, Answer = Went> + Between + Drop,
    M: Act<E, Answer = Kept> + Build<E> + Drop,
    S: Act<E, Answer = Kept> + Drop,
    R: Wait,
>(rt: &R, floor: &Floor<E>, member: Member<E, A, M, S>) -> Done<E, A, M, S>
    requires own { member.pass.gate ≡ floor.now.gate }
    requires can { CanAlways A.asks M.asks M.ready S.asks }
    ensures gate { result.pass.gate ≡ floor.now.gate }
    ensures part { result.part.value ≡ member.role }
    ensures left { HasLeft E.book E.job (E.stands_on E.ground) M.relates M.End.asks M.End.relates M.unbuilt A.relates S.relates result.part.value result.pass }
{
    let part = Snapshot::of(&member.role);
    let pass = play(rt, floor, member);
    Done { pass, part }
}

/// Works by its part.
pub(crate) fn play<
    E: Held,
    A: Act<E, Answer = Went> + Between + Drop,
    M: Act<E, Answer = Kept> + Build<E> + Drop,
    S: Act<E, Answer = Kept> + Drop,
    R: Wait,
>(rt: &R, floor: &Floor<E>, member: Member<E, A, M, S>) -> Pass<E>
    requires own { member.pass.gate ≡ floor.now.gate }
    requires can { CanAlways A.asks M.asks M.ready S.asks }
    ensures gate { result.gate ≡ floor.now.gate }
    ensures left { HasLeft E.book E.job (E.stands_on E.ground) M.relates M.End.asks M.End.relates M.unbuilt A.relates S.relates member.role result }
{
    let Member { role, pass } = member;
    match role {
        Role::Session(session) => advance(rt, floor, session, pass),
        Role::Merger(merger) => merge(rt, floor, merger, pass),
        Role::Saver(saver) => save(rt, floor, saver, pass),
    }
}

// A session: turns until it is over.
fn advance<E: Held, A: Act<E, Answer = Went> + Between + Drop, R: Wait>(
    rt: &R,
    floor: &Floor<E>,
    mut session: A,
    mut pass: Pass<E>,
) -> Pass<E>
    requires own { pass.gate ≡ floor.now.gate }
    requires always { (a : A) (s : Slip E.Job) → A.asks a s }
    ensures gate { result.gate ≡ floor.now.gate }
    ensures left { SessionLeft E.book E.job (E.stands_on E.ground) A.relates session result }
{
    for _ in rt.forever() {
        let went = floor.gate.act(rt, &mut pass, &mut session);
        if !floor.bell.went_on(went) {
            break;
        }
        session.between();
    }
    pass
}

// A saver: turns until one is over, with sleep behind idle ones.
fn save<E: Held, S: Act<E, Answer = Kept> + Drop, R: Wait>(
    rt: &R,
    floor: &Floor<E>,
    mut saver: S,
    mut pass: Pass<E>,
) -> Pass<E>
    requires own { pass.gate ≡ floor.now.gate }
    requires always { (k : S) (s : Slip E.Job) → S.asks k s }
    ensures gate { result.gate ≡ floor.now.gate }
    ensures left { SaverLeft E.book E.job (E.stands_on E.ground) S.relates saver result }
{
    for _ in rt.forever() {
        let heard = floor.bell.rings();
        let kept = floor.gate.act(rt, &mut pass, &mut saver);
        if !floor.bell.goes_on(rt, kept, heard) {
            break;
        }
    }
    pass
}

// A merger: as a saver, and between its turns it builds. It leaves too where a job could not be built, which stays.
fn merge<E: Held, M: Act<E, Answer = Kept> + Build<E> + Drop, R: Wait>(
    rt: &R,
    floor: &Floor<E>,
    mut merger: M,
    mut pass: Pass<E>,
) -> Pass<E>
    requires own { pass.gate ≡ floor.now.gate }
    requires takes { (m : M) (s : Slip E.Job) → s.job ≡ None → M.asks m s }
    requires ready { (m : M) → M.ready m }
    ensures gate { result.gate ≡ floor.now.gate }
    ensures left { MergerLeft E.book E.job (E.stands_on E.ground) M.relates M.End.asks M.End.relates M.unbuilt merger result }
{
    for _ in rt.forever() {
        let heard = floor.bell.rings();
        let Some(kept) = end_or_take(rt, floor, &mut merger, &mut pass) else {
            break;
        };
        if !floor.bell.goes_on(rt, kept, heard) {
            break;
        }
    }
    pass
}

// A merger's turn: the job in its slip is built and ended, unless it could not be built. Where there is none, one may be taken.
fn end_or_take<E: Held, M: Act<E, Answer = Kept> + Build<E>, R: Wait>(
    rt: &R,
    floor: &Floor<E>,
    merger: &mut M,
    pass: &mut Pass<E>,
) -> Option<Kept>
    requires own { pass.old.gate ≡ floor.now.gate }
    requires takes { (m : M) (s : Slip E.Job) → s.job ≡ None → M.asks m s }
    requires ready { (m : M) → M.ready m }
    ensures gate { pass.new.gate ≡ floor.now.gate }
    ensures turn { IfSome result (λ kept. Merges E.book E.job (E.stands_on E.ground) M.relates M.End.asks M.End.relates merger.old merger.new pass.old pass.new kept) }
    ensures none { IfNone result ((merger.new ≡ merger.old) × (pass.new ≡ pass.old) × IsStuck M.unbuilt merger.new pass.new) }
{
    let Some(job) = pass.job() else {
        return Some(floor.gate.act(rt, pass, merger));
    };
    let mut end = merger.build(job)?;
    Some(floor.gate.act(rt, pass, &mut end))
}
