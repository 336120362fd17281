//! The crew: its members, and the threads in which they work.
ghost use Rattle.std.specs.Prelude.{◌≡◌, ◌+◌, ◌<◌, ◌≤◌, [], ◌∷◌, ◌++◌, None, All, IfOk, IfErr, length, map, reverse, vec_len, vec_capacity, MatchResult};
ghost use Rattle.ut_gate.specs.declared.held.Slip.{Slip};
ghost use Rattle.ut_crew.specs.Work.{CanAlways};
ghost use Rattle.ut_crew.specs.Leaving.{AllLeft, HasLeft};
ghost use Rattle.ut_crew.specs.Starting.{of_either};
ghost use Rattle.ut_crew.specs.declared.role.Role.TheVariants.{Session, Merger, Saver};

use crate::bell::Bell;
use crate::floor::{Begun, Done, Floor, OfFloor};
use crate::member::{Member, play, work};
use crate::role::{Between, Build, Kept, Parts, Went};
use std::alloc::Global;
use std::snapshot::Snapshot;
use std::sync::Wait;
use std::thread;
use std::thread::{Scope, Threads};
use ut_gate::{Act, Back, Gate, Held, Pass, PassList};

/// Runs the sessions, a merger and a saver on the value, each in a thread of its own, and gives
/// the value back once all are done. What no thread can be made for, the caller runs itself
/// before it waits for the others.
pub fn together<
    E: Held,
    A: Act<E, Answer = Went> + Between + Send + Drop,
    M: Act<E, Answer = Kept> + Build<E> + Send + Drop,
    S: Act<E, Answer = Kept> + Send + Drop,
    R: Threads + Wait + Sync,
>(rt: &R, alloc: Global, value: E, sessions: Vec<A>, merger: M, saver: S) -> Result<E, Back<E>>
    requires seats { vec_len sessions ≤ 62 }
    requires job { E.job value ≡ None }
    requires ground { E.stands_on E.ground value }
    requires can { CanAlways A.asks M.asks M.ready S.asks }
    ensures ok { IfOk result (λ e. E.stands_on E.ground e) }
    ensures left { IfOk result (λ e. AllLeft E.book E.job (E.stands_on E.ground) M.relates M.End.asks M.End.relates M.unbuilt A.relates S.relates sessions.items merger saver e) }
    ensures err { IfErr result (λ b. b.value ≡ value) }
{
    let seats = sessions.len() + 2;
    let Ok(members) = Vec::with_capacity(alloc, seats) else {
        return Err(Back { value });
    };
    let Ok(done) = Vec::with_capacity(alloc, seats) else {
        return Err(Back { value });
    };
    let Ok(back) = Vec::with_capacity(alloc, seats) else {
        return Err(Back { value });
    };
    match Gate::new(alloc, value, seats as u32) {
        Ok((gate, passes)) => {
            let bell = Bell::new(sessions.len());
            let members = crew_of(&gate, passes, sessions, merger, saver, members);
            let floor = Floor { gate, bell };
            let done = each(rt, alloc, &floor, members, done);
            let Floor { gate, bell: _ } = floor;
            Ok(gate.close(rt, passes_of(done, back)))
        }
        Err(back) => Err(back),
    }
}

// The passes of all that came back.
fn passes_of<E: Held, A: Drop, M: Drop, S: Drop>(
    mut done: Vec<Done<E, A, M, S>>,
    mut back: Vec<Pass<E>>,
) -> PassList<E>
    requires back { back.items ≡ [] }
    requires room { vec_len done ≤ vec_capacity back }
    ensures { result ≡ map (λ d. d.pass) (reverse done.items) }
{
    while let Some(one) = done.pop() {
        let Done { pass, part: _ } = one;
        back.push_reserved(pass);
    }
    PassList::of(back)
}

// A member for each part. The last of them is to start first, and the keepers start last.
fn crew_of<E: Held, A: Drop, M: Drop, S: Drop>(
    gate: &Gate<E>,
    mut passes: PassList<E>,
    sessions: Vec<A>,
    merger: M,
    saver: S,
    mut members: Vec<Member<E, A, M, S>>,
) -> Vec<Member<E, A, M, S>>
    requires own { All (λ p. p.gate ≡ gate.now) passes }
    requires enough { length passes ≡ vec_len sessions + 2 }
    requires members { members.items ≡ [] }
    requires room { vec_len sessions + 2 ≤ vec_capacity members }
    ensures own { All (λ m. m.pass.gate ≡ gate.now) result.items }
    ensures len { vec_len result ≡ vec_len sessions + 2 }
    ensures parts { map (λ m. m.role) result.items ≡ Saver saver ∷ Merger merger ∷ map Session (reverse sessions.items) }
{
    let mut parts = Parts {
        saver: Some(saver),
        merger: Some(merger),
        sessions,
    };
    while let Some(pass) = passes.pop() {
        let Some(role) = parts.next() else {
            break;
        };
        members.push_reserved(Member { role, pass });
    }
    members
}

// Has each member work. All passes come back.
fn each<
    E: Held,
    A: Act<E, Answer = Went> + Between + Send + Drop,
    M: Act<E, Answer = Kept> + Build<E> + Send + Drop,
    S: Act<E, Answer = Kept> + Send + Drop,
    R: Threads + Wait + Sync,
>(
    rt: &R,
    alloc: Global,
    floor: &Floor<E>,
    members: Vec<Member<E, A, M, S>>,
    done: Vec<Done<E, A, M, S>>,
) -> Vec<Done<E, A, M, S>>
    requires own { All (λ m. m.pass.gate ≡ floor.now.gate) members.items }
    requires done { done.items ≡ [] }
    requires room { vec_len members ≤ vec_capacity done }
    requires can { CanAlways A.asks M.asks M.ready S.asks }
    ensures left { All (λ d. (d.pass.gate ≡ floor.now.gate) × HasLeft E.book E.job (E.stands_on E.ground) M.relates M.End.asks M.End.relates M.unbuilt A.relates S.relates d.part.value d.pass) result.items }
    ensures all { vec_len result ≡ vec_len members }
    ensures parts { map (λ d. d.part.value) result.items ≡ map (λ m. m.role) (reverse members.items) }
{
    thread::scope(
        thread::scope_env(),
        rt,
        move |scope| -> Vec<Done<E, A, M, S>>
            requires { All (λ m. m.pass.gate ≡ floor.now.gate) members.items × (done.items ≡ []) × (vec_len members ≤ vec_capacity done) × CanAlways A.asks M.asks M.ready S.asks }
            ensures { All (λ d. (d.pass.gate ≡ floor.entry.now.gate) × HasLeft E.book E.job (E.stands_on E.ground) M.relates M.End.asks M.End.relates M.unbuilt A.relates S.relates d.part.value d.pass) result.items × (vec_len result ≡ vec_len members) × (map (λ d. d.part.value) result.items ≡ map (λ m. m.role) (reverse members.items)) }
        { start_and_join(scope, rt, alloc, floor, members, done) },
    )
}

// Starts all, and then waits for all.
fn start_and_join<
    's,
    X,
    E: Held + 's,
    A: Act<E, Answer = Went> + Between + Send + Drop + 's,
    M: Act<E, Answer = Kept> + Build<E> + Send + Drop + 's,
    S: Act<E, Answer = Kept> + Send + Drop + 's,
    R: Threads + Wait + Sync,
>(
    scope: &Scope<'s, X>,
    rt: &'s R,
    alloc: Global,
    floor: &'s Floor<E>,
    members: Vec<Member<E, A, M, S>>,
    done: Vec<Done<E, A, M, S>>,
) -> Vec<Done<E, A, M, S>>
    requires own { All (λ m. m.pass.gate ≡ floor.now.gate) members.items }
    requires done { done.items ≡ [] }
    requires room { vec_len members ≤ vec_capacity done }
    requires can { CanAlways A.asks M.asks M.ready S.asks }
    ensures left { All (λ d. (d.pass.gate ≡ floor.now.gate) × HasLeft E.book E.job (E.stands_on E.ground) M.relates M.End.asks M.End.relates M.unbuilt A.relates S.relates d.part.value d.pass) result.items }
    ensures all { vec_len result ≡ vec_len members }
    ensures parts { map (λ d. d.part.value) result.items ≡ map (λ m. m.role) (reverse members.items) }
{
    let Ok(begun) = Vec::with_capacity(alloc, members.len()) else {
        return run_all(rt, floor, members, done);
    };
    let mut begun = start_all(scope, rt, floor, members, begun);
    begun.reverse();
    join_all(rt, floor, begun, done)
}

// Starts a thread for each member, or has it work at once where none can be made: a keeper then
// ends, since all sessions before it have begun.
fn start_all<
    's,
    X,
    E: Held + 's,
    A: Act<E, Answer = Went> + Between + Send + Drop + 's,
    M: Act<E, Answer = Kept> + Build<E> + Send + Drop + 's,
    S: Act<E, Answer = Kept> + Send + Drop + 's,
    R: Threads + Wait + Sync,
>(
    scope: &Scope<'s, X>,
    rt: &'s R,
    floor: &'s Floor<E>,
    mut members: Vec<Member<E, A, M, S>>,
    mut begun: Vec<Begun<'s, E, A, M, S>>,
) -> Vec<Begun<'s, E, A, M, S>>
    requires own { All (λ m. m.pass.gate ≡ floor.now.gate) members.items }
    requires begun { (begun.items ≡ []) × (vec_len members ≤ vec_capacity begun) }
    requires can { CanAlways A.asks M.asks M.ready S.asks }
    ensures begun { All (λ b. MatchResult b (λ h. (h.0.promise.floor.now.gate ≡ floor.now.gate) × (h.0.promise.part.value ≡ h.1.value)) (λ d. (d.pass.gate ≡ floor.now.gate) × HasLeft E.book E.job (E.stands_on E.ground) M.relates M.End.asks M.End.relates M.unbuilt A.relates S.relates d.part.value d.pass)) result.items }
    ensures all { vec_len result ≡ vec_len members }
    ensures parts { map (of_either (λ h. h.1.value) (λ d. d.part.value)) result.items ≡ map (λ m. m.role) (reverse members.items) }
{
    while let Some(member) = members.pop() {
        begun.push_reserved(start(scope, rt, floor, member));
    }
    begun
}

// Starts a thread for a member, or has it work at once.
fn start<
    's,
    X,
    E: Held + 's,
    A: Act<E, Answer = Went> + Between + Send + Drop + 's,
    M: Act<E, Answer = Kept> + Build<E> + Send + Drop + 's,
    S: Act<E, Answer = Kept> + Send + Drop + 's,
    R: Threads + Wait + Sync,
>(
    scope: &Scope<'s, X>,
    rt: &'s R,
    floor: &'s Floor<E>,
    member: Member<E, A, M, S>,
) -> Begun<'s, E, A, M, S>
    requires own { member.pass.gate ≡ floor.now.gate }
    requires can { CanAlways A.asks M.asks M.ready S.asks }
    ensures begun { MatchResult result (λ h. (h.0.promise.floor.now.gate ≡ floor.now.gate) × (h.0.promise.part.value ≡ h.1.value)) (λ d. (d.pass.gate ≡ floor.now.gate) × HasLeft E.book E.job (E.stands_on E.ground) M.relates M.End.asks M.End.relates M.unbuilt A.relates S.relates d.part.value d.pass) }
    ensures part { of_either (λ h. h.1.value) (λ d. d.part.value) result ≡ member.role }
{
    let part = Snapshot::of(&member.role);
    let promised = Snapshot::of(&member.role);
    let theirs = move || -> Pass<E>
        requires { (member.pass.gate ≡ floor.now.gate) × CanAlways A.asks M.asks M.ready S.asks }
        ensures { (result.gate ≡ floor.entry.now.gate) × HasLeft E.book E.job (E.stands_on E.ground) M.relates M.End.asks M.End.relates M.unbuilt A.relates S.relates member.role result }
    { play(rt, floor, member) };
    let promise = OfFloor {
        floor,
        part: promised,
    };
    match scope.spawn_with(promise, theirs) {
        Ok(child) => Ok((child, part)),
        Err(refused) => {
            let pass = (refused.value)();
            Err(Done { pass, part })
        }
    }
}

// Has all members work, one after the other, where no thread's handle can be kept.
fn run_all<
    E: Held,
    A: Act<E, Answer = Went> + Between + Drop,
    M: Act<E, Answer = Kept> + Build<E> + Drop,
    S: Act<E, Answer = Kept> + Drop,
    R: Wait,
>(
    rt: &R,
    floor: &Floor<E>,
    mut members: Vec<Member<E, A, M, S>>,
    mut done: Vec<Done<E, A, M, S>>,
) -> Vec<Done<E, A, M, S>>
    requires own { All (λ m. m.pass.gate ≡ floor.now.gate) members.items }
    requires done { (done.items ≡ []) × (vec_len members ≤ vec_capacity done) }
    requires can { CanAlways A.asks M.asks M.ready S.asks }
    ensures left { All (λ d. (d.pass.gate ≡ floor.now.gate) × HasLeft E.book E.job (E.stands_on E.ground) M.relates M.End.asks M.End.relates M.unbuilt A.relates S.relates d.part.value d.pass) result.items }
    ensures all { vec_len result ≡ vec_len members }
    ensures parts { map (λ d. d.part.value) result.items ≡ map (λ m. m.role) (reverse members.items) }
{
    while let Some(member) = members.pop() {
        done.push_reserved(work(rt, floor, member));
    }
    done
}

// Waits for all threads, for each pass that they took.
fn join_all<
    'a,
    E: Held,
    A: Act<E, Answer = Went> + Drop,
    M: Act<E, Answer = Kept> + Build<E> + Drop,
    S: Act<E, Answer = Kept> + Drop,
    R: Threads,
>(
    rt: &R,
    floor: &'a Floor<E>,
    mut begun: Vec<Begun<'a, E, A, M, S>>,
    mut done: Vec<Done<E, A, M, S>>,
) -> Vec<Done<E, A, M, S>>
    requires begun { All (λ b. MatchResult b (λ h. (h.0.promise.floor.now.gate ≡ floor.now.gate) × (h.0.promise.part.value ≡ h.1.value)) (λ d. (d.pass.gate ≡ floor.now.gate) × HasLeft E.book E.job (E.stands_on E.ground) M.relates M.End.asks M.End.relates M.unbuilt A.relates S.relates d.part.value d.pass)) begun.items }
    requires done { done.items ≡ [] }
    requires room { vec_len begun ≤ vec_capacity done }
    ensures left { All (λ d. (d.pass.gate ≡ floor.now.gate) × HasLeft E.book E.job (E.stands_on E.ground) M.relates M.End.asks M.End.relates M.unbuilt A.relates S.relates d.part.value d.pass) result.items }
    ensures all { vec_len result ≡ vec_len begun.entry }
    ensures parts { map (λ d. d.part.value) result.items ≡ map (of_either (λ h. h.1.value) (λ d. d.part.value)) (reverse begun.entry.items) }
{
    while let Some(one) = begun.pop() {
        done.push_reserved(joined(rt, floor, one));
    }
    done
}

// What came back of a member that was started.
fn joined<
    'a,
    E: Held,
    A: Act<E, Answer = Went> + Drop,
    M: Act<E, Answer = Kept> + Build<E> + Drop,
    S: Act<E, Answer = Kept> + Drop,
    R: Threads,
>(rt: &R, floor: &'a Floor<E>, begun: Begun<'a, E, A, M, S>) -> Done<E, A, M, S>
    requires begun { MatchResult begun (λ h. (h.0.promise.floor.now.gate ≡ floor.now.gate) × (h.0.promise.part.value ≡ h.1.value)) (λ d. (d.pass.gate ≡ floor.now.gate) × HasLeft E.book E.job (E.stands_on E.ground) M.relates M.End.asks M.End.relates M.unbuilt A.relates S.relates d.part.value d.pass) }
    ensures left { (result.pass.gate ≡ floor.now.gate) × HasLeft E.book E.job (E.stands_on E.ground) M.relates M.End.asks M.End.relates M.unbuilt A.relates S.relates result.part.value result.pass }
    ensures part { result.part.value ≡ of_either (λ h. h.1.value) (λ d. d.part.value) begun.entry }
{
    match begun {
        Ok((child, part)) => {
            let pass = child.join(rt);
            Done { pass, part }
        }
        Err(done) => done,
    }
}
