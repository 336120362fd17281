//! Threads in a scope that share a gate. An act whose thread does not start is run by the caller.
ghost use Rattle.std.specs.Prelude.{◌≡◌, ◌+◌, ◌<◌, ◌≤◌, All, IfOk, length, vec_len, vec_capacity, MatchResult};

use std::alloc::{AllocError, Global};
use std::sync::Wait;
use std::thread;
use std::thread::{Promise, PromisedHandle, Scope, Threads};
use ut_gate::{Act, Gate, Held, Pass, PassList};

/// An act that a thread repeats until it answers false, and the thread's pass.
#[derive(Drop)]
pub(crate) struct Job<E: Held, A: Drop> {
    pub act: A,
    pub pass: Pass<E>,
}

/// The pass that comes back is of this gate.
pub(crate) struct OfGate<'a, E: Held>(pub &'a Gate<E>);

impl<'a, E: Held> Drop for OfGate<'a, E> {
    fn drop(self) {
        let OfGate(_) = self;
    }
}

impl<'a, E: Held, A: Drop> Promise<Job<E, A>> for OfGate<'a, E> {
    ghost kept_by = { λ p r. r.pass.gate ≡ p.0.now };
}

/// A job for each act, as far as the passes go.
pub(crate) fn jobs_of<E: Held, A: Drop>(
    alloc: Global,
    gate: &Gate<E>,
    mut passes: PassList<E>,
    mut acts: Vec<A>,
) -> Result<Vec<Job<E, A>>, AllocError>
    requires { All (λ p. p.gate ≡ gate.now) passes }
    ensures { IfOk result (λ v. All (λ j. j.pass.gate ≡ gate.now) v.items) }
{
    let mut jobs = Vec::new(alloc);
    while let Some(act) = acts.pop() {
        let Some(pass) = passes.pop() else {
            break;
        };
        jobs.push(Job { act, pass })?;
    }
    Ok(jobs)
}

/// Runs each job in a thread. They come back into `done`, which has room for them.
pub(crate) fn each<E: Held, A: Act<E, Answer = bool> + Send + Drop, R: Threads + Wait + Sync>(
    rt: &R,
    alloc: Global,
    gate: &Gate<E>,
    jobs: Vec<Job<E, A>>,
    done: Vec<Job<E, A>>,
) -> Vec<Job<E, A>>
    requires own { All (λ j. j.pass.gate ≡ gate.now) jobs.items }
    requires done { All (λ j. j.pass.gate ≡ gate.now) done.items }
    requires room { vec_len done + vec_len jobs ≤ vec_capacity done }
    requires always { (a : A) (s : _) → A.asks a s }
    ensures { All (λ j. j.pass.gate ≡ gate.now) result.items }
{
    thread::scope(
        thread::scope_env(),
        rt,
        move |scope| -> Vec<Job<E, A>>
            requires { All (λ j. j.pass.gate ≡ gate.now) jobs.items × All (λ j. j.pass.gate ≡ gate.now) done.items × (vec_len done + vec_len jobs ≤ vec_capacity done) × ((a : A) (s : _) → A.asks a s) }
            ensures { All (λ j. j.pass.gate ≡ gate.entry.now) result.items }
        { spawn_all(scope, rt, alloc, gate, jobs, done) },
    )
}

// Starts each job, and joins all that were started.
fn spawn_all<'s, X, E: Held, A: Act<E, Answer = bool> + Send + Drop, R: Threads + Wait + Sync>(
    scope: &Scope<'s, X>,
    rt: &'s R,
    alloc: Global,
    gate: &'s Gate<E>,
    mut jobs: Vec<Job<E, A>>,
    mut done: Vec<Job<E, A>>,
) -> Vec<Job<E, A>>
where
    E: 's,
    A: 's,
    requires own { All (λ j. j.pass.gate ≡ gate.now) jobs.items }
    requires done { All (λ j. j.pass.gate ≡ gate.now) done.items }
    requires room { vec_len done + vec_len jobs ≤ vec_capacity done }
    requires always { (a : A) (s : _) → A.asks a s }
    ensures { All (λ j. j.pass.gate ≡ gate.now) result.items }
{
    let Ok(mut handles) = Vec::with_capacity(alloc, jobs.len()) else {
        return done;
    };
    while let Some(job) = jobs.pop() {
        match start(scope, rt, gate, job) {
            Ok(child) => handles.push_reserved(child),
            Err(job) => done.push_reserved(job),
        }
    }
    join_each(rt, gate, handles, done)
}

// Starts the job, or runs it where no thread can be made.
fn start<'s, X, E: Held, A: Act<E, Answer = bool> + Send + Drop, R: Threads + Wait + Sync>(
    scope: &Scope<'s, X>,
    rt: &'s R,
    gate: &'s Gate<E>,
    job: Job<E, A>,
) -> Result<PromisedHandle<Job<E, A>, OfGate<'s, E>>, Job<E, A>>
where
    E: 's,
    A: 's,
    requires own { job.pass.gate ≡ gate.now }
    requires always { (a : A) (s : _) → A.asks a s }
    ensures { MatchResult result (λ h. h.promise.0.now ≡ gate.now) (λ j. j.pass.gate ≡ gate.now) }
{
    let theirs = move || -> Job<E, A>
        requires { (job.pass.gate ≡ gate.now) × ((a : A) (s : _) → A.asks a s) }
        ensures { result.pass.gate ≡ gate.entry.now }
    { drive(rt, gate, job) };
    match scope.spawn_with(OfGate(gate), theirs) {
        Ok(child) => Ok(child),
        Err(refused) => Err((refused.value)()),
    }
}

// Repeats the act until it answers false.
fn drive<E: Held, A: Act<E, Answer = bool> + Drop, R: Wait>(
    rt: &R,
    gate: &Gate<E>,
    job: Job<E, A>,
) -> Job<E, A>
    requires own { job.pass.gate ≡ gate.now }
    requires always { (a : A) (s : _) → A.asks a s }
    ensures { result.pass.gate ≡ gate.now }
{
    let Job { mut act, mut pass } = job;
    for _ in rt.forever() {
        if !gate.act(rt, &mut pass, &mut act) {
            return Job { act, pass };
        }
    }
    unreachable!()
}

fn join_each<'a, E: Held, A: Drop, R: Threads>(
    rt: &R,
    gate: &'a Gate<E>,
    mut handles: Vec<PromisedHandle<Job<E, A>, OfGate<'a, E>>>,
    mut done: Vec<Job<E, A>>,
) -> Vec<Job<E, A>>
    requires own { All (λ h. h.promise.0.now ≡ gate.now) handles.items }
    requires done { All (λ j. j.pass.gate ≡ gate.now) done.items }
    requires room { vec_len done + vec_len handles ≤ vec_capacity done }
    ensures { All (λ j. j.pass.gate ≡ gate.now) result.items }
{
    while let Some(child) = handles.pop() {
        done.push_reserved(child.join(rt));
    }
    done
}

/// The acts that the jobs did, and the passes with one more before them.
pub(crate) fn parted<E: Held, A: Drop>(
    alloc: Global,
    gate: &Gate<E>,
    first: Pass<E>,
    mut jobs: Vec<Job<E, A>>,
) -> Result<(Vec<A>, PassList<E>), AllocError>
    requires first { first.gate ≡ gate.now }
    requires own { All (λ j. j.pass.gate ≡ gate.now) jobs.items }
    ensures { IfOk result (λ r. (0 < length r.1) × All (λ p. p.gate ≡ gate.now) r.1) }
{
    let mut acts = Vec::new(alloc);
    let mut passes = Vec::new(alloc);
    passes.push(first)?;
    while let Some(Job { act, pass }) = jobs.pop() {
        acts.push(act)?;
        passes.push(pass)?;
    }
    Ok((acts, PassList::of(passes)))
}
