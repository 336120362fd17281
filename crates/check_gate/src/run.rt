//! Runs of many threads over one gate.
ghost use Rattle.std.specs.Prelude.{◌≡◌, ◌<◌, ◌≤◌, length, IfSome};
ghost use Rattle.check_gate.specs.Count.{IsCount};

use crate::counter::{Counter, Draw};
use crate::crew::{each, jobs_of, parted};
use crate::hall::{Advance, Disk, Hall, Opening};
use std::alloc::Global;
use std::marker::{Brand, PhantomData};
use std::sync::Wait;
use std::thread::Threads;
use ut_gate::{Act, Gate, Held};

// Runs each act in a thread until it answers false. The value comes back, with the acts.
fn share<E: Held, A: Act<E, Answer = bool> + Send + Drop, R: Threads + Wait + Sync>(
    rt: &R,
    alloc: Global,
    value: E,
    acts: Vec<A>,
    seats: u32,
) -> Option<(E, Vec<A>)>
    requires seats { (1 ≤ seats) × (seats ≤ 64) }
    requires job { E.job value ≡ None }
    requires ground { E.stands_on E.ground value }
    requires always { (a : A) (s : _) → A.asks a s }
    ensures { IfSome result (λ r. E.stands_on E.ground r.0) }
{
    let Ok((gate, mut passes)) = Gate::new(alloc, value, seats) else {
        return None;
    };
    let first = passes.pop()?;
    let Ok(jobs) = jobs_of(alloc, &gate, passes, acts) else {
        return None;
    };
    let Ok(done) = Vec::with_capacity(alloc, jobs.len()) else {
        return None;
    };
    let done = each(rt, alloc, &gate, jobs, done);
    let Ok((acts, passes)) = parted(alloc, &gate, first, done) else {
        return None;
    };
    Some((gate.close(rt, passes), acts))
}

/// Some threads draw from a counter.
pub(crate) fn draw<R: Threads + Wait + Sync>(
    rt: &R,
    alloc: Global,
    acts: Vec<Draw>,
    seats: u32,
) -> Option<(Counter, Vec<Draw>)>
    requires { (1 ≤ seats) × (seats ≤ 64) }
    ensures { IfSome result (λ r. IsCount r.0.drawn.items) }
{
    let counter = Counter {
        drawn: Vec::new(alloc),
        under_way: None,
    };
    share(rt, alloc, counter, acts, seats)
}

// One run on a ground that its caller names.
fn on_ground<D: Disk + Send, O: Opening + Send, R: Threads + Wait + Sync>(
    rt: &R,
    alloc: Global,
    disk: &mut D,
    lines: Vec<u64>,
    acts: Vec<Advance>,
) -> Option<Vec<u64>>
    requires { (O.ground.lines ≡ lines.items) × (O.ground.faults ≡ D.faults disk.old) }
    ensures { IfSome result (λ v. length v.items ≤ length O.ground.lines) }
{
    let hall: Hall<'_, D, O> = Hall {
        disk,
        lines,
        book: Vec::new(alloc),
        of: PhantomData,
    };
    let (hall, _acts) = share(rt, alloc, hall, acts, 19)?;
    let Hall {
        disk: _,
        lines: _,
        book,
        of: _,
    } = hall;
    Some(book)
}

/// Some threads answer the lines. The book has no more entries than there are lines.
pub(crate) fn answer<D: Disk + Send, R: Threads + Wait + Sync>(
    rt: &R,
    alloc: Global,
    disk: &mut D,
    lines: Vec<u64>,
    acts: Vec<Advance>,
) -> Option<Vec<u64>>
    ensures { IfSome result (λ v. length v.items ≤ length lines.items) }
{
    on_ground::<D, Brand, R>(rt, alloc, disk, lines, acts)
}
