//! Runs of the counter and of the hall, with real threads.
ghost use Rattle.std.specs.Prelude.{◌<◌};

use crate::counter::{Begin, Counter, Draw, End};
use crate::hall::{Advance, Disk};
use crate::run::{answer, draw};
use std::alloc::Global;
use std::process::Abort;
use std::sync::Wait;
use std::test::Fail;
use std::thread::Threads;
use ut_gate::{Gate, PassList};

// A disk in memory, which counts what it could not keep.
#[derive(Drop)]
struct Tape {
    kept: Vec<u64>,
    lost: u64,
}

impl Disk for Tape {
    ghost faults = { λ t. t.lost };

    fn put(&mut self, n: u64) -> bool {
        if self.kept.push(n).is_ok() {
            return true;
        }
        self.lost = self.lost.saturating_add(1);
        false
    }
}

// The numbers that so many threads drew, a thousand each, in one list, and the book.
fn drawn<R: Threads + Wait + Sync + Abort>(
    rt: &R,
    alloc: Global,
    threads: u32,
) -> Result<(Vec<u64>, Vec<u64>), Fail>
    requires { threads < 64 }
{
    let mut acts = Vec::new(alloc);
    for _ in 0..threads {
        acts.push(Draw {
            wanted: 1000,
            numbers: Vec::new(alloc),
        })?;
    }
    let Some((counter, acts)) = draw(rt, alloc, acts, threads + 1) else {
        panic!(rt; "no memory")
    };
    assert_eq!(rt; acts.len(), threads as usize);
    let mut all = Vec::new(alloc);
    for mut act in acts {
        assert_eq!(rt; act.numbers.len(), 1000);
        all.append(&mut act.numbers)?;
    }
    let Counter {
        drawn,
        under_way: _,
    } = counter;
    Ok((all, drawn))
}

#[test]
fn each_number_is_drawn_once(rt: HostRuntime) -> Result<(), Fail> {
    let alloc = rt.alloc();
    for threads in [2, 8, 18] {
        let (mut all, book) = drawn(&rt, alloc, threads)?;
        all.sort()?;
        assert_eq!(rt; book.len(), threads as usize * 1000);
        assert_eq!(rt; all.len(), book.len());
        for (i, (answered, entry)) in all.iter().zip(&book).enumerate() {
            assert!(rt;
                *answered == i as u64 && *entry == i as u64,
                "at {i} of {threads}"
            );
        }
    }
    Ok(())
}

#[test]
fn a_job_stays_with_its_pass(rt: HostRuntime) -> Result<(), Fail> {
    let alloc = rt.alloc();
    let mut drawn = Vec::new(alloc);
    drawn.push(0)?;
    let counter = Counter {
        drawn,
        under_way: None,
    };
    let (gate, mut passes) = match Gate::new(alloc, counter, 2) {
        Ok(made) => made,
        Err(back) => {
            // There was no memory: the value is as it was.
            assert!(rt;
                back.value.drawn.as_slice() == [0].as_slice() && back.value.under_way.is_none()
            );
            return Ok(());
        }
    };
    let (Some(mut first), Some(mut second)) = (passes.pop(), passes.pop()) else {
        panic!(rt; "no passes")
    };
    assert!(rt; first.job().is_none() && second.job().is_none());
    assert!(rt; gate.act(&rt, &mut first, &mut Begin));
    assert!(rt; !gate.act(&rt, &mut second, &mut Begin));
    assert_eq!(rt; first.job().copied(), Some(1));
    assert!(rt; second.job().is_none());
    gate.act(&rt, &mut first, &mut End);
    assert!(rt; first.job().is_none());
    assert!(rt; gate.act(&rt, &mut second, &mut Begin));
    assert_eq!(rt; second.job().copied(), Some(1));
    let mut rest = Vec::new(alloc);
    rest.push(first)?;
    rest.push(second)?;
    let counter = gate.close(&rt, PassList::of(rest));
    assert_eq!(rt; counter.under_way, Some(1));
    Ok(())
}

#[test]
fn threads_answer_lines_on_a_lent_disk(rt: HostRuntime) -> Result<(), Fail> {
    let alloc = rt.alloc();
    let mut tape = Tape {
        kept: Vec::new(alloc),
        lost: 0,
    };
    let mut lines = Vec::new(alloc);
    let mut acts = Vec::new(alloc);
    for i in 0..500 {
        lines.push(i * i)?;
    }
    for _ in 0..18 {
        acts.push(Advance)?;
    }
    let wanted = lines.clone()?;
    let Some(book) = answer(&rt, alloc, &mut tape, lines, acts) else {
        panic!(rt; "no memory")
    };
    assert!(rt; book == wanted && tape.kept == wanted && tape.lost == 0);
    Ok(())
}
