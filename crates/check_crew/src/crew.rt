//! Crews on threads over a sum, whose job is to note what the sum was.
ghost use Rattle.std.specs.Prelude.{◌≡◌, ◌≤◌, [], Some, IfOk, vec_len};

use std::alloc::{AllocError, Global};
use std::process::Abort;
use std::sync::Wait;
use std::sync::atomic::AtomicU64;
use std::sync::atomic::Ordering::SeqCst;
use std::test::Fail;
use std::thread::{Threads, yield_now};
use ut_crew::{Between, Build, Kept, Went, together};
use ut_gate::{Act, Held, Slip};

const TURNS: u64 = 200;

const PATIENCE: u32 = 10_000_000;

/// A sum of ones, and how much of it was noted.
#[derive(Drop)]
struct Sum {
    ones: u64,
    noted: u64,
    under_way: Option<u64>,
    looks: u64,
}

impl Sum {
    // Whether it has grown by ten since it was noted.
    fn is_due(&self) -> bool {
        self.ones >= self.noted.saturating_add(10)
    }
}

impl Held for Sum {
    type Job = u64;

    type Entry = u64;

    ghost Ground = { Unit {0} };

    ghost ground = { tt };

    ghost stands_on = { λ _ _. Unit {0} };

    ghost book = { λ _. [] };

    ghost job = { λ s. s.under_way };
}

// What the threads tell each other outside the turns.
#[derive(Drop)]
struct Watch {
    turns: AtomicU64,
    builds: AtomicU64,
    missed: AtomicU64,
}

impl Watch {
    fn new() -> Watch {
        Watch {
            turns: AtomicU64::new(0),
            builds: AtomicU64::new(0),
            missed: AtomicU64::new(0),
        }
    }

    fn until(&self, word: &AtomicU64, least: u64) {
        for _ in 0..PATIENCE {
            if word.load(SeqCst) >= least {
                return;
            }
            yield_now();
        }
        self.missed.fetch_add(1, SeqCst);
    }
}

/// Adds ones, as many as are left.
#[derive(Drop)]
struct Add<'a> {
    left: u64,
    watch: &'a Watch,
}

impl<'a> Act<Sum> for Add<'a> {
    type Answer = Went;

    ghost relates = { λ _ _ _ _ _ _ _. Unit {0} };

    ghost asks = { λ _ _. Unit {0} };

    #[tactic(auto, using(ut_gate::proofs::Jobs::job_stays))]
    fn run(&mut self, value: &mut Sum, _slip: &mut Slip<u64>) -> Went {
        if self.left == 0 {
            return Went::Over;
        }
        self.left -= 1;
        value.ones = value.ones.wrapping_add(1);
        if value.under_way.is_none() && value.is_due() {
            Went::Due
        } else {
            Went::On
        }
    }
}

impl<'a> Between for Add<'a> {
    /// Who is at the twentieth turn waits for the first build.
    fn between(&self) {
        if self.watch.turns.fetch_add(1, SeqCst) == 20 {
            self.watch.until(&self.watch.builds, 1);
        }
    }
}

/// Notes the sum, each time that it has grown by ten.
#[derive(Drop)]
struct Note<'a> {
    all: u64,
    watch: &'a Watch,
}

impl<'a> Act<Sum> for Note<'a> {
    ghost use Rattle.std.specs.Prelude.{◌≡◌, None};

    type Answer = Kept;

    ghost relates = { λ _ _ _ _ _ _ _. Unit {0} };

    ghost asks = { λ _ s. s.job ≡ None };

    fn run(&mut self, value: &mut Sum, slip: &mut Slip<u64>) -> Kept {
        if value.under_way.is_some() {
            return Kept::Over;
        }
        if value.is_due() {
            value.under_way = Some(value.ones);
            slip.job = Some(value.ones);
            return Kept::Did;
        }
        if value.ones >= self.all {
            Kept::Over
        } else {
            Kept::Idle
        }
    }
}

/// Notes what the job says.
#[derive(Drop)]
struct Noted {
    ones: u64,
}

impl Act<Sum> for Noted {
    ghost use Rattle.std.specs.Prelude.{◌≡◌, Some};

    type Answer = Kept;

    ghost relates = { λ a _ x y _ _ _. (x.under_way ≡ Some a.ones) × (y.noted ≡ a.ones) };

    ghost asks = { λ a s. s.job ≡ Some a.ones };

    fn run(&mut self, value: &mut Sum, slip: &mut Slip<u64>) -> Kept {
        value.noted = self.ones;
        value.under_way = None;
        slip.job = None;
        Kept::Did
    }
}

impl<'a> Build<Sum> for Note<'a> {
    type End = Noted;

    ghost ready = { λ _. Unit {0} };

    ghost unbuilt = { λ _ _. Unit {0} };

    /// The first build lets go who waits for it, and waits for three turns.
    fn build(&self, job: &u64) -> Option<Noted> {
        let watch = self.watch;
        let turns = watch.turns.load(SeqCst);
        if watch.builds.fetch_add(1, SeqCst) == 0 {
            watch.until(&watch.turns, turns.saturating_add(3));
        }
        Some(Noted { ones: *job })
    }
}

/// Looks at the sum, and is never over.
#[derive(Drop)]
struct Look;

impl Act<Sum> for Look {
    type Answer = Kept;

    ghost relates = { λ _ _ _ _ _ _ _. Unit {0} };

    ghost asks = { λ _ _. Unit {0} };

    #[tactic(auto, using(ut_gate::proofs::Jobs::job_stays))]
    fn run(&mut self, value: &mut Sum, _slip: &mut Slip<u64>) -> Kept {
        value.looks = value.looks.wrapping_add(1);
        Kept::Idle
    }
}

fn sessions<'a>(alloc: Global, number: u64, watch: &'a Watch) -> Result<Vec<Add<'a>>, AllocError> {
    let mut sessions = Vec::with_capacity(alloc, number as usize)?;
    for _ in 0..number {
        sessions.push(Add { left: TURNS, watch })?;
    }
    Ok(sessions)
}

fn seven(noted: u64) -> Sum
    ensures { result.under_way ≡ None }
{
    Sum {
        ones: 7,
        noted,
        under_way: None,
        looks: 0,
    }
}

/// What a run came to.
#[derive(Clone, Copy)]
struct Seen {
    ones: u64,
    noted: u64,
    looks: u64,
    idle: bool,
    missed: u64,
}

// So many sessions, which is as many as were asked for at most.
fn at_most<'a, R: Abort>(
    rt: &R,
    alloc: Global,
    number: u64,
    watch: &'a Watch,
) -> Result<Vec<Add<'a>>, Fail>
    ensures { IfOk result (λ sessions. vec_len sessions ≤ 16) }
{
    let sessions = sessions(alloc, number, watch)?;
    assert!(rt; sessions.len() <= 16);
    Ok(sessions)
}

// So many sessions and two keepers run on a sum of seven, of which so much was noted. Where there was no memory, the sum is as it
// was.
fn run<R: Threads + Wait + Sync + Abort>(
    rt: &R,
    alloc: Global,
    number: u64,
    noted: u64,
    watch: &Watch,
) -> Result<Option<Seen>, Fail>
    requires { number ≤ 16 }
{
    let sessions = at_most(rt, alloc, number, watch)?;
    let all = 7 + number * TURNS;
    let merger = Note { all, watch };
    match together(rt, alloc, seven(noted), sessions, merger, Look) {
        Ok(sum) => Ok(Some(seen_of(sum, watch))),
        Err(back) => {
            let before = seen_of(back.value, watch);
            assert!(rt; before.ones == 7 && before.noted == noted && before.idle);
            Ok(None)
        }
    }
}

fn seen_of(sum: Sum, watch: &Watch) -> Seen {
    Seen {
        ones: sum.ones,
        noted: sum.noted,
        looks: sum.looks,
        idle: sum.under_way.is_none(),
        missed: watch.missed.load(SeqCst),
    }
}

#[test]
fn all_members_work_and_turns_go_on_while_a_job_is_built(rt: HostRuntime) -> Result<(), Fail> {
    let watch = Watch::new();
    let Some(seen) = run(&rt, rt.alloc(), 16, 0, &watch)? else {
        return Ok(());
    };
    drop(watch);
    assert_eq!(rt; seen.ones, 7 + 16 * TURNS);
    assert!(rt; seen.idle && seen.looks >= 1);
    assert!(rt; seen.noted.saturating_add(10) > seen.ones && seen.noted <= seen.ones);
    assert_eq!(rt; seen.missed, 0);
    Ok(())
}

/// A session that left without a word would let them sleep for ever.
#[test]
fn keepers_end_behind_the_last_session(rt: HostRuntime) -> Result<(), Fail> {
    let watch = Watch::new();
    watch.turns.store(1000, SeqCst);
    let Some(seen) = run(&rt, rt.alloc(), 1, u64::MAX, &watch)? else {
        return Ok(());
    };
    drop(watch);
    assert!(rt; seen.ones == 7 + TURNS && seen.noted == u64::MAX && seen.looks >= 1);
    Ok(())
}

#[test]
fn keepers_end_with_no_session(rt: HostRuntime) -> Result<(), Fail> {
    let watch = Watch::new();
    let Some(seen) = run(&rt, rt.alloc(), 0, 0, &watch)? else {
        return Ok(());
    };
    drop(watch);
    assert!(rt; seen.ones == 7 && seen.noted == 0 && seen.looks >= 1);
    Ok(())
}

/// It looks at its start and behind sessions' last turns, of which there are eight, and not behind each turn: a keeper that
/// looks again and again would have some two hundred.
#[test]
fn keepers_sleep_while_nothing_is_due(rt: HostRuntime) -> Result<(), Fail> {
    let watch = Watch::new();
    watch.turns.store(1000, SeqCst);
    let Some(seen) = run(&rt, rt.alloc(), 8, u64::MAX, &watch)? else {
        return Ok(());
    };
    drop(watch);
    assert_eq!(rt; seen.ones, 7 + 8 * TURNS);
    assert!(rt; seen.noted == u64::MAX && seen.looks >= 1 && seen.looks <= 20);
    Ok(())
}
