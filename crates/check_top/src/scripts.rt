//! The random scripts of `check_scripts`, answered by the program.
use check_oracle::Oracle;
use check_run::run::{RUN, RUN_NEW, run_on};
use check_scripts::{Answers, LINES, StoreLines, script_line};
use std::alloc::{AllocError, Global};
use std::process::Abort;
use std::sync::Wait;
use std::thread::Threads;
use ut_app::Status;
use ut_outside::MemDisk;

/// Ids enough for any script.
const AMPLE: u32 = 1000;

/// Which statements of the store the random scripts have.
const STORE_LINES: StoreLines = StoreLines::OfSaves;

/// A script, and its replies.
#[derive(Drop)]
struct Script {
    lines: Vec<u8>,
    replies: Vec<u8>,
}

/// Puts a line of the script of a seed behind the others, and what the slow store replies.
fn put_line(
    alloc: Global,
    store: &mut Oracle,
    script: &mut Script,
    seed: u64,
    number: u32,
) -> Result<(), AllocError> {
    let start = script.lines.len();
    script_line(STORE_LINES, seed, number, &mut script.lines)?;
    let line = script.lines.get(start..).unwrap_or(&[]);
    store.answer(alloc, line, &mut script.replies)?;
    script.lines.push(b'\n')?;
    Ok(())
}

/// The script of a seed, and what the slow store replies.
fn scripted(alloc: Global, store: &mut Oracle, seed: u64) -> Result<Script, AllocError> {
    let mut script = Script {
        lines: Vec::new(alloc),
        replies: Vec::new(alloc),
    };
    for number in 0..LINES {
        put_line(alloc, store, &mut script, seed, number)?;
    }
    Ok(script)
}

/// The slow store and the program's disk.
#[derive(Drop)]
struct Both {
    store: Oracle,
    disk: MemDisk,
}

impl Both {
    fn new(alloc: Global) -> Result<Both, AllocError> {
        Ok(Both {
            store: Oracle::new(alloc, AMPLE)?,
            disk: MemDisk::of(alloc, &[], &[], &[])?,
        })
    }

    /// Opens the slow store again. The program does so in each run.
    fn open_again(&mut self, alloc: Global) -> Result<(), AllocError> {
        self.store = self.store.reopened(alloc, AMPLE)?;
        Ok(())
    }

    /// Runs the script of a seed on both.
    fn run(
        &mut self,
        rt: &(impl Abort + Threads + Wait + Sync),
        alloc: Global,
        words: &[&str],
        seed: u64,
    ) -> Result<(), AllocError> {
        let script = scripted(alloc, &mut self.store, seed)?;
        let ran = run_on(rt, alloc, words, &script.lines, &mut self.disk)?;
        let is_alike = ran.replies.as_slice() == script.replies.as_slice();
        let is_done = ran.status == Status::Done;
        drop(ran);
        assert!(rt; is_done && is_alike, "seed {seed}");
        Ok(())
    }
}

/// A store is opened again after its script, and answers another.
fn check_both(
    rt: &(impl Abort + Threads + Wait + Sync),
    alloc: Global,
    both: &mut Both,
    seed: u64,
) -> Result<(), AllocError> {
    both.run(rt, alloc, RUN_NEW, seed)?;
    both.open_again(alloc)?;
    both.run(rt, alloc, RUN, seed.saturating_add(100))
}

fn check_seed(
    rt: &(impl Abort + Threads + Wait + Sync),
    alloc: Global,
    seed: u64,
) -> Result<(), AllocError> {
    let mut both = Both::new(alloc)?;
    let checked = check_both(rt, alloc, &mut both, seed);
    drop(both);
    checked
}

#[test]
fn scripts_are_answered_as_by_the_slow_store(rt: HostRuntime) -> Result<(), AllocError> {
    for seed in 1..8 {
        check_seed(&rt, rt.alloc(), seed)?;
    }
    Ok(())
}
