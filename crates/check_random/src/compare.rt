//! One random script on the program and on the slow store.
use crate::apart::{Apart, apart_from};
use crate::crash::crash_apart;
use crate::told::Script;
use check_oracle::Oracle;
use check_run::run::{RUN, RUN_NEW, run_on};
use check_scripts::{LINES, StoreLines, script_line};
use std::alloc::{AllocError, Global};
use std::sync::Wait;
use std::thread::Threads;
use ut_outside::{Ack, MemDisk};

/// Ids enough for any script.
pub(crate) const AMPLE: u32 = 1_000_000;

/// Asks for all that is there of the tables of the scripts.
const QUESTIONS: [&str; 6] = [
    "1 select T *",
    "1 select U *",
    "1 select V *",
    "0 shape T",
    "0 shape U",
    "0 shape V",
];

/// The script of a seed, and behind how many of its lines the store is opened again.
#[derive(Clone, Copy)]
pub(crate) struct Halves {
    pub seed: u64,
    pub of_store: StoreLines,
    pub cut: u32,
}

impl Halves {
    /// A line of the script.
    pub(crate) fn line(self, alloc: Global, number: u32) -> Result<Vec<u8>, AllocError> {
        let mut line = Vec::new(alloc);
        script_line(self.of_store, self.seed, number, &mut line)?;
        Ok(line)
    }
}

// Of every second script the store is opened again in its middle, behind one of its lines. A script has merges into main of
// all kinds, and two of four scripts have savepoints besides.
fn halves_of(seed: u64) -> Halves {
    Halves {
        seed,
        of_store: match seed % 4 {
            0 | 3 => StoreLines::OfMain,
            _ => StoreLines::OfSaves,
        },
        cut: match seed % 2 {
            0 => LINES,
            _ => (seed / 2 % u64::from(LINES)) as u32,
        },
    }
}

/// The first line of the script of a seed, or of the questions behind it, that the two answer otherwise. The store is opened
/// again before the questions, in the middle of some scripts, and behind a crash.
pub(crate) fn first_apart(
    rt: &(impl Threads + Wait + Sync),
    alloc: Global,
    seed: u64,
) -> Result<Option<Apart>, AllocError> {
    let mut both = Both::new(alloc)?;
    both.apart(rt, alloc, halves_of(seed))
}

/// A script's two sides: the slow store, and the program's disk with what was acknowledged over it.
struct Both {
    store: Oracle,
    disk: MemDisk,
    acks: Vec<Ack>,
}

// One step of a proof, wherever one is dropped.
impl Drop for Both {
    fn drop(self) {
        let Both {
            store: _,
            disk: _,
            acks: _,
        } = self;
    }
}

impl Both {
    fn new(alloc: Global) -> Result<Both, AllocError> {
        Ok(Both {
            store: Oracle::new(alloc, AMPLE)?,
            disk: MemDisk::of(alloc, &[], &[], &[])?,
            acks: Vec::new(alloc),
        })
    }

    // Where the two answer a script otherwise, what a crash leaves of it, or the questions behind it. These calls hold one value
    // each, so that their proofs are short.
    fn apart(
        &mut self,
        rt: &(impl Threads + Wait + Sync),
        alloc: Global,
        halves: Halves,
    ) -> Result<Option<Apart>, AllocError> {
        if let Some(apart) = self.run(rt, alloc, RUN_NEW, halves, 0, halves.cut)? {
            return Ok(Some(apart));
        }
        if let Some(apart) = self.run(rt, alloc, RUN, halves, halves.cut, LINES)? {
            return Ok(Some(apart));
        }
        if let Some(apart) = crash_apart(rt, alloc, halves, &self.disk, &self.acks)? {
            return Ok(Some(apart));
        }
        apart_in_questions(rt, alloc, &mut self.store, &mut self.disk)
    }

    // Where the two answer those lines of a script otherwise. The slow store is opened again behind them.
    fn run(
        &mut self,
        rt: &(impl Threads + Wait + Sync),
        alloc: Global,
        words: &[&str],
        halves: Halves,
        from: u32,
        to: u32,
    ) -> Result<Option<Apart>, AllocError> {
        let script = lines_of(alloc, halves, from, to, &mut self.store)?;
        self.compared(rt, alloc, words, &script)
    }

    fn compared(
        &mut self,
        rt: &(impl Threads + Wait + Sync),
        alloc: Global,
        words: &[&str],
        script: &Script,
    ) -> Result<Option<Apart>, AllocError> {
        self.store = self.store.reopened(alloc, AMPLE)?;
        let ran = run_on(rt, alloc, words, &script.lines, &mut self.disk)?;
        self.acks.extend_from_slice(ran.acks.as_slice())?;
        apart_from(alloc, script, &ran)
    }
}

/// Where a store that is opened now answers the questions otherwise.
pub(crate) fn apart_in_questions(
    rt: &(impl Threads + Wait + Sync),
    alloc: Global,
    store: &mut Oracle,
    disk: &mut MemDisk,
) -> Result<Option<Apart>, AllocError> {
    let questions = questions(alloc, store)?;
    let ran = run_on(rt, alloc, RUN, &questions.lines, disk)?;
    apart_from(alloc, &questions, &ran)
}

fn questions(alloc: Global, store: &mut Oracle) -> Result<Script, AllocError> {
    let mut questions = Script::new(alloc);
    for line in QUESTIONS {
        questions.ask(alloc, line.as_bytes(), store)?;
    }
    Ok(questions)
}

fn lines_of(
    alloc: Global,
    halves: Halves,
    from: u32,
    to: u32,
    store: &mut Oracle,
) -> Result<Script, AllocError> {
    let mut script = Script::new(alloc);
    for number in from..to {
        ask_line(alloc, halves, number, &mut script, store)?;
    }
    Ok(script)
}

fn ask_line(
    alloc: Global,
    halves: Halves,
    number: u32,
    script: &mut Script,
    store: &mut Oracle,
) -> Result<(), AllocError> {
    let line = halves.line(alloc, number)?;
    script.ask(alloc, &line, store)
}
