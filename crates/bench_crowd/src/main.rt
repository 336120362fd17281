//! The program, with a hook that looks at the clock.
//!
//! `bench_crowd WORDS` answers the script of the standard input over the store of the working folder, as the program does with
//! these words. To the standard error it writes how long nobody's line was answered while merges were built, and at any time.
#![tactic(auto)]

mod watch;

use crate::watch::{Watch, say};
use anyhow::Result;
use std::alloc::{AllocError, Global};
use std::process::ExitCode;
use std::rt::{Clock, Env};
use std::sync::Wait;
use std::thread::Threads;
use std::{env, io};
use ut_app::{Status, top};
use ut_files::{RealDisk, StdSink, StdSource, WorkingFolder};
use ut_outside::{Disk, Sink, Source};

fn main(rt: HostRuntime) -> Result<ExitCode> {
    let mut source = StdSource::new(rt.reader());
    let mut sink = StdSink::new(io::writer(&rt));
    let mut disk = RealDisk::new(WorkingFolder::new(&rt));
    run(&rt, rt.alloc(), &mut source, &mut sink, &mut disk)
}

// A run with the words of the process. How it ended is said last.
fn run<S: Source<K>, K: Sink<D>, D: Disk + Send>(
    rt: &(impl AllocGlobal + Eprint + Env + Clock + Threads + Wait + Sync),
    alloc: Global,
    source: &mut S,
    sink: &mut K,
    disk: &mut D,
) -> Result<ExitCode> {
    let words = words_of(rt, alloc)?;
    let status = run_with(rt, alloc, &words, source, sink, disk)?;
    eprintln!(rt; "status {status:?}")?;
    Ok(match status {
        Status::Done => ExitCode::SUCCESS,
        _ => ExitCode::FAILURE,
    })
}

fn run_with<S: Source<K>, K: Sink<D>, D: Disk + Send>(
    rt: &(impl AllocGlobal + Eprint + Clock + Threads + Wait + Sync),
    alloc: Global,
    words: &[String],
    source: &mut S,
    sink: &mut K,
    disk: &mut D,
) -> Result<Status> {
    let texts = texts_of(alloc, words)?;
    watched(rt, alloc, &texts, source, sink, disk)
}

// A run with these words, and what the hook saw.
fn watched<S: Source<K>, K: Sink<D>, D: Disk + Send>(
    rt: &(impl AllocGlobal + Eprint + Clock + Threads + Wait + Sync),
    alloc: Global,
    texts: &[&str],
    source: &mut S,
    sink: &mut K,
    disk: &mut D,
) -> Result<Status> {
    let watch = Watch::new(rt)?;
    let report = top(rt, alloc, texts, source, sink, disk, &watch);
    say(rt, &watch)?;
    Ok(report.status)
}

// The words that the process was called with, the program's name first.
fn words_of(rt: &(impl AllocGlobal + Env), alloc: Global) -> Result<Vec<String>> {
    let mut words = Vec::new(alloc);
    for word in env::args(rt)? {
        words.push(word)?;
    }
    Ok(words)
}

// The words as texts.
fn texts_of(alloc: Global, words: &[String]) -> Result<Vec<&str>, AllocError> {
    let mut texts = Vec::new(alloc);
    for word in words {
        texts.push(word.as_str())?;
    }
    Ok(texts)
}
