//! Compares the program with the slow store of `check_oracle`.
//!
//! `check_random first count` runs so many random scripts, from that seed on, on both, each with a crash. `check_random refuse number` runs a worked
//! script, and judges the run even if an allocation was refused in it; `check_random crowd` does so with a crowd of sessions on
//! threads. Without words it runs few random scripts, each worked one, and a crowd.
#![tactic(auto)]

mod apart;
mod compare;
mod crash;
mod judge;
mod told;
mod worked;

use crate::apart::Apart;
use anyhow::{Context, Result, ensure};
use check_scripts::LINES;
use std::alloc::Global;
use std::env;
use std::process::ExitCode;
use std::sync::Wait;
use std::thread::Threads;

/// What is asked for.
enum Task {
    Few,
    Compare { first: u64, count: u64 },
    Refuse { number: usize },
    Crowd,
}

/// So many random scripts are few.
const FEW: u64 = 20;

fn main(rt: HostRuntime) -> Result<ExitCode> {
    let alloc = rt.alloc();
    let is_right = match task_of(&rt)? {
        Task::Few => {
            compare_all(&rt, alloc, 1, FEW)? && judge_all(&rt, alloc)? && judge_crowd(&rt, alloc)?
        }
        Task::Compare { first, count } => compare_all(&rt, alloc, first, count)?,
        Task::Refuse { number } => judge_one(&rt, alloc, number)?,
        Task::Crowd => judge_crowd(&rt, alloc)?,
    };
    Ok(if is_right {
        ExitCode::SUCCESS
    } else {
        ExitCode::FAILURE
    })
}

fn task_of(rt: &HostRuntime) -> Result<Task> {
    let mut words = env::args(rt)?;
    let _name = words.next();
    let Some(first) = words.next() else {
        return Ok(Task::Few);
    };
    task_in(first, words.next())
}

fn task_in(first: String, second: Option<String>) -> Result<Task> {
    if first.as_str() == "crowd" {
        return Ok(Task::Crowd);
    }
    let second = second.context("two words are wanted")?;
    if first.as_str() == "refuse" {
        let number = second.as_str().parse::<usize>()?;
        return Ok(Task::Refuse { number });
    }
    Ok(Task::Compare {
        first: first.as_str().parse::<u64>()?,
        count: second.as_str().parse::<u64>()?,
    })
}

// Compares so many scripts, or those up to the first that is answered otherwise, and says which.
fn compare_all(
    rt: &(impl Print + Threads + Wait + Sync),
    alloc: Global,
    first: u64,
    count: u64,
) -> Result<bool> {
    for number in 0..count {
        let seed = first.wrapping_add(number);
        if let Some(apart) = compare::first_apart(rt, alloc, seed)? {
            say_apart(rt, seed, &apart)?;
            return Ok(false);
        }
    }
    println!(rt;
        "compared {count} scripts of {LINES} lines from seed {first}, each with a crash: no difference"
    )?;
    Ok(true)
}

// Judges each worked script.
fn judge_all(rt: &(impl Print + Threads + Wait + Sync), alloc: Global) -> Result<bool> {
    for number in 0..worked::COUNT {
        if !judge_one(rt, alloc, number)? {
            return Ok(false);
        }
    }
    Ok(true)
}

// Judges a run of a worked script, and says what it came to.
fn judge_one(
    rt: &(impl Print + Threads + Wait + Sync),
    alloc: Global,
    number: usize,
) -> Result<bool> {
    ensure!(number < worked::COUNT, "there is no such script");
    let verdict = judge::verdict_on(rt, alloc, number)?;
    println!(rt; "script {number}: {verdict}")?;
    Ok(verdict.is_right())
}

// Judges a crowd, and says what it came to.
fn judge_crowd(rt: &(impl Print + Threads + Wait + Sync), alloc: Global) -> Result<bool> {
    let verdict = check_books::judge::verdict_on(rt, alloc)?;
    println!(rt; "crowd: {verdict}")?;
    Ok(verdict.is_right())
}

fn say_apart(rt: &impl Print, seed: u64, apart: &Apart) -> Result<()> {
    let line = apart.line.as_str();
    println!(rt; "seed {seed}: {line}")?;
    let wanted = apart.wanted.as_str();
    println!(rt; "the slow store: {wanted}")?;
    let told = apart.told.as_str();
    println!(rt; "the program: {told}")?;
    Ok(())
}
