//! The rows of a file, and what is said of them.
use crate::{program, slow};
use anyhow::Result;
use check_run::verdict::Tally;
use row_files::{Row, rows_of};
use std::alloc::Global;
use std::process::ExitCode;
use std::rt::{Env, Files};
use std::sync::Wait;
use std::thread::Threads;
use std::{env, fs};

/// Runs the files that are named behind the program's own name, and says what they came to. It fails where a row is answered otherwise
/// than expected, where a file can't be read as rows, and where none is named.
pub fn check_named(
    rt: &(impl AllocGlobal + Env + Print + Files + Threads + Wait + Sync),
    alloc: Global,
) -> Result<ExitCode> {
    let mut names = env::args(rt)?;
    let _program = names.next();
    let mut is_right = false; // without a file there is nothing to be right
    for (place, name) in names.enumerate() {
        is_right = check_file(rt, alloc, name.as_str())? && (is_right || place == 0);
    }
    Ok(if is_right {
        ExitCode::SUCCESS
    } else {
        ExitCode::FAILURE
    })
}

// Runs the rows of a file, and says what they came to. Whether all are answered as expected.
fn check_file(
    rt: &(impl AllocGlobal + Print + Files + Threads + Wait + Sync),
    alloc: Global,
    name: &str,
) -> Result<bool> {
    let text = match fs::read_to_string(rt, name) {
        Ok(text) => text,
        Err(error) => {
            println!(rt; "{name}: it can't be read: {error}")?;
            return Ok(false);
        }
    };
    match rows_of(alloc, text.as_str()) {
        Ok(rows) => check_rows(rt, alloc, name, rows.as_slice()),
        Err(damage) => {
            println!(rt; "{name}: {damage}")?;
            Ok(false)
        }
    }
}

fn check_rows(
    rt: &(impl Print + Threads + Wait + Sync),
    alloc: Global,
    name: &str,
    rows: &[Row<'_>],
) -> Result<bool> {
    let slow = slow::tally_of(rt, alloc, rows)?;
    let program = program::tally_of(rt, alloc, rows)?;
    say(rt, name, rows, slow, program)?;
    Ok(slow.is_whole() && program.is_whole())
}

// Says how many rows, lines and tries a file has, and how many rows are as expected.
fn say(rt: &impl Print, name: &str, rows: &[Row<'_>], slow: Tally, program: Tally) -> Result<()> {
    let count = rows.len();
    let mut lines: usize = 0;
    let mut tries: usize = 0;
    for row in rows {
        lines = lines.saturating_add(row.asked.len());
        tries = tries.saturating_add(row.tries.len());
    }
    println!(rt;
        "{name}: {count} rows of {lines} lines, {tries} tries; as expected: {program} by the program, {slow} by the slow store"
    )?;
    Ok(())
}
