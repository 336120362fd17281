//! Runs files of rows that are answered: what statements do, and what bytes they leave.
//!
//! `run_rows FILE..` writes a line for each file, and each row of it that is answered otherwise. Its status is 1 where one is,
//! where a file can't be read as rows, and where none is named.
#![tactic(auto)]

use anyhow::Result;
use std::process::ExitCode;

fn main(rt: HostRuntime) -> Result<ExitCode> {
    row_runs::check_named(&rt, rt.alloc())
}
