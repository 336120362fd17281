//! Runs files of rows whose runs are stopped at each moment: crashes, and faults of the disk at each call.
//!
//! `run_tries FILE..` writes a line for each file, and each row of it that is answered otherwise. Its status is 1 where one is,
//! where a file can't be read as rows, and where none is named.
#![tactic(auto)]

use anyhow::Result;
use std::process::ExitCode;

fn main(rt: HostRuntime) -> Result<ExitCode> {
    row_runs::check_named(&rt, rt.alloc())
}
