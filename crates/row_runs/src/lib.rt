//! Files of rows, run on the program and on the slow store of `check_oracle`. A row is a script with its answers, and what is tried with
//! it.
#![tactic(auto)]

mod files;
mod program;
mod slow;
mod wrong;

pub use files::check_named;
