//! Rows of files, run on a program over a disk and streams in memory, and what they try.
#![tactic(auto)]

mod crashes;
mod faults;
mod files;
mod left;
mod rows;
mod scene;
mod streams;
mod tries;

pub use rows::{Found, check_row};
pub use tries::Trouble;
