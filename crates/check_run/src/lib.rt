//! Runs of the program's top call over a disk and streams in memory, and what they leave, for the crates that check them.
#![tactic(auto)]

pub mod run;
pub mod saved;
pub mod told;
pub mod verdict;
