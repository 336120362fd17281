//! Merges two ascending key lists into one of the used keys of both, in pieces on threads.
#![tactic(auto)]

mod cut;
mod joining;
mod merging;
mod parallel;
mod piece;

pub use cut::{Cut, cuts};
pub use merging::merge;
pub use piece::{Merged, count_piece};
