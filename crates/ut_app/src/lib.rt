//! The program's top call: it reads the words, and has the run made that they ask for.
#![tactic(auto)]

mod bench;
mod crowd;
mod figures;
mod hear;
mod program;
mod tally;

pub use program::{serve, top};
pub use ut_run::{Report, Status};
