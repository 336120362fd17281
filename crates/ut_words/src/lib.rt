//! The words that the program is called with.
#![tactic(auto)]

mod command;
mod plan;
mod words;

pub use plan::{Mode, Plan, WordsError};
pub use words::plan_of;
