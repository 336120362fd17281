//! The program over its words and a runtime, and what it exits with.
#![tactic(auto)]

mod run;
mod status;
mod words;

pub use run::program;
pub use words::{ProcessWords, Words};
