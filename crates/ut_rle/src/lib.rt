//! The form of a code vector by runs: equal codes side by side are kept once, with their number.
#![tactic(auto)]

mod reading;
mod run;
mod runs;
mod scan;

pub use run::Run;
pub use runs::Runs;
