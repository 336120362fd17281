//! A run of a source's lines over a store: each is read, answered, acknowledged, and its reply written.
#![tactic(auto)]

mod input;
mod lines;
mod report;
mod say;
mod start;
mod turn;
mod write;

pub use lines::run;
pub use report::{Report, Status, ended};
pub use start::{Start, begin, open_status, start_of};
pub use write::write_all;
