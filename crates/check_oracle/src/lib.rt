//! A store that works as the plain definitions say, step by step: slow, and easy to read.
#![tactic(auto)]

mod change;
mod held;
mod image;
mod merges;
mod needed;
mod oracle;
mod outcome;
mod reopen;
mod room;
mod saves;
mod session;
mod shapes;
mod sight;
mod step;
mod taken;
mod writes;

pub use oracle::Oracle;
