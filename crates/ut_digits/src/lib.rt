//! Bytes and decimal numbers put where there is room for them.
#![tactic(auto)]

mod numbers;

pub use numbers::{add, add_number};
