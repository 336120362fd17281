//! The L1-delta of a table: its youngest rows, one behind another, as they were inserted.
#![tactic(auto)]

mod l1;

pub use l1::L1;
