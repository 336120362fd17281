//! The L2-delta of a table: rows held column by column, each with a dictionary in first-seen order
//! and the places of each key.
#![tactic(auto)]

mod column;
mod l2;
mod source;

pub use column::Column;
pub use l2::L2;
