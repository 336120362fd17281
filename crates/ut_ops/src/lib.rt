//! The operators of questions, over a table and the rows that a scan found.
#![tactic(auto)]

mod best;
mod cell;
mod columns;
mod gather;
mod groups;
mod joins;
mod numbers;
mod ranked;
mod sums;
mod tallied;

pub use best::extreme;
pub use columns::select;
pub use groups::group;
pub use joins::join;
pub use sums::sum;
pub use tallied::{sum_tally, tallied_column};
