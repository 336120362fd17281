//! Re-sorted order: rows by their codes, those of the columns with fewest different keys first.
#![tactic(auto)]

mod columns;
mod laws;
mod packing;
mod rows;

pub use laws::{column_order, resorted_order};
pub use rows::order;
