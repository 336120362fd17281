//! The rows of an answer, which may share the values of a column.
#![tactic(auto)]

mod cells;
mod rows;

pub use cells::Cells;
pub use rows::Rows;
