//! The rows of a store: its tables with their stages, and what became of each transaction.
#![tactic(auto)]

mod look;
mod merges;
mod readers;
mod restored;
mod rows;
mod tables;
mod work;
mod writes;

pub use restored::Restored;
pub use rows::Rows;
pub use work::{Changes, Work};
