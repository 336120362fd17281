//! The sparse form of a code vector: the most frequent code is left out.
#![tactic(auto)]

mod frequent;
mod marks;
mod scan;
mod sparse;

pub use frequent::{Frequency, most_frequent};
pub use sparse::Sparse;
