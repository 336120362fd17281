//! The capture of a running store for a savepoint: which of its rows are live, and the bytes of those outside main.
#![tactic(auto)]

mod deltas;
mod parts;
mod store;
mod table;

pub use store::captured;
pub use table::captured_table;
