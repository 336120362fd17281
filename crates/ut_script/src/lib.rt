//! The line language of the store: the lines of a source, and what a line says.
#![tactic(auto)]

mod conditions;
mod laws;
mod line;
mod line_bytes;
mod lines;
mod listed;
mod literals;
mod queries;
mod rows;
mod select;
mod spelled;
mod statements;
mod store;
mod words;

pub use laws::values_have_one_spelling;
pub use line::{LineMemory, parse_line};
pub use lines::{LineError, Lines};
