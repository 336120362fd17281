//! A table as one who looks sees it, made a table of its own.
#![tactic(auto)]

mod parts;
mod table;

pub use table::shown_table;
