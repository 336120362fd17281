//! The script of the benchmark: statements that fill two tables, merge, save and ask, drawn from a seed.
#![tactic(auto)]

mod draws;
mod fixed;
mod plan;
mod rows;
mod script;

pub use script::{Script, script_len, script_line};
