//! Lines of random scripts, for stores that answer lines.
#![tactic(auto)]

mod answers;
mod scripts;
mod spelled;

pub use answers::{Answers, first_apart};
pub use scripts::{LINES, StoreLines, script_line};
