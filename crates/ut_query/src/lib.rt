//! Questions, over the rows that somebody sees.
#![tactic(auto)]

mod answers;
mod asking;
mod rows;

pub use asking::{answer, ask};
pub use ut_look::Look;
