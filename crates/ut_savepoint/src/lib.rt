//! A savepoint in memory: the root and the pages that it writes, planned from what is captured, and how many it has written.
#![tactic(auto)]

mod captured;
mod cut;
mod directory;
mod planning;
mod savepoint;

pub use captured::{CapturedPart, CapturedTable};
pub use cut::PageWrite;
pub use planning::plan;
pub use savepoint::Savepoint;
