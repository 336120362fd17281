//! The places of a table's seen rows that meet comparisons, over its stages and their stamps.
#![tactic(auto)]

mod asked;
mod coded;
mod counting;
mod delta;
mod delta_count;
mod part_count;
mod part_tally;
mod parts;
mod place;
mod probe;
mod rows;
mod sought;
mod stages;
mod table;
mod tallying;

pub use asked::Asked;
pub use counting::count;
pub use place::{ColumnPred, Found, Place};
pub use stages::Stages;
pub use table::scan;
pub use tallying::{CodeTally, tally};
