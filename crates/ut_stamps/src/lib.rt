//! Who sees a row: what became of each transaction, and which of them inserted and ended the row;
//! and the stamps of a table's rows, stage by stage.
#![tactic(auto)]

mod fates;
mod keeping;
mod part_stamps;
mod place;
mod stamp_table;
mod visibility;

pub use fates::{Fate, Fates};
pub use keeping::keeps;
pub use part_stamps::PartStamps;
pub use place::Place;
pub use stamp_table::StampTable;
pub use visibility::{Snapshot, Stamp, is_taken, sees};
