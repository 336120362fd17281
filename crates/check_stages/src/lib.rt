//! Where the rows of a table stand, worked out as the plain definitions say: rows enter, are moved, merged into main, and replayed.
#![tactic(auto)]

mod capture;
mod flags;
mod merges;
mod places;
mod replay;
mod shape;
mod sorted;
mod stages;

pub use capture::captured;
pub use merges::{closing, has_part_room, has_places, switched};
pub use replay::replayed;
pub use shape::{has_at_most, shape_of};
pub use stages::{move_l1, no_stages, place_all, stages_copied};
