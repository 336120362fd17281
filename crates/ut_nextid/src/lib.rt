//! The next id of a journal beside a running store: one above the greatest that its entries inserted.
#![tactic(auto)]

mod laws;
mod next_ids;

pub use laws::note_laws;
pub use next_ids::{Ending, NextIds, ending_of};
