//! Files of rows, read: each row is a script with its answers, what its store has to be after a restart, and what is tried with it.
#![tactic(auto)]

mod reading;
mod row;
mod tries;
mod words;
mod wrong;

pub use reading::rows_of;
pub use row::{Ids, MOST_IDS, Numbered, Row, State};
pub use tries::{Change, Patch, Place, Try, Wanted};
pub use words::{byte_in, number_in};
pub use wrong::{Damage, Wrong};
