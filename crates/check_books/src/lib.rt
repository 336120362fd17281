//! Books of crowds, followed turn by turn on the slow store.
#![tactic(auto)]

pub mod books;
pub mod judge;
pub mod runs;
pub mod scripts;
