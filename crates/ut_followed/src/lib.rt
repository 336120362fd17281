//! What an entry of another store's journal makes of a store that follows it.
#![tactic(auto)]

mod laws;

pub use laws::follow_laws;
