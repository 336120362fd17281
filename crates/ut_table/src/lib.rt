//! One table: its stages with stamps.
#![tactic(auto)]

mod coded;
mod counted;
mod filling;
mod flags;
mod kept;
mod merging;
mod pending;
mod reading;
mod scanning;
mod shared;
mod sizes;
mod stage;
mod standing;
mod table;
#[cfg(test)]
mod tests;

pub use stage::Stage;
pub use table::Table;
