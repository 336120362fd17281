//! Merges into main: the data that a merge freezes, and the new part that is built of them.
#![tactic(auto)]

mod arranging;
mod builder;
mod building;
mod built;
mod coding;
mod gathering;
mod job;
mod keep;
mod keys;
mod marking;
mod old;
mod olds;
mod seeking;
mod uniting;

pub use builder::{Build, Builder};
pub use building::build;
pub use built::{Built, Parts};
pub use job::Job;
pub use keep::Keep;
pub use old::Old;
