//! A crew: threads that share one value through a ticket gate, until their work is over.
#![tactic(auto)]

mod bell;
mod crew;
mod floor;
mod member;
mod role;

pub use crew::together;
pub use role::{Between, Build, Kept, Went};
