//! The store behind its redo log, over a disk which it is lent: made, opened, and never ahead of its files.
#![tactic(auto)]

mod engine;
mod error;
mod logged;
mod merges;
mod readers;
mod replies;
mod savepoints;
mod saving;
mod stages;
mod unopened;

pub use engine::{Engine, NoBuilder, engine_is_sent};
pub use error::{BeginError, L1Error, OpenError, PhaseError, SaveError};
pub use replies::{begin_reply, end_reply};
pub use unopened::Unopened;
