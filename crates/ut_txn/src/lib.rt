//! The sessions: which of them has a transaction open, and the bytes that its commit will append.
#![tactic(auto)]

mod opened;
mod seated;
mod sessions;

pub use opened::Opened;
pub use sessions::Sessions;
