//! A store from the image of its page file and the entries of its log.
#![tactic(auto)]

mod error;
mod filling;
mod image;
mod noting;
mod replay;
mod restart;
mod rows;

pub use error::RestartError;
pub use restart::reopen;
