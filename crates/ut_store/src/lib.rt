//! The store in memory.
#![tactic(auto)]

mod bulk;
mod counts;
mod delete;
mod finish;
mod insert;
mod limits;
mod look;
mod merges;
mod outcome;
mod pending;
mod response;
mod statement;
mod store;
mod tables;
mod transactions;
mod update;
mod work;

pub use merges::MergeStop;
pub use outcome::Outcome;
pub use response::Response;
pub use store::Store;
