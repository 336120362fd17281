//! Sorted dictionaries: ascending keys, coded by the bytes that each shares with the one before it.
#![tactic(auto)]

mod block;
mod chain;
mod dict;
mod number;
mod parse;
mod search;
mod weigh;
mod write;

pub use chain::DictChain;
pub use dict::PrefixDict;
