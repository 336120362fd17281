//! Different keys in first-seen order, and the places of each.
#![tactic(auto)]

mod dictionary;
mod held;
mod key;
mod order;
mod postings;
mod rising;

pub use dictionary::UnsortedDict;
pub use postings::Postings;
