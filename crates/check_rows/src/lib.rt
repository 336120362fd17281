//! Rows by ascending id: those that entries lead to, answers to questions over them, and the operations that change them.
#![tactic(auto)]

mod answers;
mod known;
mod load;
pub mod made;
mod query;
mod rows;
mod values;

pub use answers::told;
pub use known::{Known, state_after};
pub use load::{inserts_of, load_of, next_of};
pub use query::found;
pub use rows::apply_all;
