//! The texts of replies.
#![tactic(auto)]

mod columns;
mod reply;
mod room;
mod values;

pub use reply::{put_reply, put_small};
pub use room::SMALL_REPLY;
pub use values::QUOTE;
