//! Codes mapped through a vector, in even shares on threads.
#![tactic(auto)]

mod parts;
mod recoding;

pub use parts::share;
pub use recoding::recode;
