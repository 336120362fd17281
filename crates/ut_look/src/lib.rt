//! What a question looks at.
#![tactic(auto)]

mod look;

pub use look::Look;
