//! A ticket gate: one value that threads share, changed by one act at a time, with one history.
#![tactic(auto)]

mod bells;
mod gate;
mod held;
mod pass;
mod rule;
mod steps;
mod view;

pub use gate::{Back, Gate};
pub use held::{Act, Held, Slip};
pub use pass::{Pass, PassList};
