//! A list that grows at its end and shrinks at its front, with room that is made before it is used.
#![tactic(auto)]

mod queue;

pub use queue::Queue;
