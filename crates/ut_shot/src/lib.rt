//! A shot: what tables hold for somebody who looks, taken at once and asked later.
#![tactic(auto)]

mod laws;
mod reads;
mod shot;

pub use laws::answer_laws;
pub use shot::Shot;
