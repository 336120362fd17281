//! Masks: for each place of a vector whether it stands, a bit a place.
#![tactic(auto)]

mod mask;
mod word;

pub use mask::Mask;
