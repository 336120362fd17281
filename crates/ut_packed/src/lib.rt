//! The packed form of a code vector: each code takes the same number of bits.
#![tactic(auto)]

mod bounds;
mod masks;
mod packed;

pub use packed::Packed;
