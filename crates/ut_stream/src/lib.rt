//! A stream of frames that comes in pieces, read frame by frame.
#![tactic(auto)]

mod frames;
mod front;
mod laws;
mod payload;

pub use frames::{Frames, Heard};
pub use laws::stream_laws;
