//! A frame of the redo log as it goes to the disk, behind its gate.
#![tactic(auto)]

mod frame;

pub use frame::Frame;
