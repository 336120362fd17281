//! Reads the image that the selected root names: its directory, and the parts that this names.
#![tactic(auto)]

mod image;
mod laws;
mod parts;

pub use image::{Image, read_image};
pub use laws::reading_laws;
