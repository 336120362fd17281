//! The directory of a savepoint's image as bytes, both ways.
#![tactic(auto)]

mod drawn;
mod fields;
mod ids;
mod image;
mod laws;
mod length;
mod marks;
mod put;
mod tables;
mod write;

pub use drawn::{Drawn, PartRef};
pub use ids::{are_own_ids, ids_of};
pub use image::image_from;
pub use laws::one_image;
pub use write::{image_front, image_row, image_rows, image_start, image_table};
