//! A crowd: sessions on threads that share one store, a merger and a saver beside them, and the book of what was answered.
#![tactic(auto)]

mod advance;
mod book;
mod hall;
mod merger;
mod queues;
mod run;
mod saver;
mod sort;
mod text;

pub use advance::Advance;
pub use book::{Asked, Turn};
pub use hall::{Hall, Opening, hall_of};
pub use merger::{EndJob, Merger};
pub use run::{Ended, crowd};
pub use saver::Saver;
pub use text::put_book;
