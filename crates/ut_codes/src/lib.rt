//! Code vectors: a list of codes in the form of least size.
#![tactic(auto)]

mod choice;
mod code_vec;
mod form;
mod reading;

pub use code_vec::CodeVec;
pub use form::{Form, width_of};
