//! What definitions come to that are written as walks over lists: the laws say it as sentences.
#![tactic(auto)]

mod laws;

pub use laws::{
    best_value, different_keys, marked_places, needed_rows, occurring_values, resorted_places,
};
