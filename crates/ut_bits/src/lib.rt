//! Lists of codes packed at a width of bits into bytes, the lowest bits first.
#![tactic(auto)]

mod bit_list;
mod bit_writer;
mod cut;
mod ranges;
mod words;

pub use bit_list::{BitList, BitListWriter};
pub use cut::{cut_at_error, push_or_cut};
pub use ranges::{append_range, is_in};
pub use words::{append_word, append_words, read_word};
