//! Keys of columns: bytes in the order of the values that they stand for.
#![tactic(auto)]

mod comparison;
mod key;
mod key_list;
mod steps;

pub use comparison::{Cmp, ColumnPred};
pub use key::{Key, compare};
pub use key_list::{KeyList, compare_at, is_ascending};
pub use steps::Steps;

/// A range of codes: from the first on, up to and without the second.
pub type CodeRange = (u32, u32);
