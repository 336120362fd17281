//! What a scan compares, and what it answers.

pub use ut_key::ColumnPred;
pub use ut_stamps::Place;

/// A row that was found.
#[derive(Clone, Copy, Debug, PartialEq, Eq)]
pub struct Found {
    pub id: u32,
    pub place: Place,
}
