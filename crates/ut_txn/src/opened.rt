//! An open transaction.

/// Where a transaction looks, and its number.
#[derive(Clone, Copy, Debug, PartialEq, Eq)]
pub struct Opened {
    pub snapshot: u32,
    pub number: u64,
}
