//! What a store counts.
use crate::pending::Pending;

/// The numbers of a store, and the merge that is pending.
#[derive(Drop)]
pub(crate) struct Counts {
    /// The id of the next row, and the greatest that may be given.
    pub(crate) next_id: u32,
    pub(crate) rows_limit: u32,
    /// How many tables were made and transactions committed.
    pub(crate) commits: u32,
    /// How many merges were begun.
    pub(crate) merges: u32,
    /// How many entries the journal has.
    pub(crate) entries: u32,
    /// The merge that was begun and has not ended.
    pub(crate) pending: Option<Pending>,
}
