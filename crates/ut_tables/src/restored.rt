//! What a store begins with.
use crate::Rows;

/// The rows of a store that begins, the id of the next row, and what its journal counts. Nobody has a transaction, and no merge
/// is pending.
#[derive(Drop)]
pub struct Restored {
    pub rows: Rows,
    pub next_id: u32,
    /// How many tables were made and transactions committed.
    pub commits: u32,
    /// How many merges were begun.
    pub merges: u32,
    /// How many entries the journal has.
    pub entries: u32,
}
