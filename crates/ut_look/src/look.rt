//! What a question looks at.
use ut_plain::Table;
use ut_stamps::Snapshot;
use ut_table::Table as Stages;

/// The tables and their rows, as they are seen at a length of the journal, with those of a transaction.
#[derive(Clone, Copy)]
pub struct Look<'a> {
    /// The name and the columns of each table, and in the same order its stages.
    pub tables: &'a [Table],
    pub stages: &'a [Stages],
    pub snapshot: Snapshot<'a>,
}
