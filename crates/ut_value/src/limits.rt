//! What a store holds at most, and its sessions. Each of these numbers stands here once: the crates that test one take it
//! from here. Contracts and definitions say it as a number.

/// The most bytes of an entry of the journal.
pub const ENTRY_LIMIT: u32 = 1 << 30;

/// The most entries of a journal.
pub const JOURNAL_LIMIT: u32 = 1 << 30;

/// A journal takes any entry while it has fewer: behind them one place is kept for the end of a merge.
pub const ENTRIES_LIMIT: u32 = JOURNAL_LIMIT - 1;

/// The most rows that are ever inserted, and so the greatest id of a row.
pub const ROWS_LIMIT: u32 = 1 << 31;

/// The most tables of a store.
pub const TABLES_LIMIT: u32 = 256;

/// The most columns of a table, and so the most values of a row.
pub const COLUMNS_LIMIT: u8 = 64;

/// The most parts of a table's main.
pub const PARTS_LIMIT: u8 = 8;

/// The greatest number of rows or pages that a statement says.
pub const COUNT_LIMIT: u32 = 1 << 20;

/// The operator's session, which merges and saves, and never has a transaction.
pub const OPERATOR: u8 = 0;

/// The last of the other sessions: they are 1 to this one.
pub const LAST_SESSION: u8 = 16;

/// A seat for each session, the operator's included.
pub const SEATS: usize = LAST_SESSION as usize + 1;
