//! Statements with their names bound.

use crate::{Question, Selection, Target};
use ut_plain::Table;
use ut_value::{MergeKind, Seq, Value};

/// A statement whose names are bound: tables and columns by their places, comparisons by keys, with the values that it brings.
#[derive(Drop)]
pub enum Bound {
    /// What the store in memory executes.
    Task(Task),
    /// The end of the pending merge, which wants what was built of its job.
    MergeEnd,
    /// A piece of a savepoint.
    Save(Piece),
}

/// What the store in memory executes. `table` is a table's place in order of creation.
#[derive(Drop)]
pub enum Task {
    /// A table to be made.
    Create(Table),
    Insert {
        table: usize,
        values: Seq<Value>,
    },
    /// Rows of `width` values each, one row's behind the other's.
    Load {
        table: usize,
        width: usize,
        values: Seq<Value>,
    },
    Update {
        target: Target,
        value: Value,
    },
    Delete(Selection),
    Ask(Question),
    Begin,
    Commit,
    Abort,
    MergeL1 {
        table: usize,
        n: u32,
    },
    MergeBegin {
        table: usize,
        kind: MergeKind,
    },
    Shape {
        table: usize,
    },
}

/// A piece of a savepoint.
#[derive(Clone, Copy, Debug, PartialEq, Eq)]
pub enum Piece {
    Begin,
    /// So many pages are written, or those that are left.
    Step { n: u32 },
    Seal,
    Flip,
    GiveUp,
}
