//! Questions and selections by the places of what they name.

use ut_key::ColumnPred;

/// The rows of a table that meet comparisons.
#[derive(Drop)]
pub struct Selection {
    /// The table's place in order of creation.
    pub table: usize,
    pub preds: Vec<ColumnPred>,
}

/// The rows that an update changes, and the column that gets its value.
#[derive(Drop)]
pub struct Target {
    pub rows: Selection,
    /// The column's place in its table.
    pub column: usize,
}

/// Which columns of a table.
#[derive(Drop)]
pub enum Columns {
    All,
    /// Those at these places.
    Named(Vec<usize>),
}

/// An end of the order of values.
#[derive(Clone, Copy)]
pub enum End {
    Least,
    Greatest,
}

/// A question, with the places of its tables and of its columns.
#[derive(Drop)]
pub enum Question {
    Select {
        rows: Selection,
        columns: Columns,
    },
    Count {
        rows: Selection,
    },
    Sum {
        rows: Selection,
        column: usize,
    },
    /// The value at an end of their order.
    Extreme {
        rows: Selection,
        column: usize,
        end: End,
    },
    Group {
        rows: Selection,
        key: usize,
        sum: usize,
    },
    Join {
        left: usize,
        left_column: usize,
        right: usize,
        right_column: usize,
    },
}
