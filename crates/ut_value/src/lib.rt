//! The values, rows and journal entries of the store. A contract sees each of them as plain data:
//! lists of bytes, lists of values, and enums and structs of these.
#![tactic(auto)]

mod duplicate;
mod entry;
mod key;
mod limits;
mod rules;
mod seq;
mod text;
mod value;

pub use duplicate::Duplicate;
pub use entry::{Entry, MergeKind, Op, spelling_lengths};
pub use key::{int_key, int_of, key_bytes, key_laws, key_of, value_of};
pub use limits::{
    COLUMNS_LIMIT, COUNT_LIMIT, ENTRIES_LIMIT, ENTRY_LIMIT, JOURNAL_LIMIT, LAST_SESSION, OPERATOR,
    PARTS_LIMIT, ROWS_LIMIT, SEATS, TABLES_LIMIT,
};
pub use rules::{columns_keep_rules, op_keeps_rules, value_keeps_rule, values_keep_rules};
pub use seq::Seq;
pub use text::{Name, Text, is_digit, is_name, is_text, same_bytes};
pub use value::{Column, Kind, Row, Value};

/// The values of a row.
pub type Values = Seq<Value>;

/// A list of names.
pub type Names = Seq<Name>;

/// The columns of a table.
pub type Columns = Seq<Column>;

/// The operations of a transaction.
pub type OpList = Seq<Op>;
