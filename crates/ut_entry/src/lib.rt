//! Journal entries as bytes, both ways.
#![tactic(auto)]

mod entry;
mod laws;
mod length;
mod parts;
mod read;
mod txn;
mod write;

pub use entry::entry_from;
pub use laws::spelling_laws;
pub use length::{entry_len, insert_len, op_len};
pub use parts::{read_columns, read_name, read_text};
pub use read::{Spelled, counted, first_byte, read_int, read_list, read_u32};
pub use txn::{add_op, begin_txn};
pub use write::{entry_bytes, put, put_columns, put_entry, put_insert, put_op, put_text};
