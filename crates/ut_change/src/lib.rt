//! The operations of a statement that changes rows: made of what was found, looked over for conflicts, spelled and written.
#![tactic(auto)]

mod bulk;
mod conflict;
mod entering;
mod loads;
mod made;
mod write;

pub use bulk::Bulk;
pub use conflict::first_taken_in;
pub use entering::Entering;
pub use loads::rows_in;
pub use made::{Change, delete_ops, update_ops};
pub use write::{inserts_of, note_all, ops_len, spell_all, write_all};
