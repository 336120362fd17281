//! Main: up to eight parts in columns, each coded through the dictionaries of the parts before it
//! and its own.
#![tactic(auto)]

mod bytes;
mod column;
mod ids;
mod laws;
mod own;
mod part;
mod parts;
mod used;

pub use bytes::{part_bytes, part_from};
pub use column::CodedColumn;
pub use laws::part_laws;
pub use part::Part;
pub use parts::Main;
