//! Statements bound to what they name, once: tables and columns by their places, comparisons by these and by keys.
#![tactic(auto)]

mod asking;
mod binding;
mod bound;
mod comparing;
mod copying;
mod places;
mod refusing;
mod resolved;
mod selecting;

pub use asking::question;
pub use binding::{bind, table_place};
pub use bound::{Bound, Piece, Task};
pub use copying::statement_copy;
pub use resolved::{Columns, End, Question, Selection, Target};
pub use selecting::{selection, target};
