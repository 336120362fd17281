//! The book of a crowd: what was asked and answered, in order.
use ut_plain::{Reply, Statement};
use ut_value::Seq;

/// What was asked in a turn: a line, or a statement of the store itself.
#[derive(Drop)]
pub enum Asked {
    Line(Seq<u8>),
    Store(Statement),
}

/// One turn.
#[derive(Drop)]
pub struct Turn {
    /// Who asked: 1 to 16 a session, 0 the store itself, and nobody where a line's session can't be read.
    pub session: Option<u8>,
    pub asked: Asked,
    pub reply: Reply,
    /// How many entries the journal has behind the turn, or before it where the disk failed.
    pub journal: u32,
    /// The disk's moment behind the turn.
    pub moment: u64,
}

/// The last savepoint of a run that began: how many entries the journal had then, and how many pages it has. Before the first of them
/// the entries are those at the opening, and there are no pages.
#[derive(Clone, Copy, Debug, PartialEq, Eq)]
pub struct Begun {
    pub entries: u32,
    pub pages: u32,
}
