//! A row of a file.
use crate::tries::{Patch, Try};

/// The most ids that a store has.
pub const MOST_IDS: u32 = 2147483648;

/// So many ids has the store of a row, as a word and as a number.
#[derive(Clone, Copy)]
pub struct Ids<'a> {
    pub word: &'a str,
    pub number: u32,
}

/// What the store of a row answers to its question that has so many entries of its journal, read from the log alone or from the image
/// of a savepoint.
#[derive(Drop)]
pub struct State {
    pub entries: u64,
    pub is_saved: bool,
    pub answer: Vec<u8>,
}

/// What is tried, and in which line of the file it stands.
#[derive(Clone, Copy)]
pub struct Numbered<'a> {
    pub line: usize,
    pub one: Try<'a>,
}

/// A script, what it has to be answered, and what is tried with it.
#[derive(Drop)]
pub struct Row<'a> {
    pub name: &'a str,
    /// The place of the row whose store it opens again. Without one it has a new store.
    pub behind: Option<usize>,
    /// Without a number there are enough.
    pub ids: Option<Ids<'a>>,
    /// Whether neither it nor the row behind which it stands has words or changed files of its own.
    pub is_plain: bool,
    /// The words of the calls that are to be answered so. Without any they are the usual ones.
    pub calls: Vec<&'a str>,
    /// How the files are changed before it.
    pub patches: Vec<Patch<'a>>,
    /// The call of the source that fails.
    pub source: Option<u64>,
    pub asked: Vec<&'a str>,
    /// Where the answer of each line begins.
    pub starts: Vec<usize>,
    pub answers: Vec<u8>,
    /// The place of the line that selects a savepoint.
    pub flip: Option<usize>,
    /// What its store is asked that is opened again.
    pub question: Vec<&'a str>,
    pub states: Vec<State>,
    pub tries: Vec<Numbered<'a>>,
}
