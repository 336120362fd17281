//! What the words may ask for, and why there is nothing that they ask for.
ghost use Rattle.std.specs.Prelude.{◌≡◌};
ghost use Rattle.clap.specs.Words.{kind_of};
ghost use Rattle.ut_words.specs.Reading.{cause_of};
ghost use Rattle.ut_words.specs.declared.plan.WordsError.TheVariants.{Memory};

use clap::error::ErrorKind;
use std::alloc::AllocError;
use thiserror::Error;

/// What the program does with the store.
#[derive(Clone, Copy, Debug, PartialEq, Eq)]
pub enum Mode {
    /// Answers the lines of the input, one after the other.
    Run,
    /// Reads all lines first, and answers them in sessions side by side.
    Crowd,
    /// Runs the script of the benchmark.
    Bench,
}

/// What the words ask for.
#[derive(Clone, Copy, Debug, PartialEq, Eq)]
pub struct Plan {
    pub mode: Mode,
    /// Whether the store is to be made.
    pub fresh: bool,
    /// The greatest row id.
    pub rows: u32,
    /// The most lines of the input.
    pub lines: u32,
    /// How many rows of a first delta call for a move.
    pub l1: u32,
    /// In how many pieces a merge is done.
    pub pieces: u32,
    pub seed: u32,
    /// The size of the benchmark's script.
    pub size: u32,
}

/// Why there is no plan.
#[derive(Clone, Copy, Debug, PartialEq, Eq, Error)]
pub enum WordsError {
    /// The words aren't taken.
    #[error("the words aren't taken")]
    Usage,
    #[error("out of memory")]
    Memory,
}

impl From<AllocError> for WordsError {
    ghost from_gives = { λ _ e. e ≡ Memory };

    fn from(_: AllocError) -> Self {
        WordsError::Memory
    }
}

impl From<clap::Error> for WordsError {
    ghost from_gives = { λ error e. e ≡ cause_of (kind_of error) };

    fn from(error: clap::Error) -> Self {
        match error.kind() {
            ErrorKind::OutOfMemory => WordsError::Memory,
            _ => WordsError::Usage,
        }
    }
}
