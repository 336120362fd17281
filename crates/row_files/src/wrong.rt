//! What may be wrong with a file of rows.
use std::alloc::AllocError;
use std::fmt;

/// What may be wrong with a line, or with a whole file.
#[derive(Clone, Copy)]
pub enum Wrong {
    NoRow,
    NoHead,
    Head,
    Twice,
    Behind,
    Ids,
    Setup,
    State,
    Try,
    Order,
    NoScript,
    NoMemory,
}

impl fmt::Display for Wrong {
    fn fmt<W: fmt::Write>(&self, f: &mut fmt::Formatter<W>) -> fmt::Result {
        f.write_str(match self {
            Wrong::NoRow => "the file ends without a row",
            Wrong::NoHead => "it stands before the first row",
            Wrong::Head => "this is no head of a row",
            Wrong::Twice => "a row above has this name",
            Wrong::Behind => "no row above has the name behind which it stands",
            Wrong::Ids => "its number of ids is none",
            Wrong::Setup => "it stands before a script, and is nothing that is known there",
            Wrong::State => "a state is a number of entries, and is saved or isn't",
            Wrong::Try => "nothing that is known is tried so",
            Wrong::Order => "it stands where no such line may stand",
            Wrong::NoScript => "the row that ends here has no script",
            Wrong::NoMemory => "there is no memory for it",
        })
    }
}

impl From<AllocError> for Wrong {
    fn from(_: AllocError) -> Wrong {
        Wrong::NoMemory
    }
}

/// What is wrong with a file, and in which line.
#[derive(Clone, Copy)]
pub struct Damage {
    pub line: usize,
    pub wrong: Wrong,
}

impl fmt::Display for Damage {
    fn fmt<W: fmt::Write>(&self, f: &mut fmt::Formatter<W>) -> fmt::Result {
        let Damage { line, wrong } = *self;
        write!(f, "line {line}: {wrong}")
    }
}
