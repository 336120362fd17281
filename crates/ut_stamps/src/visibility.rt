//! Which rows a snapshot sees, and which of them another transaction has taken.
ghost use Rattle.std.specs.Prelude.{◌≡◌};
ghost use Rattle.ut_stamps.specs.Stamps.{sees, is_taken, is_committed_by, is_own, counts, takes};

use crate::fates::{Fate, Fates};

/// The transaction that inserted a row, and the one that ended it.
#[derive(Clone, Copy, Debug, PartialEq, Eq)]
pub struct Stamp {
    pub begin: u64,
    pub end: Option<u64>,
}

/// What one who looks sees by.
#[derive(Clone, Copy)]
pub struct Snapshot<'a> {
    /// What became of each transaction.
    pub fates: &'a Fates,
    /// How many entries of the journal count.
    pub at: u32,
    /// The transaction whose own changes are seen too.
    pub own: Option<u64>,
}

impl Snapshot<'_> {
    /// Whether a row is seen.
    pub fn sees(&self, stamp: &Stamp) -> bool
        ensures { result ≡ sees self.now.fates.now self.now.at self.now.own stamp.now }
    {
        sees(self.fates, stamp, self.at, self.own)
    }

    /// Whether a row's end was committed behind the snapshot, or runs for another transaction.
    pub fn takes(&self, stamp: &Stamp) -> bool
        ensures { result ≡ is_taken self.now.fates.now self.now.at self.now.own stamp.now }
    {
        is_taken(self.fates, stamp, self.at, self.own)
    }
}

fn is_committed_by(fate: Fate, length: u32) -> bool
    ensures { result ≡ is_committed_by fate length }
{
    match fate {
        Fate::Committed(at) => at <= length,
        Fate::Running => false,
        Fate::Aborted => false,
    }
}

fn is_own(own: Option<u64>, t: u64) -> bool
    ensures { result ≡ is_own own t }
{
    match own {
        Some(number) => number == t,
        None => false,
    }
}

fn counts(fates: &Fates, t: u64, snapshot: u32, own: Option<u64>) -> bool
    ensures { result ≡ counts fates.now snapshot own t }
{
    is_own(own, t) || is_committed_by(fates.fate(t), snapshot)
}

/// Whether a row is seen at a snapshot, by the transaction `own` if there is one.
pub fn sees(fates: &Fates, stamp: &Stamp, snapshot: u32, own: Option<u64>) -> bool
    ensures { result ≡ sees fates.now snapshot own stamp.now }
{
    if !counts(fates, stamp.begin, snapshot, own) {
        return false;
    }
    match stamp.end {
        Some(t) => !counts(fates, t, snapshot, own),
        None => true,
    }
}

/// Whether the row's end was committed behind the snapshot, or runs for another transaction.
pub fn is_taken(fates: &Fates, stamp: &Stamp, snapshot: u32, own: Option<u64>) -> bool
    ensures { result ≡ is_taken fates.now snapshot own stamp.now }
{
    match stamp.end {
        Some(t) => !is_own(own, t) && takes(fates.fate(t), snapshot),
        None => false,
    }
}

fn takes(fate: Fate, snapshot: u32) -> bool
    ensures { result ≡ takes fate snapshot }
{
    match fate {
        Fate::Running => true,
        Fate::Committed(at) => snapshot < at,
        Fate::Aborted => false,
    }
}
