//! What the store holds: the entries of its journal, the open transactions, a pending merge, a savepoint, and where rows stand.
ghost use Rattle.std.specs.Prelude.{◌≡◌, ◌<◌, length, slice_set, IfOk};
ghost use Rattle.ut_plain.specs.Journal.{journal_len};
ghost use Rattle.ut_plain.specs.Plain.{new_store, no_savepoint, no_sessions, open_at, with_entry, with_session};
ghost use Rattle.ut_plain.specs.Reached.{IsPlain};
ghost use Rattle.check_oracle.specs.Store.{plain_of};

use crate::image::Image;
use check_stages::stages_copied;
use std::alloc::{AllocError, Global};
use ut_plain::{OpenTransaction, PendingMerge, Progress, TableStages};
use ut_value::{Duplicate, Entry, SEATS};

/// The entries of the journal, the transaction of each session, the merge that is pending, the savepoint that is under way, and the
/// stages of each table.
pub struct Held {
    /// The entries that the journal's base holds, and those behind them.
    pub first: Vec<Entry>,
    pub entries: Vec<Entry>,
    pub opening: u32,
    pub sessions: Vec<Option<OpenTransaction>>,
    pub next_id: u32,
    pub rows_limit: u32,
    pub pending: Option<PendingMerge>,
    pub progress: Progress,
    /// What the savepoint that is under way has captured.
    pub captured: Image,
    pub root_pages: u32,
    /// So many pages an image is told to take.
    pub told: u32,
    pub stages: Vec<TableStages>,
}

// One step of a proof, wherever one is dropped.
impl Drop for Held {
    fn drop(self) {
        let Held {
            first: _,
            entries: _,
            opening: _,
            sessions: _,
            next_id: _,
            rows_limit: _,
            pending: _,
            progress: _,
            captured: _,
            root_pages: _,
            told: _,
            stages: _,
        } = self;
    }
}

impl Held {
    /// What a store that was just made holds.
    pub fn new(alloc: Global, rows_limit: u32) -> Result<Held, AllocError>
        ensures { IfOk result (λ held. plain_of held ≡ new_store no_savepoint rows_limit) }
    {
        let sessions = nobody(alloc)?;
        Ok(Held {
            first: Vec::new(alloc),
            entries: Vec::new(alloc),
            opening: 0,
            sessions,
            next_id: 1,
            rows_limit,
            pending: None,
            progress: Progress::Idle,
            captured: Image::new(alloc),
            root_pages: 0,
            told: 0,
            stages: Vec::new(alloc),
        })
    }

    /// A copy.
    pub fn copy(&self, alloc: Global) -> Result<Held, AllocError>
        ensures { IfOk result (λ copy. plain_of copy ≡ plain_of self.now) }
    {
        let first = entries_copied(alloc, self.first.as_slice())?;
        let entries = entries_copied(alloc, self.entries.as_slice())?;
        let sessions = sessions_copied(alloc, self.sessions.as_slice())?;
        let captured = self.captured.copy(alloc)?;
        let stages = stages_copied(alloc, self.stages.as_slice())?;
        Ok(Held {
            first,
            entries,
            opening: self.opening,
            sessions,
            next_id: self.next_id,
            rows_limit: self.rows_limit,
            pending: self.pending,
            progress: self.progress,
            captured,
            root_pages: self.root_pages,
            told: self.told,
            stages,
        })
    }

    /// How many entries there are.
    pub fn journal_len(&self) -> usize
        requires { IsPlain (plain_of self.now) }
        ensures { result ≡ journal_len (plain_of self.now).journal }
    {
        self.first.len() + self.entries.len()
    }

    /// The transaction of a session.
    pub fn own(&self, session: u8) -> &Option<OpenTransaction>
        requires { session < length self.now.sessions.items }
        ensures { result.now ≡ open_at self.now.sessions.items session }
    {
        &self.sessions[usize::from(session)]
    }

    /// The same with another transaction of a session, or none.
    pub fn with_session(
        &self,
        alloc: Global,
        session: u8,
        transaction: Option<OpenTransaction>,
    ) -> Result<Held, AllocError>
        requires { session < length self.now.sessions.items }
        ensures { IfOk result (λ next. plain_of next ≡ with_session (plain_of self.now) session transaction) }
    {
        let mut next = self.copy(alloc)?;
        set_session(&mut next.sessions, session, transaction);
        Ok(next)
    }

    /// The same with one more entry.
    pub fn with_entry(&self, alloc: Global, entry: Entry) -> Result<Held, AllocError>
        ensures { IfOk result (λ next. plain_of next ≡ with_entry (plain_of self.now) entry) }
    {
        let mut next = self.copy(alloc)?;
        next.entries.push(entry)?;
        Ok(next)
    }
}

/// No open transactions.
pub(crate) fn nobody(alloc: Global) -> Result<Vec<Option<OpenTransaction>>, AllocError>
    ensures { IfOk result (λ sessions. sessions.items ≡ no_sessions) }
{
    let mut sessions = Vec::new(alloc);
    for i in 0..SEATS {
        sessions.push(None)?;
    }
    Ok(sessions)
}

/// A copy of the entries.
pub(crate) fn entries_copied(alloc: Global, entries: &[Entry]) -> Result<Vec<Entry>, AllocError>
    ensures { IfOk result (λ copy. copy.items ≡ entries.now) }
{
    let mut copies = Vec::new(alloc);
    for entry in entries {
        let copy = entry.duplicate(alloc)?;
        copies.push(copy)?;
    }
    Ok(copies)
}

fn sessions_copied(
    alloc: Global,
    sessions: &[Option<OpenTransaction>],
) -> Result<Vec<Option<OpenTransaction>>, AllocError>
    ensures { IfOk result (λ copy. copy.items ≡ sessions.now) }
{
    let mut copies = Vec::new(alloc);
    for transaction in sessions {
        let copy = transaction_copied(alloc, transaction)?;
        copies.push(copy)?;
    }
    Ok(copies)
}

fn transaction_copied(
    alloc: Global,
    transaction: &Option<OpenTransaction>,
) -> Result<Option<OpenTransaction>, AllocError>
    ensures { IfOk result (λ copy. copy ≡ transaction.now) }
{
    match transaction {
        None => Ok(None),
        Some(open) => {
            let ops = open.ops.duplicate(alloc)?;
            Ok(Some(OpenTransaction {
                snapshot: open.snapshot,
                ops,
            }))
        }
    }
}

fn set_session(
    sessions: &mut Vec<Option<OpenTransaction>>,
    session: u8,
    transaction: Option<OpenTransaction>,
)
    requires { session < length sessions.old.items }
    ensures { sessions.new.items ≡ slice_set sessions.old.items session transaction }
{
    sessions[usize::from(session)] = transaction;
}
