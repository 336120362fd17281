//! Merges into main: one begins, hands out its job, and ends with what was built of it.
ghost use Rattle.std.specs.Prelude.{◌≡◌, ◌<◌, ℕ, Some, None, Err, IfOk, OnOk, OnErr, IsErrOf, length, slice_get};
ghost use Rattle.std.specs.Option.{option_map};
ghost use Rattle.ut_value.specs.declared.entry.Entry.TheVariants as entries;
ghost use Rattle.ut_value.specs.Spelling.{spelling};
ghost use Rattle.ut_plain.specs.declared.reply.Reply.TheVariants.{Merge};
ghost use Rattle.ut_plain.specs.declared.stage.PendingMerge.{PendingMerge};
ghost use Rattle.ut_plain.specs.declared.statement.Statement.TheVariants as statements;
ghost use Rattle.ut_names.specs.declared.bound.Task.TheVariants as tasks;
ghost use Rattle.ut_staged.specs.Staged.{Staged};
ghost use Rattle.ut_store.specs.declared.response.Response.TheVariants.{Append};
ghost use Rattle.ut_store.specs.Standing.{Stands};
ghost use Rattle.ut_store.specs.Answers.{Answers, Same};
ghost use Rattle.ut_store.specs.Executing.{ExecutesFor};
ghost use Rattle.ut_store.specs.Merging.{MayMerge, merge_begun};
ghost use Rattle.ut_store.specs.Jobs.{pending_job};
ghost use Rattle.ut_store.specs.Outcomes.{merging_outcome};

use crate::pending::Pending;
use crate::transactions::ENTRIES_LIMIT;
use crate::{Outcome, Store};
use std::alloc::{AllocError, Global};
use ut_frame::Frame;
use ut_merge::{Built, Job};
use ut_plain::{PendingMerge, Refusal, Why};
use ut_value::{Entry, MergeKind};

/// Why no merge began. `Busy` has the number of the merge that is pending.
#[derive(Clone, Copy, Debug, PartialEq, Eq)]
pub enum MergeStop {
    Busy(u32),
    Full,
    Memory,
}

impl Store {
    /// Begins a merge of the table at a place, and hands out its job. The log has to append the store's frame then.
    pub fn merge_begin(
        &mut self,
        alloc: Global,
        table: usize,
        kind: MergeKind,
    ) -> Result<Job, MergeStop>
        requires stands { Stands self.old }
        requires there { table < length self.old.rows.tables }
        ensures executes { ExecutesFor self.old (tasks.MergeBegin table kind) (merging_outcome result) self.new }
        // `Busy` just where one is pending, with its number.
        ensures busy { (n : ℕ) → result ≡ Err (MergeStop.Busy n) → option_map (λ (m : PendingMerge). m.number) self.old.counts.pending ≡ Some n }
        ensures idle { IfOk result (λ _. self.old.counts.pending ≡ None) }
        ensures full { IsErrOf result MergeStop.Full → self.old.counts.pending ≡ None }
    {
        if let Some(pending) = &self.counts.pending {
            return Err(MergeStop::Busy(pending.head().number));
        }
        if self.counts.entries >= ENTRIES_LIMIT || !self.rows.has_room_to_merge(table, kind) {
            return Err(MergeStop::Full);
        }
        match self.close_table(alloc, table, kind) {
            Ok(job) => Ok(job),
            Err(_) => Err(MergeStop::Memory),
        }
    }

    // Closes the second stage of the table at a place, and makes all that the merge's end needs of the store: all or nothing.
    fn close_table(
        &mut self,
        alloc: Global,
        place: usize,
        kind: MergeKind,
    ) -> Result<Job, AllocError>
        requires may { MayMerge self.old place kind }
        requires place { place < 65536 }
        requires entries { self.old.counts.entries < ENTRIES_LIMIT }
        requires merges { self.old.counts.merges < ENTRIES_LIMIT }
        ensures ok { OnOk result ((s : Staged) → slice_get self.old.rows.staged place ≡ Some s
            → self.new ≡ merge_begun self.old place kind s) }
        ensures job { IfOk result (λ job. pending_job self.new ≡ Some job) }
        ensures err { OnErr result (Same self.old self.new) }
    {
        let head = PendingMerge {
            number: self.counts.merges + 1,
            table: place as u16,
            kind,
        };
        let begun = begun_frame(alloc, head)?;
        let pending = Pending::new(alloc, head)?;
        let snapshots = self.sessions.snapshots(alloc)?;
        let job = self.rows.close(alloc, head, &snapshots)?;
        self.counts.pending = Some(pending);
        self.counts.merges += 1;
        self.counts.entries += 1;
        self.frame = begun;
        Ok(job)
    }

    /// The job of the pending merge once more, if one is pending.
    pub fn merge_again(&self, alloc: Global) -> Result<Option<Job>, AllocError>
        requires { Stands self.now }
        ensures { IfOk result (λ job. job ≡ pending_job self.now) }
    {
        match &self.counts.pending {
            None => Ok(None),
            Some(pending) => self
                .rows
                .job_again(alloc, usize::from(pending.head().table)),
        }
    }

    /// Ends the pending merge with what was built of its job, and tells its number. The log has to append the store's frame then.
    /// Takes no memory.
    pub fn merge_end(&mut self, built: Built) -> u32
        requires stands { Stands self.old }
        requires built { pending_job self.old ≡ Some built }
        ensures answers { (session : ℕ) → session < 17 → Answers self.old session statements.MergeEnd (Append (Merge result)) self.new }
        ensures number { option_map (λ (m : PendingMerge). m.number) self.old.counts.pending ≡ Some result }
    {
        let pending = self.counts.pending.take().unwrap();
        let head = pending.head();
        self.rows.switch(usize::from(head.table), built);
        self.counts.entries += 1;
        self.frame = pending.into_frame();
        head.number
    }

    /// How many merges were begun.
    pub fn merges(&self) -> u32
        ensures { result ≡ self.now.counts.merges }
    {
        self.counts.merges
    }

    /// The merge that was begun and has not ended.
    pub fn pending(&self) -> Option<PendingMerge>
        ensures { result ≡ self.now.counts.pending }
    {
        match &self.counts.pending {
            Some(pending) => Some(pending.head()),
            None => None,
        }
    }
}

/// The outcome of the begin of a merge.
pub(crate) fn merging(answer: Result<Job, MergeStop>) -> Outcome
    ensures { result ≡ merging_outcome answer }
{
    match answer {
        Ok(job) => Outcome::Merging(job),
        Err(MergeStop::Busy(number)) => Outcome::Refused(Refusal::State(Why::Busy(number))),
        Err(MergeStop::Full) => Outcome::Refused(Refusal::Full),
        Err(MergeStop::Memory) => Outcome::Refused(Refusal::Memory),
    }
}

// The frame of a merge that begins.
fn begun_frame(alloc: Global, head: PendingMerge) -> Result<Frame, AllocError>
    ensures { IfOk result (λ frame. frame.payload ≡ spelling (entries.Begun head.number head.table head.kind)) }
{
    Frame::of(
        alloc,
        &Entry::Begun {
            n: head.number,
            table: head.table,
            kind: head.kind,
        },
    )
}
