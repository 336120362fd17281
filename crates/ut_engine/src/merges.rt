//! Merges into main: one begins, hands out its job, and ends with what was built of it.
ghost use Rattle.std.specs.Prelude.{◌≡◌, ◌<◌, ℕ, false, Some, IfOk, IsErr, IsErrOf, is_err};
ghost use Rattle.std.specs.Option.{option_map};
ghost use Rattle.ut_plain.specs.declared.stage.PendingMerge.{PendingMerge};
ghost use Rattle.ut_plain.specs.declared.statement.Statement.TheVariants as statements;
ghost use Rattle.ut_plain.specs.Names.{has_table};
ghost use Rattle.ut_outside.specs.Faults.{Rose};
ghost use Rattle.ut_store.specs.Jobs.{pending_job};
ghost use Rattle.ut_engine.specs.Merging.{begin_reply, end_reply, is_fault, HasReason};
ghost use Rattle.ut_engine.specs.Serves.{Serves};

use crate::engine::Engine;
use crate::error::BeginError;
use crate::replies::end_reply;
use std::alloc::{AllocError, Global};
use ut_merge::{Build, Built, Job};
use ut_outside::{Disk, Failed};
use ut_plain::{PendingMerge, Refusal, Reply, Why};
use ut_store::MergeStop;
use ut_value::{MergeKind, Name};

impl<'d, D: Disk> Engine<'d, D> {
    /// Begins a merge of a table into main, as `merge begin` of the operator does, and hands out its job.
    pub fn merge_begin(
        &mut self,
        alloc: Global,
        table: &Name,
        kind: MergeKind,
    ) -> Result<Job, BeginError>
        requires up { self.old.store.down ≡ false }
        ensures serves { Serves self.old.store (D.view self.old.disk) 0 (statements.MergeBegin table.now kind) (begin_reply result) self.new.store (D.view self.new.disk) }
        ensures job { IfOk result (λ job. pending_job self.new.store.store ≡ Some job) }
        // `Name` exactly where there is no such table, `Busy` exactly where there is and a merge is pending.
        ensures reason { HasReason result (has_table self.old.store.store.rows.tables table.now) self.old.store.store.counts.pending }
        ensures cause { IsErrOf result BeginError.Disk → Rose (D.view self.old.disk).faults (D.view self.new.disk).faults }
        // It is down exactly where the disk failed.
        ensures down { self.new.store.down ≡ is_fault result }
        ensures loan { self.new.loan ≡ self.old.loan }
    {
        let Some(table) = self.store.store.place_of(table) else {
            return Err(BeginError::Name);
        };
        match self.store.store.merge_begin(alloc, table, kind) {
            Ok(job) => match self.store.append(self.disk) {
                Ok(()) => Ok(job),
                Err(_) => Err(BeginError::Disk),
            },
            Err(MergeStop::Busy(number)) => Err(BeginError::Busy(number)),
            Err(MergeStop::Full) => Err(BeginError::Full),
            Err(MergeStop::Memory) => Err(BeginError::Memory),
        }
    }

    /// The job of the pending merge once more, its data shared. There is none exactly where no merge is pending.
    pub fn merge_again(&self, alloc: Global) -> Result<Option<Job>, AllocError>
        requires up { self.now.store.down ≡ false }
        ensures { IfOk result (λ job. job ≡ pending_job self.now.store.store) }
    {
        self.store.store.merge_again(alloc)
    }

    /// Ends the pending merge with what was built of its job, as `merge end` does, and tells its number. Takes no memory.
    pub fn merge_end(&mut self, built: Built) -> Result<u32, Failed>
        requires up { self.old.store.down ≡ false }
        requires built { pending_job self.old.store.store ≡ Some built }
        ensures serves { (session : ℕ) → session < 17 → Serves self.old.store (D.view self.old.disk) session statements.MergeEnd (end_reply result) self.new.store (D.view self.new.disk) }
        ensures number { IfOk result (λ n. option_map (λ (m : PendingMerge). m.number) self.old.store.store.counts.pending ≡ Some n) }
        ensures cause { IsErr result → Rose (D.view self.old.disk).faults (D.view self.new.disk).faults }
        // It is down exactly where the disk failed.
        ensures down { self.new.store.down ≡ is_err result }
        ensures loan { self.new.loan ≡ self.old.loan }
    {
        let number = self.store.store.merge_end(built);
        match self.store.append(self.disk) {
            Ok(()) => Ok(number),
            Err(error) => Err(error),
        }
    }

    /// Answers the end of the pending merge, whose new part the builder builds first. Where there is no memory for that, it stays
    /// pending.
    pub(crate) fn build_and_end<B: Build>(&mut self, alloc: Global, builder: &B) -> Reply
        requires ready { B.ready builder.now }
        requires up { self.old.store.down ≡ false }
        ensures serves { (session : ℕ) → session < 17 → Serves self.old.store (D.view self.old.disk) session statements.MergeEnd result self.new.store (D.view self.new.disk) }
        ensures loan { self.new.loan ≡ self.old.loan }
    {
        match self.merge_again(alloc) {
            Ok(None) => Reply::Refused(Refusal::State(Why::Nothing)),
            Ok(Some(job)) => match builder.build(alloc, &job) {
                Ok(built) => end_reply(self.merge_end(built)),
                Err(_) => Reply::Refused(Refusal::Memory),
            },
            Err(_) => Reply::Refused(Refusal::Memory),
        }
    }

    /// The merge that was begun and has not ended.
    pub fn pending(&self) -> Option<PendingMerge>
        ensures { result ≡ self.now.store.store.counts.pending }
    {
        self.store.store.pending()
    }

    /// How many merges were begun.
    pub fn merges(&self) -> u32
        ensures { result ≡ self.now.store.store.counts.merges }
    {
        self.store.store.merges()
    }
}
