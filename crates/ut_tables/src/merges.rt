//! Merges into main: the table at a place closes its second stage, hands out the job, and takes what was built of it.
ghost use Rattle.std.specs.Prelude.{◌≡◌, ◌<◌, Some, IfOk, OnOk, OnErr, length};
ghost use Rattle.ut_plain.specs.Merges.{has_part_room};
ghost use Rattle.ut_tables.specs.Changed.{Changed};
ghost use Rattle.ut_tables.specs.Merging.{MayMerge, Switched, closed_now, has_room_to_merge, job_at};
ghost use Rattle.ut_tables.specs.Rows.{AtPlace};

use crate::Rows;
use std::alloc::{AllocError, Global};
use ut_merge::{Built, Job};
use ut_plain::PendingMerge;
use ut_value::{MergeKind, PARTS_LIMIT, ROWS_LIMIT};

/// So many rows of main and of the second stage are too many for a merge.
const PLACES_LIMIT: u64 = ROWS_LIMIT as u64;

impl Rows {
    /// Whether the table at a place and its main have room for a merge.
    pub fn has_room_to_merge(&self, place: usize, kind: MergeKind) -> bool
        requires { place < length self.now.rows.staged }
        ensures { AtPlace self.now.rows place (λ s. result ≡ has_room_to_merge s kind) }
    {
        let table = &self.stages[place];
        table.places() < PLACES_LIMIT && has_part_room(kind, table.part_count())
    }

    /// Closes the second stage of the table that a merge names. What one of these snapshots sees is kept. The job has all
    /// that the merge freezes: all or nothing.
    pub fn close(
        &mut self,
        alloc: Global,
        head: PendingMerge,
        snapshots: &[u32],
    ) -> Result<Job, AllocError>
        requires { MayMerge self.old.rows snapshots.now head.table head.kind }
        ensures ok { OnOk result (Changed self.old.rows head.table (closed_now self.old.rows snapshots.now head) self.new.rows) }
        ensures job { IfOk result (λ job. job_at self.new.rows head.table ≡ Some job) }
        ensures err { OnErr result (self.new.rows ≡ self.old.rows) }
    {
        let table = &mut self.stages[usize::from(head.table)];
        let keep = table.keep(alloc, head.kind, &self.fates, snapshots)?;
        table.close_l2(alloc, head, keep)
    }

    /// The job of the pending merge of the table at a place, if one is pending there.
    pub fn job_again(&self, alloc: Global, place: usize) -> Result<Option<Job>, AllocError>
        requires { place < length self.now.rows.staged }
        ensures { IfOk result (λ job. job ≡ job_at self.now.rows place) }
    {
        self.stages[place].job_again(alloc)
    }

    /// Ends the pending merge of the table at a place by what was built of its job. Takes no memory.
    pub fn switch(&mut self, place: usize, built: Built)
        requires { job_at self.old.rows place ≡ Some built }
        ensures { Switched self.old.rows place built.head.kind self.new.rows }
    {
        self.stages[place].switch(built);
    }
}

// Whether main has room for the part that a merge of a kind makes, where it has so many.
fn has_part_room(kind: MergeKind, parts: u8) -> bool
    ensures { result ≡ has_part_room kind parts }
{
    match kind {
        MergeKind::Extend => parts < PARTS_LIMIT,
        _ => true,
    }
}
