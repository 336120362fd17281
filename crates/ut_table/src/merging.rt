//! The calls of a merge: which places it keeps, its begin, its job and its end.
ghost use Rattle.std.specs.Prelude.{◌≡◌, ◌+◌, ◌≤◌, ◌++◌, length, map, vec_len, vec_capacity, All, List, IfOk, OnOk, OnErr, Some, None};
ghost use Rattle.ut_plain.specs.Merges.{staying};
ghost use Rattle.ut_stamps.specs.StampLists.{stamp_at, IsPlace};
ghost use Rattle.ut_stamps.specs.declared.place.Place.{Place};
ghost use Rattle.ut_merge.specs.Jobs.{IsJob};
ghost use Rattle.ut_staged.specs.Staged.{closed_l2, switched};
ghost use Rattle.ut_staged.specs.Keeping.{stamp_flags};
ghost use Rattle.ut_staged.specs.Tables.{IsArranged};
ghost use Rattle.ut_table.specs.Pending.{job_of, pending_job};
ghost use Rattle.ut_table.specs.Places.{place_of_old};

use crate::flags::{flags_of, staying};
use crate::pending::Pending;
use crate::table::Table;
use std::alloc::{AllocError, Global};
use std::sync::Arc;
use ut_l2::L2;
use ut_merge::{Built, Job, Keep, Old, Parts};
use ut_plain::PendingMerge;
use ut_scan::Place;
use ut_stamps::{Fates, Stamp, StampTable};
use ut_value::MergeKind;

fn place_of(old: Old) -> Place
    ensures { result ≡ place_of_old old }
{
    match old {
        Old::Part(p, i) => Place::Main(p, i),
        Old::Closed(i) => Place::Closed(i),
    }
}

/// The stamps that rows have now at their old places. Takes no memory.
fn append_stamps(stamps: &StampTable, olds: &[Old], out: &mut Vec<Stamp>)
    requires there { All (λ o. IsPlace stamps.now (place_of_old o)) olds.now }
    requires room { vec_len out.old + length olds.now ≤ vec_capacity out.old }
    ensures { out.new.items ≡ out.old.items ++ map (λ o. stamp_at stamps.now (place_of_old o)) olds.now }
{
    for old in olds {
        out.push_reserved(stamps.stamp(place_of(*old)));
    }
}

impl Table {
    /// The places of main and of the second stage that a merge which begins now keeps: a part that
    /// stays keeps all, elsewhere a row is kept that somebody sees, or has as its own.
    pub fn keep(
        &self,
        alloc: Global,
        kind: MergeKind,
        fates: &Fates,
        snapshots: &[u32],
    ) -> Result<Keep, AllocError>
        ensures { IfOk result (λ keep. keep ≡ stamp_flags fates.now snapshots.now kind self.now.stages) }
    {
        let stay = staying(kind, self.main.parts());
        let lists = flags_of(alloc, fates, snapshots, stay, &self.stamps)?;
        Ok(Keep::of(lists))
    }

    /// Begins a merge: the second stage is closed, and an empty one takes its place. The job has
    /// all that is frozen.
    pub fn close_l2(
        &mut self,
        alloc: Global,
        head: PendingMerge,
        keep: Keep,
    ) -> Result<Job, AllocError>
        requires idle { self.old.stages.merge ≡ None }
        requires job { IsJob (job_of (closed_l2 head keep self.old.stages) head) }
        ensures ok { OnOk result (self.new.stages ≡ closed_l2 head keep self.old.stages) }
        ensures job { IfOk result (λ job. pending_job self.new.stages ≡ Some job) }
        ensures err { OnErr result (self.new.stages ≡ self.old.stages) }
    {
        let empty = L2::new(alloc, self.main.width())?;
        let fresh = Arc::new(alloc, empty)?;
        let closed = Arc::try_clone(&self.l2)?;
        let keep = Arc::new(alloc, keep)?;
        let pending = Pending::of(head, closed, keep);
        let job = pending.job(alloc, &self.main)?;
        self.l2 = fresh;
        self.stamps.close_l2(alloc);
        self.pending = Some(pending);
        Ok(job)
    }

    /// The job of the pending merge, if one is pending.
    pub fn job_again(&self, alloc: Global) -> Result<Option<Job>, AllocError>
        ensures { IfOk result (λ job. job ≡ pending_job self.now.stages) }
    {
        match &self.pending {
            Some(pending) => Ok(Some(pending.job(alloc, &self.main)?)),
            None => Ok(None),
        }
    }

    /// Ends the pending merge by what was built of its job: the new part stands in place of those
    /// that it was built of and of the closed stage, and its rows have the stamps that they have
    /// now. Takes no memory.
    pub fn switch(&mut self, built: Built)
        requires { pending_job self.old.stages ≡ Some built }
        ensures { (olds : List Place) × IsArranged built.head.kind self.old.stages olds
            × (self.new.stages ≡ switched (staying built.head.kind (length self.old.stages.parts)) olds self.old.stages) }
    {
        let Parts {
            main,
            olds,
            mut stamps,
        } = built.take();
        append_stamps(&self.stamps, olds.as_slice(), &mut stamps);
        let stay = main.parts() - 1;
        self.stamps.switch(stay, stamps);
        self.main = main;
        self.pending = None;
    }
}
