//! A merge that was begun.
ghost use Rattle.std.specs.Prelude.{◌≡◌, ◌≤◌, length, IfOk};
ghost use Rattle.std.specs.Arc.{arc_value};
ghost use Rattle.ut_plain.specs.Merges.{staying};
ghost use Rattle.ut_merge.specs.Columns.{main_before};
ghost use Rattle.ut_merge.specs.Jobs.{job_value, stay_of, IsJob};

use crate::keep::Keep;
use std::alloc::{AllocError, Global};
use std::marker::Model;
use std::sync::Arc;
use ut_l2::L2;
use ut_main::Main;
use ut_plain::PendingMerge;
use ut_value::MergeKind;

/// A merge that was begun, with the data that it freezes, which it shares.
#[derive(Drop)]
pub struct Job {
    head: PendingMerge,
    closed: Arc<L2>,
    main: Main,
    keep: Arc<Keep>,
}

impl Model for Job {
    ghost use Rattle.std.specs.Prelude.{◌≡◌};
    ghost use Rattle.std.specs.Arc.{arc_value};
    ghost use Rattle.ut_merge.specs.Jobs.{JobValue, job_value, IsJob};

    ghost Value = { JobValue };

    ghost view = { λ j. job_value j.head j.main (arc_value j.closed).rows (arc_value j.keep) };

    ghost invariant = { λ j. ((arc_value j.closed).width ≡ j.main.width)
        × IsJob (job_value j.head j.main (arc_value j.closed).rows (arc_value j.keep)) };
}

impl Job {
    /// The job of a merge, of shares that were made before.
    pub fn new(head: PendingMerge, closed: Arc<L2>, main: Main, keep: Arc<Keep>) -> Self
        requires width { (arc_value closed).width ≡ main.width }
        requires job { IsJob (job_value head main (arc_value closed).rows (arc_value keep)) }
        ensures { result ≡ job_value head main (arc_value closed).rows (arc_value keep) }
    {
        Job {
            head,
            closed,
            main,
            keep,
        }
    }

    /// The same job once more. Its data are shared, not copied.
    pub fn again(&self, alloc: Global) -> Result<Job, AllocError>
        ensures { IfOk result (λ job. job ≡ self.now) }
    {
        let closed = Arc::try_clone(&self.closed)?;
        let main = self.main.first(alloc, self.main.parts())?;
        let keep = Arc::try_clone(&self.keep)?;
        Ok(Job {
            head: self.head,
            closed,
            main,
            keep,
        })
    }

    pub fn number(&self) -> u32
        ensures { result ≡ self.now.head.number }
    {
        self.head.number
    }

    pub fn table(&self) -> u16
        ensures { result ≡ self.now.head.table }
    {
        self.head.table
    }

    pub fn kind(&self) -> MergeKind
        ensures { result ≡ self.now.head.kind }
    {
        self.head.kind
    }

    /// Main before the merge.
    pub(crate) fn main(&self) -> &Main
        ensures { result.now ≡ main_before self.now }
    {
        &self.main
    }

    /// The closed stage.
    pub(crate) fn closed(&self) -> &L2
        ensures { result.now ≡ record { width = self.now.width; rows = self.now.closed } }
    {
        &self.closed
    }

    pub(crate) fn keep(&self) -> &Keep
        ensures { result.now ≡ self.now.keep }
    {
        &self.keep
    }

    /// How many parts stay as they are.
    pub(crate) fn stay(&self) -> u8
        ensures stay { result ≡ stay_of self.now }
        ensures few { length self.now.parts ≤ 8 }
        ensures job { IsJob self.now }
    {
        staying(self.head.kind, self.main.parts())
    }
}

/// How many of so many parts a merge leaves as they are.
fn staying(kind: MergeKind, parts: u8) -> u8
    ensures { result ≡ staying kind parts }
{
    match kind {
        MergeKind::Classic => 0,
        MergeKind::Resort => 0,
        MergeKind::Partial => { if parts < 2 { parts } else { parts - 1 } }
        MergeKind::Extend => parts,
    }
}
