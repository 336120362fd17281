//! A merge that was begun and has not ended.
ghost use Rattle.std.specs.Prelude.{◌≡◌, IfOk};
ghost use Rattle.std.specs.Arc.{arc_value};
ghost use Rattle.ut_merge.specs.Jobs.{job_value, IsJob};

use std::alloc::{AllocError, Global};
use std::marker::Model;
use std::sync::Arc;
use ut_l2::L2;
use ut_main::Main;
use ut_merge::{Job, Keep};
use ut_plain::PendingMerge;

/// The stage that a merge closed, and the places that it keeps, shared with its job.
#[derive(Drop)]
pub(crate) struct Pending {
    head: PendingMerge,
    closed: Arc<L2>,
    keep: Arc<Keep>,
}

impl Model for Pending {
    ghost use Rattle.std.specs.Arc.{arc_value};
    ghost use Rattle.ut_table.specs.Contents.{PendingValue};

    ghost Value = { PendingValue };

    ghost view = { λ p. record { head = p.head; closed = arc_value p.closed; keep = arc_value p.keep } };
}

impl Pending {
    pub fn of(head: PendingMerge, closed: Arc<L2>, keep: Arc<Keep>) -> Self
        ensures { result ≡ record { head = head; closed = arc_value closed; keep = arc_value keep } }
    {
        Pending { head, closed, keep }
    }

    pub fn closed(&self) -> &L2
        ensures { result.now ≡ self.now.closed }
    {
        &self.closed
    }

    /// The merge's job over main. Its data are shared, not copied.
    pub fn job(&self, alloc: Global, main: &Main) -> Result<Job, AllocError>
        requires width { self.now.closed.width ≡ main.now.width }
        requires job { IsJob (job_value self.now.head main.now self.now.closed.rows self.now.keep) }
        ensures { IfOk result (λ job. job ≡ job_value self.now.head main.now self.now.closed.rows self.now.keep) }
    {
        let closed = Arc::try_clone(&self.closed)?;
        let main = main.first(alloc, main.parts())?;
        let keep = Arc::try_clone(&self.keep)?;
        Ok(Job::new(self.head, closed, main, keep))
    }
}
