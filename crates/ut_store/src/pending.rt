//! The merge that was begun and has not ended.
ghost use Rattle.std.specs.Prelude.{◌≡◌, IfOk};
ghost use Rattle.ut_value.specs.declared.entry.Entry.TheVariants as entries;
ghost use Rattle.ut_value.specs.Spelling.{spelling};

use std::alloc::{AllocError, Global};
use std::marker::Model;
use ut_frame::Frame;
use ut_plain::PendingMerge;
use ut_value::Entry;

/// Its number, table and kind, and the frame that its end will append.
#[derive(Drop)]
pub(crate) struct Pending {
    head: PendingMerge,
    ended: Frame,
}

impl Model for Pending {
    ghost use Rattle.std.specs.Prelude.{◌≡◌};
    ghost use Rattle.ut_value.specs.declared.entry.Entry.TheVariants as entries;
    ghost use Rattle.ut_value.specs.Spelling.{spelling};
    ghost use Rattle.ut_plain.specs.declared.stage.PendingMerge.{PendingMerge};

    ghost Value = { PendingMerge };

    ghost view = { λ p. p.head };

    ghost invariant = { λ p. p.ended.payload ≡ spelling (entries.Ended p.head.number) };
}

impl Pending {
    /// A merge that begins. The frame is made now, so that its end takes no memory.
    pub(crate) fn new(alloc: Global, head: PendingMerge) -> Result<Pending, AllocError>
        ensures { IfOk result (λ p. p ≡ head) }
    {
        let ended = Frame::of(alloc, &Entry::Ended { n: head.number })?;
        Ok(Pending { head, ended })
    }

    pub(crate) fn head(&self) -> PendingMerge
        ensures { result ≡ self.now }
    {
        self.head
    }

    pub(crate) fn into_frame(self) -> Frame
        ensures { result.payload ≡ spelling (entries.Ended self.number) }
    {
        self.ended
    }
}
