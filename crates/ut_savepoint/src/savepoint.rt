//! A savepoint under way.
ghost use Rattle.std.specs.Prelude.{◌≡◌, ◌<◌, ◌≤◌, ◌+◌, ◌++◌, [], true, false, OnOk, length, slice_get, MatchOption, Some};
ghost use Rattle.ut_durable.specs.Plans.{Fills, plan};
ghost use Rattle.ut_savepoint.specs.Writes.{planned_write};

use crate::cut::{PageWrite, cut};
use std::alloc::{AllocError, Global};
use std::marker::Model;
use ut_pages::Root;

/// The root that is to be written, the pages before it, and how many of these are written.
#[derive(Drop)]
pub struct Savepoint {
    root: Root,
    writes: Vec<PageWrite>,
    reached: Vec<u32>,
    done: usize,
    sealed: bool,
}

impl Model for Savepoint {
    ghost use Rattle.ut_durable.specs.Saving.{Saving};
    ghost use Rattle.ut_savepoint.specs.Writes.{planned_in};

    ghost Value = { Saving };

    ghost view = { λ s. record { root = s.root; planned = planned_in s.writes.items; reached = s.reached.items; done = s.done; sealed = s.sealed } };
}

impl Savepoint {
    /// A savepoint without pages, whose root is this one.
    pub fn new(alloc: Global, root: Root) -> Savepoint
        ensures { result ≡ record { root = root; planned = []; reached = []; done = 0; sealed = false } }
    {
        Savepoint {
            root,
            writes: Vec::new(alloc),
            reached: Vec::new(alloc),
            done: 0,
            sealed: false,
        }
    }

    /// Adds a chain with these bytes on these pages, behind those before it. At Err drop the savepoint.
    pub fn add(&mut self, alloc: Global, pages: &[u32], bytes: &[u8]) -> Result<(), AllocError>
        requires { Fills pages.now bytes.now }
        ensures { OnOk result (self.new ≡ record self.old { planned = self.old.planned ++ plan pages.now bytes.now; reached = self.old.reached ++ pages.now }) }
    {
        self.reached.extend_from_slice(pages)?;
        cut(alloc, pages, bytes, &mut self.writes)?;
        Ok(())
    }

    /// The next page that is to be written. None where all are.
    pub fn next(&self) -> Option<&PageWrite>
        ensures { MatchOption result (length self.now.planned ≤ self.now.done) (λ write. slice_get self.now.planned self.now.done ≡ Some (planned_write write.now)) }
    {
        self.writes.get(self.done)
    }

    /// Counts that page as written.
    pub fn wrote(&mut self)
        requires { self.old.done < length self.old.planned }
        ensures { self.new ≡ record self.old { done = self.old.done + 1 } }
    {
        self.done += 1;
    }

    /// Its root is written.
    pub fn seal(&mut self)
        ensures { self.new ≡ record self.old { sealed = true } }
    {
        self.sealed = true;
    }

    /// The root that is to be written.
    pub fn root(&self) -> &Root
        ensures { result.now ≡ self.now.root }
    {
        &self.root
    }

    /// How many pages are written.
    pub fn done(&self) -> usize
        ensures { result ≡ self.now.done }
    {
        self.done
    }

    /// How many pages there are.
    pub fn pages(&self) -> usize
        ensures { result ≡ length self.now.planned }
    {
        self.writes.len()
    }

    /// Whether the root is written.
    pub fn is_sealed(&self) -> bool
        ensures { result ≡ self.now.sealed }
    {
        self.sealed
    }

    /// The pages that the root reaches.
    pub fn into_reached(self) -> Vec<u32>
        ensures { result.items ≡ self.reached }
    {
        self.reached
    }
}
