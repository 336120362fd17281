//! Tables: they are made, their rows move to the second stage, and the rows of their stages are counted.
ghost use Rattle.std.specs.Prelude.{◌≡◌, ◌<◌, ◌≤◌, IsTrue, OnOk, OnErr, IfOk, length};
ghost use Rattle.ut_value.specs.declared.entry.Entry.TheVariants as entries;
ghost use Rattle.ut_value.specs.Spelling.{spelling, has_spelling};
ghost use Rattle.ut_names.specs.declared.bound.Task.TheVariants as tasks;
ghost use Rattle.ut_store.specs.Answers.{Same};
ghost use Rattle.ut_store.specs.Created.{Created};
ghost use Rattle.ut_store.specs.Executing.{Executes, ExecutesFor, MayExecute};
ghost use Rattle.ut_store.specs.Outcomes.{moved_outcome, shape_outcome};
ghost use Rattle.ut_store.specs.Standing.{Stands};

use crate::transactions::ENTRIES_LIMIT;
use crate::{Outcome, Store};
use std::alloc::{AllocError, Global};
use ut_frame::Frame;
use ut_plain::{Refusal, Shape, Table, Why};
use ut_value::{Duplicate, Entry};

/// A store may have so many tables.
const TABLES_LIMIT: usize = ut_value::TABLES_LIMIT as usize;

impl Store {
    /// Makes a table.
    pub(crate) fn create(&mut self, alloc: Global, session: u8, table: Table) -> Outcome
        requires { MayExecute self.old session (tasks.Create table) }
        ensures { Executes self.old session (tasks.Create table) result self.new }
    {
        if self.sessions.opened(session).is_some() {
            return Outcome::Refused(Refusal::State(Why::TxnOpen));
        }
        if self.rows.table_count() >= TABLES_LIMIT || self.counts.entries >= ENTRIES_LIMIT {
            return Outcome::Refused(Refusal::Full);
        }
        match self.add_table(alloc, table) {
            Err(_) => Outcome::Refused(Refusal::Memory),
            Ok(()) => Outcome::Created(self.counts.commits),
        }
    }

    // A table more, and the frame of its entry: all or nothing.
    fn add_table(&mut self, alloc: Global, table: Table) -> Result<(), AllocError>
        requires spelled { IsTrue (has_spelling (entries.Create table.name table.columns)) }
        requires few { length table.columns ≤ 64 }
        requires entries { self.old.counts.entries < ENTRIES_LIMIT }
        requires commits { self.old.counts.commits < ENTRIES_LIMIT }
        ensures ok { OnOk result (Created self.old table.name table.columns self.new) }
        ensures err { OnErr result (Same self.old self.new) }
    {
        let frame = create_frame(alloc, &table)?;
        self.rows.add_table(alloc, table)?;
        self.frame = frame;
        self.counts.entries += 1;
        self.counts.commits += 1;
        Ok(())
    }

    /// Moves the first n rows of the first stage of the table at a place to its second, or all where there are fewer, and tells
    /// how many it moved.
    pub fn merge_l1(&mut self, table: usize, n: u32) -> Result<u32, AllocError>
        requires stands { Stands self.old }
        requires there { table < length self.old.rows.tables }
        ensures { ExecutesFor self.old (tasks.MergeL1 table n) (moved_outcome result) self.new }
    {
        self.rows.merge_l1(table, n)
    }

    /// Tells how many rows stand in each stage of the table at a place.
    pub fn shape(&self, alloc: Global, table: usize) -> Result<Shape, AllocError>
        requires stands { Stands self.now }
        requires there { table < length self.now.rows.tables }
        ensures { ExecutesFor self.now (tasks.Shape table) (shape_outcome result) self.now }
    {
        self.rows.shape(alloc, table)
    }
}

// The frame of a new table's entry.
fn create_frame(alloc: Global, table: &Table) -> Result<Frame, AllocError>
    requires { IsTrue (has_spelling (entries.Create table.now.name table.now.columns)) }
    ensures { IfOk result (λ frame. frame.payload ≡ spelling (entries.Create table.now.name table.now.columns)) }
{
    let name = table.name.copy(alloc)?;
    let columns = table.columns.duplicate(alloc)?;
    Frame::of(alloc, &Entry::Create { name, columns })
}
