//! Tables: they are made, their rows move to the second stage, and the rows of their stages are counted.
ghost use Rattle.std.specs.Prelude.{◌≡◌, ◌<◌, ◌≤◌, min, OnOk, OnErr, IfOk, length};
ghost use Rattle.ut_plain.specs.Stages.{shape_of};
ghost use Rattle.ut_staged.specs.Staged.{merged_l1, stages_of};
ghost use Rattle.ut_tables.specs.Changed.{Changed, with_table};
ghost use Rattle.ut_tables.specs.Rows.{AtPlace};

use crate::Rows;
use std::alloc::{AllocError, Global};
use ut_plain::{Shape, Table};
use ut_table::Table as Stages;
use ut_value::Duplicate;

impl Rows {
    /// A table more, without rows: all or nothing.
    pub fn add_table(&mut self, alloc: Global, table: Table) -> Result<(), AllocError>
        requires { length table.columns ≤ 64 }
        ensures ok { OnOk result (self.new.rows ≡ with_table self.old.rows table.name table.columns) }
        ensures err { OnErr result (self.new.rows ≡ self.old.rows) }
    {
        self.tables.reserve(1)?;
        self.stages.reserve(1)?;
        let columns = table.columns.duplicate(alloc)?;
        let stages = Stages::new(alloc, columns)?;
        self.tables.push_reserved(table);
        self.stages.push_reserved(stages);
        Ok(())
    }

    /// Moves the first n rows of the first stage of the table at a place to its second. Tells how many were moved.
    pub fn merge_l1(&mut self, place: usize, n: u32) -> Result<u32, AllocError>
        requires { place < length self.old.rows.staged }
        ensures count { IfOk result (λ moved. AtPlace self.old.rows place (λ s. moved ≡ min n (length s.l1))) }
        ensures ok { OnOk result (Changed self.old.rows place (merged_l1 n) self.new.rows) }
        ensures err { OnErr result (self.new.rows ≡ self.old.rows) }
    {
        self.stages[place].merge_l1(n)
    }

    /// How many rows stand in each stage of the table at a place.
    pub fn shape(&self, alloc: Global, place: usize) -> Result<Shape, AllocError>
        requires { place < length self.now.rows.staged }
        ensures { IfOk result (λ shape. AtPlace self.now.rows place (λ s. shape ≡ shape_of (stages_of s))) }
    {
        self.stages[place].shape(alloc)
    }
}
