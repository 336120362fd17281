//! The entries of a log, each tested against the state before it.
ghost use Rattle.std.specs.Prelude.{◌≡◌, ◌+◌, ◌<◌, ◌≤◌, ◌^◌, OnOk, IsErrOf, IsTrue, length};
ghost use Rattle.std.specs.List.{AllByRecursion};
ghost use Rattle.ut_value.specs.declared.entry.Entry.TheVariants as entries;
ghost use Rattle.ut_value.specs.Spelling.{has_spelling};
ghost use Rattle.ut_redo.specs.Frames.{IsEntry};
ghost use Rattle.ut_restart.specs.declared.error.RestartError.{RestartError};
ghost use Rattle.ut_restart.specs.Replayed.{IsReplay, Followed, Strange, Replayed, NoJournal};
ghost use Rattle.ut_value.specs.declared.entry.MergeKind.{MergeKind};

use crate::RestartError;
use crate::rows::Rows;
use std::alloc::Global;
use ut_plain::{Table, place_of};
use ut_table::Table as Stages;
use ut_value::{Column, Duplicate, Entry, Name, Op, Seq, TABLES_LIMIT};

/// A store may have so many tables.
const MAX_TABLES: usize = TABLES_LIMIT as usize;

/// What an image and the entries so far come to.
#[derive(Drop)]
pub(crate) struct Replay {
    pub tables: Vec<Table>,
    pub rows: Rows,
    /// How many tables were made and transactions committed.
    pub commits: u32,
    pub merges: u32,
    /// How many entries there were, those before the image included.
    pub entries: u32,
}

impl Replay {
    /// Reads entries from the first to the last.
    pub(crate) fn follow_all(
        &mut self,
        alloc: Global,
        entries: Seq<Entry>,
    ) -> Result<(), RestartError>
        requires sound { IsReplay self.old }
        requires spelled { AllByRecursion IsEntry entries }
        requires few { self.old.entries + length entries ≤ 2 ^ 30 }
        ensures ok { OnOk result (Replayed self.old entries self.new) }
        ensures damaged { IsErrOf result RestartError.Damaged → NoJournal self.old entries }
    {
        for entry in entries.into_vec() {
            self.follow(alloc, entry)?;
        }
        Ok(())
    }

    fn follow(&mut self, alloc: Global, entry: Entry) -> Result<(), RestartError>
        requires sound { IsReplay self.old }
        requires spelled { IsTrue (has_spelling entry) }
        requires few { self.old.entries < 2 ^ 30 }
        ensures ok { OnOk result (Followed self.old entry self.new) }
        ensures damaged { IsErrOf result RestartError.Damaged → Strange self.old entry }
    {
        match entry {
            Entry::Create { name, columns } => self.create(alloc, name, columns),
            Entry::Txn { ops } => self.commit(ops),
            Entry::Begun { n, table, kind: _ } => self.begin_merge(n, table),
            Entry::Ended { n } => self.end_merge(n),
        }
    }

    fn create(
        &mut self,
        alloc: Global,
        name: Name,
        columns: Seq<Column>,
    ) -> Result<(), RestartError>
        requires sound { IsReplay self.old }
        requires narrow { length columns ≤ 64 }
        requires few { self.old.entries < 2 ^ 30 }
        ensures ok { OnOk result (Followed self.old (entries.Create name columns) self.new) }
        ensures damaged { IsErrOf result RestartError.Damaged → Strange self.old (entries.Create name columns) }
    {
        if place_of(&self.tables, name.as_slice()).is_some() || self.tables.len() >= MAX_TABLES {
            return Err(RestartError::Damaged);
        }
        let copy = columns.duplicate(alloc)?;
        let stages = Stages::new(alloc, copy)?;
        self.tables.reserve(1)?;
        self.rows.stages.reserve(1)?;
        self.tables.push_reserved(Table { name, columns });
        self.rows.stages.push_reserved(stages);
        self.commits += 1;
        self.entries += 1;
        Ok(())
    }

    fn commit(&mut self, ops: Seq<Op>) -> Result<(), RestartError>
        requires sound { IsReplay self.old }
        requires few { self.old.entries < 2 ^ 30 }
        ensures ok { OnOk result (Followed self.old (entries.Txn ops) self.new) }
        ensures damaged { IsErrOf result RestartError.Damaged → Strange self.old (entries.Txn ops) }
    {
        self.rows.apply(&self.tables, ops)?;
        self.commits += 1;
        self.entries += 1;
        Ok(())
    }

    fn begin_merge(&mut self, n: u32, table: u16) -> Result<(), RestartError>
        requires sound { IsReplay self.old }
        requires few { self.old.entries < 2 ^ 30 }
        ensures ok { (kind : MergeKind) → OnOk result (Followed self.old (entries.Begun n table kind) self.new) }
        ensures damaged { (kind : MergeKind) → IsErrOf result RestartError.Damaged → Strange self.old (entries.Begun n table kind) }
    {
        if table as usize >= self.tables.len() || n != self.merges + 1 {
            return Err(RestartError::Damaged);
        }
        self.merges = n;
        self.entries += 1;
        Ok(())
    }

    fn end_merge(&mut self, n: u32) -> Result<(), RestartError>
        requires sound { IsReplay self.old }
        requires few { self.old.entries < 2 ^ 30 }
        ensures ok { OnOk result (Followed self.old (entries.Ended n) self.new) }
        ensures damaged { IsErrOf result RestartError.Damaged → Strange self.old (entries.Ended n) }
    {
        if n == 0 || n != self.merges {
            return Err(RestartError::Damaged);
        }
        self.entries += 1;
        Ok(())
    }
}
