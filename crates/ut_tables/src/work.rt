//! What a statement does to the rows of a table.
ghost use Rattle.std.specs.Prelude.{◌≡◌, ◌+◌, ◌<◌, ◌≤◌, ◌^◌, ◌↔◌, [], IsTrue, MatchOption, OnOk, OnErr};
ghost use Rattle.std.specs.List.{list_all};
ghost use Rattle.ut_value.specs.Spelling.{spelling, is_op, ops_len};
ghost use Rattle.ut_plain.specs.Rows.{inserts_of};
ghost use Rattle.ut_value.specs.declared.entry.Entry.TheVariants.{Txn};
ghost use Rattle.ut_tables.specs.Changed.{Changed, Committed, IsSpent};
ghost use Rattle.ut_tables.specs.Works.{AreChanges, CanDo, LoadsWell, hits_in, ops_in, worked};

use crate::Rows;
use std::alloc::AllocError;
use ut_change::{Bulk, Entering, ops_len, spell_all};
use ut_frame::Frame;
use ut_scan::Found;
use ut_value::Op;

/// What is done to the rows.
#[derive(Drop)]
pub enum Changes<'a> {
    /// A row enters the first stage.
    Enters(Entering),
    /// Operations are written: a delete ends the row in the next of these places, an insert enters the first stage.
    Writes { hits: &'a [Found], ops: Vec<Op> },
    /// Rows are loaded into the second stage.
    Loads(Bulk<'a>),
}

/// The changes of a statement, and where they go.
#[derive(Drop)]
pub struct Work<'a> {
    /// The place of the table.
    pub place: usize,
    pub changes: Changes<'a>,
    /// How many rows are changed, and how many are inserted.
    pub rows: u32,
    pub inserts: u32,
}

impl<'a> Changes<'a> {
    /// Where the rows stand that are deleted.
    pub fn hits(&self) -> &[Found]
        ensures { result.now ≡ hits_in self.now }
    {
        match self {
            Changes::Enters(_) => &[],
            Changes::Writes { hits, .. } => hits,
            Changes::Loads(_) => &[],
        }
    }

    pub fn is_empty(&self) -> bool
        requires { AreChanges self.now }
        ensures { IsTrue result ↔ (ops_in self.now ≡ []) }
    {
        match self {
            Changes::Enters(_) => false,
            Changes::Writes { ops, .. } => ops.is_empty(),
            Changes::Loads(bulk) => bulk.values.is_empty(),
        }
    }

    /// How many bytes the spelling of the operations has, where they are at most so many.
    pub fn ops_len(&self, most: u32) -> Option<u32>
        requires are { AreChanges self.now }
        requires rule { IsTrue (list_all is_op (ops_in self.now)) }
        requires most { most ≤ 2 ^ 30 }
        ensures { MatchOption result (most < ops_len (ops_in self.now)) (λ n. (n ≡ ops_len (ops_in self.now)) × (n ≤ most)) }
    {
        match self {
            Changes::Enters(row) => row.ops_len(most),
            Changes::Writes { ops, .. } => ops_len(ops, most),
            Changes::Loads(bulk) => bulk.ops_len(most),
        }
    }

    /// Makes a frame that of an entry of the operations, which are spelled in so many bytes.
    pub fn spell(&self, frame: &mut Frame, bytes: u32) -> Result<(), AllocError>
        requires are { AreChanges self.now }
        requires rule { IsTrue (list_all is_op (ops_in self.now)) }
        requires bytes { bytes ≡ ops_len (ops_in self.now) }
        requires short { bytes + 5 ≤ 2 ^ 30 }
        ensures { OnOk result (frame.new.payload ≡ spelling (Txn (ops_in self.now))) }
    {
        match self {
            Changes::Enters(row) => row.spell(frame, bytes),
            Changes::Writes { ops, .. } => spell_all(frame, ops, bytes),
            Changes::Loads(bulk) => bulk.spell(frame, bytes),
        }
    }
}

impl Rows {
    /// Does work as a part of a transaction: all or none.
    pub fn work_inside(&mut self, work: Work<'_>, number: u64) -> Result<(), AllocError>
        requires can { CanDo self.old.rows work }
        requires loads { LoadsWell self.old.rows work }
        requires count { work.inserts ≡ inserts_of (ops_in work.changes) }
        ensures ok { OnOk result (Changed self.old.rows work.entry.place (worked work.entry number) self.new.rows) }
        ensures err { OnErr result (self.new.rows ≡ self.old.rows) }
    {
        let Work {
            place,
            changes,
            inserts,
            ..
        } = work;
        match changes {
            Changes::Enters(row) => {
                self.room(place, 1)?;
                let (row, stamp) = row.begun(number);
                self.stages[place].push(row, stamp);
                Ok(())
            }
            Changes::Writes { hits, ops } => {
                self.room(place, inserts)?;
                self.write_all(place, number, hits, ops);
                Ok(())
            }
            Changes::Loads(bulk) => self.load(place, bulk, number),
        }
    }

    /// Does work as a transaction by itself, which the entry commits that brings the journal to a length: all or none.
    /// Where memory runs out, a transaction that was started is given up.
    pub fn work_alone(&mut self, work: Work<'_>, length: u32) -> Result<(), AllocError>
        requires can { CanDo self.old.rows work }
        requires loads { LoadsWell self.old.rows work }
        requires count { work.inserts ≡ inserts_of (ops_in work.changes) }
        ensures ok { OnOk result (Committed self.old.rows work.entry.place (worked work.entry) length self.new.rows) }
        ensures err { OnErr result (IsSpent self.old.rows self.new.rows) }
    {
        let number = self.start()?;
        if let Err(error) = self.work_inside(work, number) {
            self.abort(number);
            return Err(error);
        }
        self.commit(number, length);
        Ok(())
    }
}
