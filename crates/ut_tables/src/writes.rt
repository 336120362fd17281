//! Transactions begin and end, and their operations are written into the stages of a table.
ghost use Rattle.std.specs.Prelude.{◌≡◌, ◌<◌, ◌≤◌, ◌++◌, ◌∷◌, [], IsTrue, IfOk, OnOk, OnErr, length, map, slice_set};
ghost use Rattle.ut_plain.specs.Rows.{inserts_of};
ghost use Rattle.ut_stamps.specs.declared.fates.Fate.TheVariants.{Running, Committed, Aborted};
ghost use Rattle.ut_stamps.specs.Stamps.{fate_at, is_running};
ghost use Rattle.ut_staged.specs.Staged.{begun_row, entered_l2};
ghost use Rattle.ut_staged.specs.Staging.{written};
ghost use Rattle.ut_table.specs.Finds.{hits_of};
ghost use Rattle.ut_change.specs.Bulks.{bulk_rows, CanLoad};
ghost use Rattle.ut_change.specs.Entering.{insert_of};
ghost use Rattle.ut_change.specs.Writes.{CanWrite};
ghost use Rattle.ut_tables.specs.Changed.{CanTake, Changed};
ghost use Rattle.ut_tables.specs.Rows.{HasTable, spare_at, with_fates};

use crate::Rows;
use std::alloc::AllocError;
use ut_change::{Bulk, Entering, write_all};
use ut_scan::Found;
use ut_value::Op;

impl Rows {
    /// The number of a new transaction, which runs.
    pub fn start(&mut self) -> Result<u64, AllocError>
        ensures ok { OnOk result (self.new ≡ with_fates self.old (self.old.rows.fates ++ Running ∷ [])) }
        ensures number { IfOk result (λ t. t ≡ length self.old.rows.fates) }
        ensures err { OnErr result (self.new ≡ self.old) }
    {
        self.fates.start()
    }

    /// Commits a transaction by the entry that brings the journal to a length. Takes no memory.
    pub fn commit(&mut self, number: u64, length: u32)
        requires { IsTrue (is_running (fate_at self.old.rows.fates number)) }
        ensures { self.new ≡ with_fates self.old (slice_set self.old.rows.fates number (Committed length)) }
    {
        self.fates.commit(number, length);
    }

    /// Gives a transaction up. Takes no memory.
    pub fn abort(&mut self, number: u64)
        requires { IsTrue (is_running (fate_at self.old.rows.fates number)) }
        ensures { self.new ≡ with_fates self.old (slice_set self.old.rows.fates number Aborted) }
    {
        self.fates.abort(number);
    }

    /// Makes room for so many rows in the first stage of the table at a place.
    pub fn room(&mut self, place: usize, inserts: u32) -> Result<(), AllocError>
        requires { place < length self.old.rows.staged }
        ensures ok { OnOk result (inserts ≤ spare_at self.new place) }
        ensures rows { self.new.rows ≡ self.old.rows }
    {
        self.stages[place].room(inserts)
    }

    /// Writes operations of a transaction into the stages of the table at a place, in the room that was made: an insert
    /// enters the first stage, a delete ends the row in the next of the places found. Takes no memory.
    pub fn write_all(&mut self, place: usize, number: u64, hits: &[Found], ops: Vec<Op>)
        requires can { HasTable self.old.rows place (λ s. CanWrite s (hits_of hits.now) ops.items) }
        requires room { inserts_of ops.items ≤ spare_at self.old place }
        ensures { Changed self.old.rows place (written number ops.items (hits_of hits.now)) self.new.rows }
    {
        write_all(&mut self.stages[place], number, hits, ops);
    }

    /// A row of a transaction enters the first stage of the table at a place, in the room that was made. Takes no memory.
    pub fn enter(&mut self, place: usize, number: u64, row: Entering)
        requires can { HasTable self.old.rows place (λ s. CanWrite s [] (insert_of row ∷ [])) }
        requires room { 1 ≤ spare_at self.old place }
        ensures { Changed self.old.rows place (written number (insert_of row ∷ []) []) self.new.rows }
    {
        let (row, stamp) = row.begun(number);
        self.stages[place].push(row, stamp);
    }

    /// Loads rows of a transaction into the second stage of the table at a place: all or none.
    pub fn load(&mut self, place: usize, bulk: Bulk<'_>, number: u64) -> Result<(), AllocError>
        requires can { CanLoad bulk }
        requires takes { HasTable self.old.rows place (CanTake bulk) }
        ensures ok { OnOk result (Changed self.old.rows place (entered_l2 (map (begun_row number) (bulk_rows bulk.entry))) self.new.rows) }
        ensures err { OnErr result (self.new.rows ≡ self.old.rows) }
    {
        self.stages[place].load_values(bulk.id, bulk.values, number)
    }
}
