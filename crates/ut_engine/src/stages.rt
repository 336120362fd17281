//! What the operator asks of the stages of a table: to move rows from the first to the second, and to count them.
ghost use Rattle.std.specs.Prelude.{◌≡◌, ◌≤◌, false, IfOk, IsErrOf, IsTrue, is_some};
ghost use Rattle.ut_plain.specs.declared.statement.Statement.TheVariants as statements;
ghost use Rattle.ut_plain.specs.Names.{has_table};
ghost use Rattle.ut_engine.specs.Serves.{Serves};
ghost use Rattle.ut_engine.specs.Staging.{merge_reply, shape_reply};

use crate::engine::Engine;
use crate::error::L1Error;
use std::alloc::{AllocError, Global};
use ut_outside::Disk;
use ut_plain::Shape;
use ut_value::Name;

impl<'d, D: Disk> Engine<'d, D> {
    /// Moves the first n rows of a table's first stage to its second, or all where there are fewer, and says how many it moved.
    pub fn merge_l1(&mut self, _: Global, table: &Name, n: u32) -> Result<u32, L1Error>
        requires some { 1 ≤ n }
        requires few { n ≤ 1048576 }
        requires up { self.old.store.down ≡ false }
        ensures serves { Serves self.old.store (D.view self.old.disk) 0 (statements.MergeL1 table.now n) (merge_reply result) self.new.store (D.view self.new.disk) }
        // `Name` exactly where there is no such table.
        ensures there { IfOk result (λ _. IsTrue (has_table self.old.store.store.rows.tables table.now)) }
        ensures unknown { IsErrOf result L1Error.Name → has_table self.old.store.store.rows.tables table.now ≡ false }
        ensures up { self.new.store.down ≡ false }
        ensures loan { self.new.loan ≡ self.old.loan }
    {
        let Some(table) = self.store.store.place_of(table) else {
            return Err(L1Error::Name);
        };
        match self.store.store.merge_l1(table, n) {
            Ok(moved) => Ok(moved),
            Err(_) => Err(L1Error::Memory),
        }
    }

    /// How many rows stand in each stage of a table, those that nobody sees included. There is no answer where there is no such table.
    pub fn shape(&mut self, alloc: Global, table: &Name) -> Result<Option<Shape>, AllocError>
        requires up { self.old.store.down ≡ false }
        ensures serves { Serves self.old.store (D.view self.old.disk) 0 (statements.Shape table.now) (shape_reply result) self.new.store (D.view self.new.disk) }
        ensures there { IfOk result (λ shape. is_some shape ≡ has_table self.old.store.store.rows.tables table.now) }
        ensures up { self.new.store.down ≡ false }
        ensures loan { self.new.loan ≡ self.old.loan }
    {
        let Some(table) = self.store.store.place_of(table) else {
            return Ok(None);
        };
        match self.store.store.shape(alloc, table) {
            Ok(shape) => Ok(Some(shape)),
            Err(error) => Err(error),
        }
    }
}
