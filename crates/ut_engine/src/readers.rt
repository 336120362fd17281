//! What an engine's store holds: the rows of a table, the tables, how many rows stand in a stage.
ghost use Rattle.std.specs.Prelude.{◌≡◌, ◌<◌, false, IfOk, is_some, length};
ghost use Rattle.ut_plain.specs.Names.{has_table};
ghost use Rattle.ut_store.specs.Listed.{Lists};
ghost use Rattle.ut_engine.specs.Tables.{IsTableCount, IsTableName, IsL1Length, IsL2Length};

use crate::engine::Engine;
use std::alloc::{AllocError, Global};
use ut_outside::Disk;
use ut_value::{Name, Row, Seq};

impl<'d, D: Disk> Engine<'d, D> {
    /// The rows of a table in the state of the whole journal, by ascending id. There are none where there is no such table.
    #[tactic(auto, using(crate::proofs::RowsLemmas::listed_there))]
    pub fn rows(&self, alloc: Global, table: &Name) -> Result<Option<Seq<Row>>, AllocError>
        requires up { self.now.store.down ≡ false }
        ensures lists { IfOk result (Lists self.now.store.store table.now) }
        ensures there { IfOk result (λ rows. is_some rows ≡ has_table self.now.store.store.rows.tables table.now) }
    {
        self.store.store.rows(alloc, table.as_slice())
    }

    /// How many tables there are.
    pub fn tables(&self) -> usize
        ensures { IsTableCount self.now.store.store result }
    {
        self.store.store.all_rows().table_count()
    }

    /// The name of the table at a place in order of creation.
    pub fn table_name(&self, place: usize) -> &Name
        requires there { place < length self.now.store.store.rows.tables }
        ensures { IsTableName self.now.store.store place result.now }
    {
        self.store.store.all_rows().table_name(place).unwrap()
    }

    /// How many rows stand in the first stage of the table at a place, those that nobody sees included.
    pub fn l1_len(&self, place: usize) -> u32
        requires there { place < length self.now.store.store.rows.tables }
        requires up { self.now.store.down ≡ false }
        ensures { IsL1Length self.now.store.store place result }
    {
        self.store.store.all_rows().l1_len(place).unwrap()
    }

    /// How many rows stand in its second stage.
    pub fn l2_len(&self, place: usize) -> u32
        requires there { place < length self.now.store.store.rows.tables }
        requires up { self.now.store.down ≡ false }
        ensures { IsL2Length self.now.store.store place result }
    {
        self.store.store.all_rows().l2_len(place).unwrap()
    }
}
