//! What the rows are.
ghost use Rattle.std.specs.Prelude.{◌≡◌, ◌<◌, Some, length, map, option_map, slice_get};
ghost use Rattle.ut_plain.specs.Tables.{place_of};
ghost use Rattle.ut_table.specs.Contents.{TableValue};

use crate::Rows;
use ut_plain::{Table, place_of};
use ut_stamps::Fates;
use ut_table::Table as Stages;
use ut_value::Name;

impl Rows {
    /// The name and the columns of each table, in order of creation.
    pub fn tables(&self) -> &[Table]
        ensures { result.now ≡ self.now.rows.tables }
    {
        self.tables.as_slice()
    }

    /// The stages of each table, in the same order.
    pub fn stages(&self) -> &[Stages]
        ensures { map (λ (t : TableValue). t.stages) result.now ≡ self.now.rows.staged }
    {
        self.stages.as_slice()
    }

    /// The stages of the table at a place in this order.
    pub fn table(&self, place: usize) -> &Stages
        requires { place < length self.now.rows.staged }
        ensures { slice_get self.now.rows.staged place ≡ Some result.now.stages }
    {
        &self.stages[place]
    }

    /// What became of each transaction.
    pub fn fates(&self) -> &Fates
        ensures { result.now ≡ self.now.rows.fates }
    {
        &self.fates
    }

    /// How many tables there are.
    pub fn table_count(&self) -> usize
        ensures { result ≡ length self.now.rows.tables }
    {
        self.tables.len()
    }

    /// The place of the table of a name.
    pub fn place_of(&self, name: &[u8]) -> Option<usize>
        ensures { result ≡ place_of self.now.rows.tables name.now }
    {
        place_of(&self.tables, name)
    }

    /// The name of the table at a place.
    pub fn table_name(&self, place: usize) -> Option<&Name>
        ensures { option_map (λ name. name.now) result ≡ option_map (λ table. table.name) (slice_get self.now.rows.tables place) }
    {
        match self.tables.get(place) {
            Some(table) => Some(&table.name),
            None => None,
        }
    }

    /// How many rows stand in the first stage of the table at a place, those that nobody sees included.
    pub fn l1_len(&self, place: usize) -> Option<u32>
        ensures { result ≡ option_map (λ staged. length staged.l1) (slice_get self.now.rows.staged place) }
    {
        match self.stages.get(place) {
            Some(table) => Some(table.l1_len()),
            None => None,
        }
    }

    /// How many rows stand in its second stage.
    pub fn l2_len(&self, place: usize) -> Option<u32>
        ensures { result ≡ option_map (λ staged. length staged.l2) (slice_get self.now.rows.staged place) }
    {
        match self.stages.get(place) {
            Some(table) => Some(table.l2_len()),
            None => None,
        }
    }
}
