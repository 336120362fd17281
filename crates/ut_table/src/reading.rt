//! What is read of a table: columns, stamps and values.
ghost use Rattle.std.specs.Prelude.{◌≡◌, ◌<◌, ◌≤◌, ◌^◌, length, map, slice_get, option_map, Some, IsSome, IsTrue, IfOk};
ghost use Rattle.ut_value.specs.declared.value.Value.{Value};
ghost use Rattle.ut_value.specs.KeyBytes.{key_of};
ghost use Rattle.ut_plain.specs.Tables.{fits_columns};
ghost use Rattle.ut_exact.specs.Places.{StagedRow};
ghost use Rattle.ut_staged.specs.Staged.{row_at, count_of};
ghost use Rattle.ut_table.specs.Contents.{PendingValue};
ghost use Rattle.ut_table.specs.Filled.{row_of};
ghost use Rattle.ut_table.specs.Lent.{AreLent};
ghost use Rattle.ut_table.specs.Outside.{rows_in};
ghost use Rattle.ut_table.specs.Standing.{values_held, Stands};

use crate::pending::Pending;
use crate::stage::Stage;
use crate::standing::{Standing, key_of, value_of_row, values_of};
use crate::table::Table;
use std::alloc::{AllocError, Global};
use ut_key::Key;
use ut_l2::L2;
use ut_scan::{Place, Stages};
use ut_stamps::Stamp;
use ut_value::{Column, Row, Seq, Value};

/// The stage that a pending merge closed.
fn closed_stage(pending: &Option<Pending>) -> Option<&L2>
    ensures { option_map (λ l. l.now) result ≡ option_map (λ (p : PendingValue). p.closed) pending.now }
{
    match pending {
        Some(pending) => Some(pending.closed()),
        None => None,
    }
}

impl Table {
    pub fn columns(&self) -> &[Column]
        ensures { result.now ≡ self.now.stages.columns }
    {
        self.columns.as_slice()
    }

    /// The stages, for readers that go by codes.
    pub fn stages(&self) -> Stages<'_>
        ensures { AreLent self.now.stages result }
    {
        Stages {
            l1: &self.l1,
            l2: &self.l2,
            closed: closed_stage(&self.pending),
            main: &self.main,
            stamps: &self.stamps,
        }
    }

    /// The stamp of the row in a place.
    pub fn stamp(&self, place: Place) -> Stamp
        requires { IsSome (row_at self.now.stages place) }
        ensures { (row : StagedRow) → row_at self.now.stages place ≡ Some row → result ≡ row.stamp }
    {
        self.stamps.stamp(place)
    }

    /// The stamps of a stage's rows.
    pub fn stamps_in(&self, stage: Stage) -> &[Stamp]
        ensures stamps { result.now ≡ map (λ (row : StagedRow). row.stamp) (rows_in stage self.now.stages) }
        ensures few { count_of self.now.stages ≤ 2 ^ 31 }
    {
        let stages = self.stages();
        match stage {
            Stage::L1 => stages.stamps.l1(),
            Stage::L2 => stages.stamps.l2(),
            Stage::Closed => match stages.stamps.closed() {
                Some(stamps) => stamps,
                None => &[],
            },
        }
    }

    /// The id of the row in a place.
    fn row_id(&self, place: Place) -> u32
        requires { IsSome (row_at self.now.stages place) }
        ensures id { (row : StagedRow) → row_at self.now.stages place ≡ Some row → result ≡ row.id }
        ensures fits { (row : StagedRow) → row_at self.now.stages place ≡ Some row → IsTrue (fits_columns self.now.stages.columns row.values) }
    {
        let stages = self.stages();
        match place {
            Place::L1(i) => stages.l1.row(i).id,
            Place::L2(i) => stages.l2.row_id(i),
            Place::Closed(i) => stages.closed.unwrap_or(&self.idle).row_id(i),
            Place::Main(p, i) => stages.main.part(p).row_id(i),
        }
    }

    /// The row in a place, as its stage holds it.
    fn standing(&self, place: Place) -> Standing<'_>
        requires { IsSome (row_at self.now.stages place) }
        ensures stands { Stands self.now.stages.columns result }
        ensures values { (row : StagedRow) → row_at self.now.stages place ≡ Some row → values_held self.now.stages.columns result ≡ row.values }
    {
        match place {
            Place::L1(i) => Standing::Row(self.l1.row(i)),
            Place::L2(i) => Standing::Delta(&self.l2, i),
            Place::Closed(i) => {
                Standing::Delta(closed_stage(&self.pending).unwrap_or(&self.idle), i)
            }
            Place::Main(p, i) => Standing::Part(self.main.part(p), i),
        }
    }

    /// A copy of the values of the row in a place.
    pub fn values(&self, alloc: Global, place: Place) -> Result<Seq<Value>, AllocError>
        requires { IsSome (row_at self.now.stages place) }
        ensures { IfOk result (λ values. (row : StagedRow) → row_at self.now.stages place ≡ Some row → values ≡ row.values) }
    {
        values_of(alloc, self.columns(), self.standing(place))
    }

    /// A copy of the row in a place, which fits the columns.
    pub fn row(&self, alloc: Global, place: Place) -> Result<Row, AllocError>
        requires { IsSome (row_at self.now.stages place) }
        ensures copy { IfOk result (λ copy. (row : StagedRow) → row_at self.now.stages place ≡ Some row → copy ≡ row_of row) }
        ensures fits { (row : StagedRow) → row_at self.now.stages place ≡ Some row → IsTrue (fits_columns self.now.stages.columns row.values) }
    {
        let id = self.row_id(place);
        let values = self.values(alloc, place)?;
        Ok(Row { id, values })
    }

    /// A copy of one value of the row in a place.
    pub fn value(&self, alloc: Global, place: Place, column: usize) -> Result<Value, AllocError>
        requires there { IsSome (row_at self.now.stages place) }
        requires column { column < length self.now.stages.columns }
        ensures { IfOk result (λ value. (row : StagedRow) → row_at self.now.stages place ≡ Some row → slice_get row.values column ≡ Some value) }
    {
        value_of_row(alloc, self.columns(), self.standing(place), column)
    }

    /// The key of a value of the row in a place, without a copy of a text that isn't in main: other
    /// keys may be written into `room`.
    pub fn key<'a>(&'a self, place: Place, column: usize, room: &'a mut Key) -> &'a [u8]
        requires there { IsSome (row_at self.now.stages place) }
        requires column { column < length self.now.stages.columns }
        ensures { (row : StagedRow) (value : Value) → row_at self.now.stages place ≡ Some row → slice_get row.values column ≡ Some value → result.now ≡ key_of value }
    {
        key_of(self.columns(), self.standing(place), column, room)
    }
}
