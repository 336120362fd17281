//! A table: the rows of its stages, each with its stamp.
ghost use Rattle.std.specs.Prelude.{◌≡◌, ◌+◌, ◌<◌, ◌≤◌, ◌^◌, length, map, min, IsSome, IsTrue, IfOk, OnOk, OnErr, All, List};
ghost use Rattle.ut_value.specs.declared.value.Row.{Row};
ghost use Rattle.ut_plain.specs.Tables.{fits_columns};
ghost use Rattle.ut_l2.specs.Sources.{AreFlat};
ghost use Rattle.ut_staged.specs.Staged.{no_rows, row_at, count_of, stamped_row, begun_row, entered_l1, entered_l2, ended_in, merged_l1};

use crate::kept::{begin_all, rows_keep_rules};
use crate::pending::Pending;
use crate::shared::{append, append_values};
use std::alloc::{AllocError, Global};
use std::marker::Model;
use std::sync::Arc;
use ut_l1::L1;
use ut_l2::L2;
use ut_main::Main;
use ut_scan::Place;
use ut_stamps::{Stamp, StampTable};
use ut_value::{Column, Row, Seq, Value, values_keep_rules};

/// The stages of a table of at most 64 columns. The first, the second and a closed one hold at
/// most 2^31 rows together.
pub struct Table {
    pub(crate) alloc: Global,
    pub(crate) columns: Seq<Column>,
    pub(crate) l1: L1,
    /// It has one owner until a merge shares it.
    pub(crate) l2: Arc<L2>,
    pub(crate) main: Main,
    pub(crate) pending: Option<Pending>,
    /// A stage without rows. It stands for the closed one where no merge is pending.
    pub(crate) idle: L2,
    pub(crate) stamps: StampTable,
}

// One step of a proof, wherever one is dropped.
impl Drop for Table {
    fn drop(self) {
        let Table {
            alloc: _,
            columns: _,
            l1: _,
            l2: _,
            main: _,
            pending: _,
            idle: _,
            stamps: _,
        } = self;
    }
}

impl Model for Table {
    ghost use Rattle.std.specs.Prelude.{min};
    ghost use Rattle.std.specs.Arc.{arc_value};
    ghost use Rattle.ut_table.specs.Contents.{staged, TableValue};
    ghost use Rattle.ut_table.specs.Kept.{IsTable};

    ghost Value = { TableValue };

    ghost view = { λ t. record {
      stages = staged (record {
        columns = t.columns;
        l1 = t.l1.items;
        l2 = arc_value t.l2;
        main = t.main;
        pending = t.pending;
        stamps = t.stamps;
      });
      spare = min t.l1.room t.stamps.l1.room;
    } };

    ghost invariant = { λ t. IsTable (record {
      columns = t.columns;
      l1 = t.l1.items;
      l2 = arc_value t.l2;
      main = t.main;
      pending = t.pending;
      stamps = t.stamps;
    }) };
}

impl Table {
    /// A table without rows.
    pub fn new(alloc: Global, columns: Seq<Column>) -> Result<Table, AllocError>
        requires { length columns ≤ 64 }
        ensures { IfOk result (λ t. t.stages ≡ no_rows columns) }
    {
        let count = columns.as_slice().len() as u8;
        let l2 = Arc::new(alloc, L2::new(alloc, count)?)?;
        let stamps = StampTable::new(alloc)?;
        Ok(Table {
            alloc,
            columns,
            l1: L1::new(alloc),
            l2,
            main: Main::new(alloc, count),
            pending: None,
            idle: L2::new(alloc, 0)?,
            stamps,
        })
    }

    /// Makes sure that n rows can be pushed.
    pub fn room(&mut self, n: u32) -> Result<(), AllocError>
        ensures ok { OnOk result (n ≤ self.new.spare) }
        ensures kept { self.old.spare ≤ self.new.spare }
        ensures stages { self.new.stages ≡ self.old.stages }
    {
        self.l1.room(n)?;
        self.stamps.room(n, 0)
    }

    /// A row enters the first stage, in the room that was made. Takes no memory.
    pub fn push(&mut self, row: Row, stamp: Stamp)
        requires room { 0 < self.old.spare }
        requires fits { IsTrue (fits_columns self.old.stages.columns row.values) }
        requires few { count_of self.old.stages < 2 ^ 31 }
        ensures stages { self.new.stages ≡ entered_l1 (stamped_row stamp row) self.old.stages }
        ensures room { self.old.spare ≤ self.new.spare + 1 }
    {
        values_keep_rules(row.values.as_slice());
        self.l1.push(row);
        self.stamps.push_l1(stamp);
    }

    /// Rows that a transaction begins enter the second stage: all or none.
    pub fn load(&mut self, rows: &[Row], t: u64) -> Result<(), AllocError>
        requires fit { All (λ (r : Row). IsTrue (fits_columns self.old.stages.columns r.values)) rows.now }
        requires few { count_of self.old.stages + length rows.now ≤ 2 ^ 31 }
        ensures ok { OnOk result (self.new.stages ≡ entered_l2 (map (begun_row t) rows.now) self.old.stages) }
        ensures err { OnErr result (self.new.stages ≡ self.old.stages) }
    {
        rows_keep_rules(rows);
        let count = rows.len() as u32;
        self.stamps.room(0, count)?;
        append(self.alloc, self.columns.as_slice(), &mut self.l2, rows)?;
        begin_all(&mut self.stamps, count, t);
        Ok(())
    }

    /// Rows that a transaction begins enter the second stage, their values one row's behind the other's, under the ids
    /// from one on: all or none.
    pub fn load_values(&mut self, first_id: u32, values: &[Value], t: u64) -> Result<(), AllocError>
        ghost rows: { List Row }
        requires are { AreFlat rows first_id (length self.old.stages.columns) values.now }
        requires columns { 0 < length self.old.stages.columns }
        requires fit { All (λ (r : Row). IsTrue (fits_columns self.old.stages.columns r.values)) rows }
        requires ids { first_id + length rows ≤ 2 ^ 32 }
        requires few { count_of self.old.stages + length rows ≤ 2 ^ 31 }
        ensures ok { OnOk result (self.new.stages ≡ entered_l2 (map (begun_row t) rows) self.old.stages) }
        ensures err { OnErr result (self.new.stages ≡ self.old.stages) }
    {
        values_keep_rules(values);
        let count = (values.len() / self.columns.as_slice().len()) as u32;
        self.stamps.room(0, count)?;
        append_values(
            self.alloc,
            self.columns.as_slice(),
            &mut self.l2,
            first_id,
            values,
        )?;
        begin_all(&mut self.stamps, count, t);
        Ok(())
    }

    /// Gives the row in a place to a transaction that ends it. Takes no memory.
    pub fn end_row(&mut self, place: Place, t: u64)
        requires { IsSome (row_at self.old.stages place) }
        ensures stages { self.new.stages ≡ ended_in t place self.old.stages }
        ensures room { self.new.spare ≡ self.old.spare }
    {
        self.stamps.set_end(place, t);
    }

    /// Moves the first n rows of the first stage to the second, or all where there are fewer, and says how many.
    pub fn merge_l1(&mut self, n: u32) -> Result<u32, AllocError>
        ensures count { IfOk result (λ m. m ≡ min n (length self.old.stages.l1)) }
        ensures ok { OnOk result (self.new.stages ≡ merged_l1 n self.old.stages) }
        ensures err { OnErr result (self.new.stages ≡ self.old.stages) }
    {
        let count = n.min(self.l1.len());
        self.stamps.room(0, count)?;
        append(
            self.alloc,
            self.columns.as_slice(),
            &mut self.l2,
            &self.l1.rows()[..count as usize],
        )?;
        self.stamps.move_l1(count);
        self.l1.take_first(count);
        Ok(count)
    }
}
