//! The scan of a table.
ghost use Rattle.std.specs.Prelude.{◌<◌, ◌^◌, List, length, All, IfOk};
ghost use Rattle.ut_plain.specs.declared.statement.Pred.{Pred};
ghost use Rattle.ut_plain.specs.Compiled.{Compiles};
ghost use Rattle.ut_table.specs.Finds.{SeenOnce, Counts, Finds};
ghost use Rattle.ut_table.specs.Tallied.{Tallied};

use crate::counted::{counted_rows, counted_scan, counted_tally};
use crate::table::Table;
use std::alloc::{AllocError, Global};
use std::marker::Brand;
use std::sync::ledger::Blank;
use ut_scan::{Asked, CodeTally, ColumnPred, Found};
use ut_stamps::Snapshot;

impl Table {
    /// The seen rows that meet each comparison, by ascending id.
    pub fn scan(
        &self,
        alloc: Global,
        snapshot: Snapshot<'_>,
        preds: &[ColumnPred],
    ) -> Result<Vec<Found>, AllocError>
        requires columns { All (λ p. p.column < length self.now.stages.columns) preds.now }
        requires once { SeenOnce self.now.stages snapshot.fates.now snapshot.at snapshot.own }
        ensures { let s = self.now.stages in
            IfOk result (λ found. (asked : List Pred) → Compiles s.columns asked preds.now
            → Finds s snapshot.entry.fates.now snapshot.entry.at snapshot.entry.own asked found.items) }
    {
        let stages = self.stages();
        let asked = Asked::of(snapshot, preds);
        counted_scan::<Brand>(alloc, &stages, &asked, Blank::new(1))
    }

    /// How many rows a scan finds. There is no list of them.
    pub fn count(
        &self,
        alloc: Global,
        snapshot: Snapshot<'_>,
        preds: &[ColumnPred],
    ) -> Result<u64, AllocError>
        requires columns { All (λ p. p.column < length self.now.stages.columns) preds.now }
        requires once { SeenOnce self.now.stages snapshot.fates.now snapshot.at snapshot.own }
        ensures { let s = self.now.stages in
            IfOk result (λ count. (asked : List Pred) → Compiles s.columns asked preds.now
            → Counts s snapshot.entry.fates.now snapshot.entry.at snapshot.entry.own asked count) }
    {
        let stages = self.stages();
        let asked = Asked::of(snapshot, preds);
        counted_rows::<Brand>(alloc, &stages, &asked, Blank::new(1))
    }

    /// What a scan finds, the rows of main by their codes in a column. There is no list of these.
    pub fn tally(
        &self,
        alloc: Global,
        snapshot: Snapshot<'_>,
        preds: &[ColumnPred],
        column: usize,
    ) -> Result<CodeTally, AllocError>
        requires columns { All (λ p. p.column < length self.now.stages.columns) preds.now }
        requires once { SeenOnce self.now.stages snapshot.fates.now snapshot.at snapshot.own }
        requires column { column < length self.now.stages.columns }
        ensures tally { let s = self.now.stages in
            IfOk result (λ t. (asked : List Pred) → Compiles s.columns asked preds.now
            → Tallied s snapshot.entry.fates.now snapshot.entry.at snapshot.entry.own asked column t.counts.items t.rest.items) }
        ensures few { IfOk result (λ t. length t.counts.items < 2 ^ 31) }
    {
        let stages = self.stages();
        let asked = Asked::of(snapshot, preds);
        counted_tally::<Brand>(alloc, &stages, &asked, column as u8, Blank::new(1))
    }
}
