//! The test of a row of L2 or of the closed stage.
ghost use Rattle.std.specs.Prelude.{◌≡◌, ◌<◌, length, get_or, All};
ghost use Rattle.ut_l2.specs.KeyRows.{no_row};
ghost use Rattle.ut_scan.specs.Finds.{passes, found_at};

use crate::place::{ColumnPred, Found, Place};
use ut_l2::L2;
use ut_stamps::{Snapshot, Stamp};

/// A stage in columns that a merge has not yet reached.
#[derive(Clone, Copy)]
pub enum DeltaStage {
    L2,
    Closed,
}

impl DeltaStage {
    ghost use Rattle.ut_scan.specs.Probes.{place_in};

    fn place(self, i: u32) -> Place
        ensures { result ≡ place_in self i }
    {
        match self {
            DeltaStage::L2 => Place::L2(i),
            DeltaStage::Closed => Place::Closed(i),
        }
    }
}

/// What a row must still meet: the comparisons before and after the one that picked it, and to be
/// seen.
#[derive(Drop)]
pub struct Probe<'a> {
    pub snapshot: &'a Snapshot<'a>,
    pub stage: DeltaStage,
    pub l2: &'a L2,
    pub stamps: &'a [Stamp],
    pub before: &'a [ColumnPred],
    pub after: &'a [ColumnPred],
    ghost stamped: { length stamps.now ≡ length l2.now.rows },
    ghost before_columns: { All (λ p. p.column < l2.now.width) before.now },
    ghost after_columns: { All (λ p. p.column < l2.now.width) after.now },
}

impl<'a> Probe<'a> {
    ghost use Rattle.ut_scan.specs.Probes.{finds, place_in, IsRest};

    /// What is left to meet where comparison k has picked the candidates.
    pub fn around(
        snapshot: &'a Snapshot<'a>,
        stage: DeltaStage,
        l2: &'a L2,
        stamps: &'a [Stamp],
        preds: &'a [ColumnPred],
        k: usize,
    ) -> Self
        requires index { k < length preds.now }
        requires stamped { length stamps.now ≡ length l2.now.rows }
        requires columns { All (λ p. p.column < l2.now.width) preds.now }
        ensures stage { result.stage ≡ stage }
        ensures rows { result.l2.now ≡ l2.now }
        ensures rest { IsRest snapshot.now preds.now k l2.now.rows stamps.now result }
    {
        let (before, _) = preds.split_at(k);
        let (_, after) = preds.split_at(k + 1);
        Probe {
            snapshot,
            stage,
            l2,
            stamps,
            before,
            after,
        }
    }

    /// Whether the row at a place meets it.
    pub fn finds(&self, i: u32) -> bool
        requires { i < length self.now.l2.now.rows }
        ensures { result ≡ finds self.now i }
    {
        passes_at(self.l2, self.before, i)
            && passes_at(self.l2, self.after, i)
            && self.snapshot.sees(&self.stamps[i as usize])
    }

    /// The row at a place.
    pub fn found(&self, i: u32) -> Found
        requires { i < length self.now.l2.now.rows }
        ensures { result ≡ found_at (place_in self.now.stage) self.now.l2.now.rows i }
    {
        Found {
            id: self.l2.row_id(i),
            place: self.stage.place(i),
        }
    }
}

/// Whether the row at a place meets each comparison.
fn passes_at(l2: &L2, preds: &[ColumnPred], i: u32) -> bool
    requires place { i < length l2.now.rows }
    requires columns { All (λ p. p.column < l2.now.width) preds.now }
    ensures { result ≡ passes preds.now (get_or l2.now.rows i no_row) }
{
    for pred in preds {
        if !pred
            .op
            .is_met(l2.bytes(pred.column, i), pred.key.as_slice())
        {
            return false;
        }
    }
    true
}
