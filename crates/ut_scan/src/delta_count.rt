//! How many rows of L2 or of the closed stage a scan finds: by the same candidates, without a list.
ghost use Rattle.std.specs.Prelude.{◌≡◌, ◌<◌, ◌^◌, ◌≤◌, length, map, All, IfOk};
ghost use Rattle.ut_key.specs.Keys.{meets};
ghost use Rattle.ut_unsorted.specs.FirstSeen.{first_seen};
ghost use Rattle.ut_l2.specs.KeyRows.{cells_at};
ghost use Rattle.ut_scan.specs.Finds.{all_places};
ghost use Rattle.ut_scan.specs.Probes.{found_by, found_for, found_with, place_in};

use crate::asked::Asked;
use crate::delta::{is_marked_find, leading, marks};
use crate::place::ColumnPred;
use crate::probe::{DeltaStage, Probe};
use std::alloc::{AllocError, Global};
use ut_key::Cmp;
use ut_l2::L2;
use ut_stamps::Stamp;

/// How many rows of the stage are seen and meet each comparison.
pub fn count_delta(
    alloc: Global,
    asked: &Asked<'_>,
    stage: DeltaStage,
    l2: &L2,
    stamps: &[Stamp],
) -> Result<u32, AllocError>
    requires stamped { length stamps.now ≡ length l2.now.rows }
    requires columns { All (λ p. p.column < l2.now.width) asked.now.preds.now }
    ensures { IfOk result (λ count. count
        ≡ length (found_for asked.now.snapshot asked.now.preds.now (place_in stage) l2.now.rows stamps.now)) }
{
    let snapshot = &asked.snapshot;
    let preds = asked.preds;
    let Some(k) = leading(l2, preds) else {
        let probe = Probe {
            snapshot,
            stage,
            l2,
            stamps,
            before: preds,
            after: preds,
        };
        return Ok(count_all(&probe));
    };
    let pred = &preds[k];
    let probe = Probe::around(snapshot, stage, l2, stamps, preds, k);
    match pred.op {
        Cmp::Eq => Ok(count_equal(&probe, pred)),
        _ => {
            let marks = marks(alloc, l2.dict(pred.column), pred)?;
            Ok(count_marked(&probe, pred, marks.as_slice()))
        }
    }
}

/// How many rows a probe finds.
fn count_all(probe: &Probe<'_>) -> u32
    ensures { result ≡ length (found_by probe.now (all_places probe.now.l2.now.rows)) }
{
    let mut count = 0;
    for i in 0..probe.l2.len() {
        if probe.finds(i) {
            count += 1;
        }
    }
    count
}

/// At how many of the places a probe finds a row.
fn count_places(probe: &Probe<'_>, places: &[u32]) -> u32
    requires places { All (λ i. i < length probe.now.l2.now.rows) places.now }
    requires few { length places.now ≤ 2 ^ 31 }
    ensures { result ≡ length (found_by probe.now places.now) }
{
    let mut count = 0;
    for place in places {
        if probe.finds(*place) {
            count += 1;
        }
    }
    count
}

/// How many rows with the comparison's key a probe finds.
fn count_equal(probe: &Probe<'_>, pred: &ColumnPred) -> u32
    requires column { pred.now.column < probe.now.l2.now.width }
    requires equality { pred.now.op ≡ Cmp.Eq }
    ensures { result ≡ length (found_with pred.now probe.now) }
{
    let places = probe.l2.places(pred.column, pred.key.as_slice());
    let rows = probe.l2.len();
    prove!(places.len() <= rows as usize);
    count_places(probe, places)
}

/// How many rows with a marked code a probe finds.
fn count_marked(probe: &Probe<'_>, pred: &ColumnPred, marks: &[bool]) -> u32
    requires column { pred.now.column < probe.now.l2.now.width }
    requires marks { marks.now ≡ map (meets pred.now.op pred.now.key) (first_seen (cells_at pred.now.column probe.now.l2.now.rows)) }
    ensures { result ≡ length (found_with pred.now probe.now) }
{
    let codes = probe.l2.codes(pred.column);
    let mut count = 0;
    for i in 0..probe.l2.len() {
        if is_marked_find(probe, marks, codes[i as usize], i) {
            count += 1;
        }
    }
    count
}
