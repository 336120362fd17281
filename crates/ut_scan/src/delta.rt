//! A scan of L2 or of the closed stage: candidates by one comparison's places or codes, tested by
//! place for the others.
ghost use Rattle.std.specs.Prelude.{◌≡◌, ◌<◌, ◌^◌, ◌++◌, ◌&&◌, [], false, length, map, slice_index_or, MatchOption, All, IfOk, OnOk};
ghost use Rattle.ut_key.specs.Keys.{meets};
ghost use Rattle.ut_unsorted.specs.FirstSeen.{first_seen};
ghost use Rattle.ut_l2.specs.KeyRows.{cells_at};
ghost use Rattle.ut_scan.specs.Finds.{all_places};
ghost use Rattle.ut_scan.specs.Probes.{finds, found_by, found_for, found_with, place_in};

use crate::asked::Asked;
use crate::place::{ColumnPred, Found};
use crate::probe::{DeltaStage, Probe};
use std::alloc::{AllocError, Global};
use ut_key::Cmp;
use ut_l2::L2;
use ut_stamps::Stamp;
use ut_unsorted::UnsortedDict;

/// Appends the seen rows of the stage that meet each comparison.
pub fn scan_delta(
    alloc: Global,
    asked: &Asked<'_>,
    stage: DeltaStage,
    l2: &L2,
    stamps: &[Stamp],
    out: &mut Vec<Found>,
) -> Result<(), AllocError>
    requires stamped { length stamps.now ≡ length l2.now.rows }
    requires columns { All (λ p. p.column < l2.now.width) asked.now.preds.now }
    ensures { OnOk result (out.new.items ≡ out.old.items
        ++ found_for asked.now.snapshot asked.now.preds.now (place_in stage) l2.now.rows stamps.now) }
{
    let snapshot = &asked.snapshot;
    let preds = asked.preds;
    let Some(k) = leading(l2, preds) else {
        let probe = Probe {
            snapshot,
            stage,
            l2,
            stamps,
            before: preds,
            after: preds,
        };
        return scan_all(&probe, out);
    };
    let pred = &preds[k];
    let probe = Probe::around(snapshot, stage, l2, stamps, preds, k);
    match pred.op {
        Cmp::Eq => scan_equal(&probe, pred, out),
        _ => {
            let marks = marks(alloc, l2.dict(pred.column), pred)?;
            scan_marked(&probe, pred, marks.as_slice(), out)
        }
    }
}

/// The comparison that picks the candidates: of the equalities the one with the fewest places, and
/// where there is none the first.
pub fn leading(l2: &L2, preds: &[ColumnPred]) -> Option<usize>
    requires { All (λ p. p.column < l2.now.width) preds.now }
    ensures { MatchOption result (preds.now ≡ []) (λ k. k < length preds.now) }
{
    if preds.is_empty() {
        return None;
    }
    let mut best = 0;
    let mut fewest = usize::MAX;
    for k in 0..preds.len() {
        let pred = &preds[k];
        if let Cmp::Eq = pred.op {
            let count = l2.places(pred.column, pred.key.as_slice()).len();
            if count < fewest {
                best = k;
                fewest = count;
            }
        }
    }
    Some(best)
}

/// Which codes have a key that meets the comparison.
pub fn marks(alloc: Global, dict: &UnsortedDict, pred: &ColumnPred) -> Result<Vec<bool>, AllocError>
    requires { length dict.now < 2 ^ 32 }
    ensures { IfOk result (λ marks. marks.items ≡ map (meets pred.now.op pred.now.key) dict.now) }
{
    let key = pred.key.as_slice();
    let mut marks = Vec::with_capacity(alloc, dict.len() as usize)?;
    for code in 0..dict.len() {
        marks.push(pred.op.is_met(dict.bytes(code), key))?;
    }
    Ok(marks)
}

/// Appends the rows that a probe finds.
fn scan_all(probe: &Probe<'_>, out: &mut Vec<Found>) -> Result<(), AllocError>
    ensures { OnOk result (out.new.items ≡ out.old.items
        ++ found_by probe.now (all_places probe.now.l2.now.rows)) }
{
    for i in 0..probe.l2.len() {
        if probe.finds(i) {
            out.push(probe.found(i))?;
        }
    }
    Ok(())
}

/// Appends the rows at the places that a probe finds.
fn scan_places(probe: &Probe<'_>, places: &[u32], out: &mut Vec<Found>) -> Result<(), AllocError>
    requires { All (λ i. i < length probe.now.l2.now.rows) places.now }
    ensures { OnOk result (out.new.items ≡ out.old.items ++ found_by probe.now places.now) }
{
    for place in places {
        let i = *place;
        if probe.finds(i) {
            out.push(probe.found(i))?;
        }
    }
    Ok(())
}

/// Appends the rows with the comparison's key that a probe finds.
fn scan_equal(probe: &Probe<'_>, pred: &ColumnPred, out: &mut Vec<Found>) -> Result<(), AllocError>
    requires column { pred.now.column < probe.now.l2.now.width }
    requires equality { pred.now.op ≡ Cmp.Eq }
    ensures { OnOk result (out.new.items ≡ out.old.items ++ found_with pred.now probe.now) }
{
    let places = probe.l2.places(pred.column, pred.key.as_slice());
    scan_places(probe, places, out)
}

/// Whether the code is marked, and the probe finds its row.
pub fn is_marked_find(probe: &Probe<'_>, marks: &[bool], code: u32, i: u32) -> bool
    requires mark { code < length marks.now }
    requires place { i < length probe.now.l2.now.rows }
    ensures { result ≡ (slice_index_or marks.now code false && finds probe.now i) }
{
    marks[code as usize] && probe.finds(i)
}

/// Appends the rows with a marked code that a probe finds.
fn scan_marked(
    probe: &Probe<'_>,
    pred: &ColumnPred,
    marks: &[bool],
    out: &mut Vec<Found>,
) -> Result<(), AllocError>
    requires column { pred.now.column < probe.now.l2.now.width }
    requires marks { marks.now ≡ map (meets pred.now.op pred.now.key) (first_seen (cells_at pred.now.column probe.now.l2.now.rows)) }
    ensures { OnOk result (out.new.items ≡ out.old.items ++ found_with pred.now probe.now) }
{
    let codes = probe.l2.codes(pred.column);
    for i in 0..probe.l2.len() {
        if is_marked_find(probe, marks, codes[i as usize], i) {
            out.push(probe.found(i))?;
        }
    }
    Ok(())
}
