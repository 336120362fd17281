//! A scan of a list of rows.
ghost use Rattle.std.specs.Prelude.{◌≡◌, ◌<◌, ◌≤◌, ◌++◌, ◌^◌, ◌&&◌, length, map, All, IfSome, OnOk};
ghost use Rattle.ut_key.specs.Keys.{meets};
ghost use Rattle.ut_value.specs.KeyBytes.{key_of};
ghost use Rattle.ut_l2.specs.KeyRows.{keyed};
ghost use Rattle.ut_stamps.specs.Stamps.{sees as sees_stamp};
ghost use Rattle.ut_scan.specs.Finds.{passes};
ghost use Rattle.ut_scan.specs.Probes.{found_for};
ghost use Rattle.ut_scan.specs.Seeks.{IsSought};

use crate::place::{ColumnPred, Found, Place};
use crate::sought::{Sought, first_sought, is_other, number_meets};
use std::alloc::AllocError;
use ut_stamps::{Snapshot, Stamp};
use ut_value::{Row, Value, int_of, key_bytes};

/// Whether a value's key meets a comparison. Numbers are compared as they are, without their keys.
fn value_meets(value: &Value, pred: &ColumnPred) -> bool
    ensures { result ≡ meets pred.now.op pred.now.key (key_of value.now) }
{
    let key = pred.key.as_slice();
    if let Value::Int(number) = value
        && let Some(with) = int_of(key)
    {
        return number_meets(pred.op, *number, with);
    }
    let mut room = [0; 8];
    pred.op.is_met(key_bytes(value, &mut room), key)
}

/// Whether a row meets each comparison.
fn row_passes(row: &Row, preds: &[ColumnPred]) -> bool
    requires { All (λ p. p.column < length row.now.values) preds.now }
    ensures { result ≡ passes preds.now (keyed row.now) }
{
    let values = row.values.as_slice();
    for pred in preds {
        if !value_meets(&values[usize::from(pred.column)], pred) {
            return false;
        }
    }
    true
}

/// Whether a row meets each comparison and is seen.
fn is_hit(
    snapshot: &Snapshot<'_>,
    preds: &[ColumnPred],
    sought: Option<Sought>,
    row: &Row,
    stamp: &Stamp,
) -> bool
    requires columns { All (λ p. p.column < length row.now.values) preds.now }
    requires sought { IfSome sought (IsSought preds.now) }
    ensures { result ≡ (passes preds.now (keyed row.now) && sees_stamp snapshot.now.fates.now snapshot.now.at snapshot.now.own stamp.now) }
{
    let values = row.values.as_slice();
    if let Some(sought) = sought
        && is_other(&values[usize::from(sought.column)], sought.number)
    {
        return false;
    }
    row_passes(row, preds) && snapshot.sees(stamp)
}

/// Appends the seen rows of L1 that meet each comparison.
pub fn scan_rows(
    snapshot: &Snapshot<'_>,
    preds: &[ColumnPred],
    rows: &[Row],
    stamps: &[Stamp],
    out: &mut Vec<Found>,
) -> Result<(), AllocError>
    requires count { length rows.now ≤ 2 ^ 31 }
    requires stamped { length stamps.now ≡ length rows.now }
    requires wide { All (λ r. All (λ p. p.column < length r.values) preds.now) rows.now }
    ensures { OnOk result (out.new.items ≡ out.old.items ++ found_for snapshot.now preds.now Place.L1 (map keyed rows.now) stamps.now) }
{
    let sought = first_sought(preds);
    for i in 0..rows.len() {
        let row = &rows[i];
        if is_hit(snapshot, preds, sought, row, &stamps[i]) {
            out.push(Found {
                id: row.id,
                place: Place::L1(i as u32),
            })?;
        }
    }
    Ok(())
}

/// How many rows of L1 are seen and meet each comparison.
pub fn count_rows(
    snapshot: &Snapshot<'_>,
    preds: &[ColumnPred],
    rows: &[Row],
    stamps: &[Stamp],
) -> u32
    requires count { length rows.now ≤ 2 ^ 31 }
    requires stamped { length stamps.now ≡ length rows.now }
    requires wide { All (λ r. All (λ p. p.column < length r.values) preds.now) rows.now }
    ensures { result ≡ length (found_for snapshot.now preds.now Place.L1 (map keyed rows.now) stamps.now) }
{
    let sought = first_sought(preds);
    let mut count = 0;
    for i in 0..rows.len() {
        if is_hit(snapshot, preds, sought, &rows[i], &stamps[i]) {
            count += 1;
        }
    }
    count
}
