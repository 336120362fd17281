//! The rows that a scan of a small table finds.
ghost use Rattle.std.specs.Prelude.{◌≡◌, ◌<◌, ◌∷◌, [], None, IsSome, IfOk, length};
ghost use Rattle.ut_plain.specs.Compiled.{Compiles};
ghost use Rattle.ut_staged.specs.Staged.{row_at};
ghost use Rattle.ut_table.specs.Finds.{SeenOnce, AreThere};
ghost use Rattle.ut_table.specs.Numbered.{AreNumbered};

use crate::rows::name;
use std::alloc::{AllocError, Global};
use std::process::Abort;
use ut_key::{Cmp, Key};
use ut_plain::{Pred, column_of, has_column, is_of_kind, kind_in};
use ut_scan::{ColumnPred, Found, Place};
use ut_stamps::{Fates, Snapshot};
use ut_table::Table;
use ut_value::{Column, Value, key_of, same_bytes, value_keeps_rule};

// A comparison by the place of its column.
fn placed(rt: &impl Abort, columns: &[Column], pred: &Pred) -> ColumnPred
    ensures { Compiles columns.now (pred.now ∷ []) (result ∷ []) }
{
    let known = has_column(columns, pred.column.as_slice());
    let place = column_of(columns, pred.column.as_slice()).unwrap_or(64);
    assert!(rt; known && place < 64);
    let Some(kind) = kind_in(columns, pred.column.as_slice()) else {
        panic!(rt; "a column has no kind");
    };
    let fits = is_of_kind(kind, &pred.value);
    assert!(rt; fits);
    value_keeps_rule(&pred.value);
    ColumnPred {
        column: place as u8,
        op: pred.op,
        key: key_of(&pred.value),
    }
}

/// A comparison of the numbers of the rows.
pub(crate) fn number_pred(
    rt: &impl Abort,
    alloc: Global,
    op: Cmp,
    number: i64,
) -> Result<Pred, AllocError> {
    Ok(Pred {
        column: name(rt, alloc, b"k")?,
        op,
        value: Value::Int(number),
    })
}

// What is seen before the first entry.
fn at_first(fates: &Fates) -> Snapshot<'_>
    ensures fates { result.fates.now ≡ fates.now }
    ensures at { result.at ≡ 0 }
    ensures own { result.own ≡ None }
{
    Snapshot {
        fates,
        at: 0,
        own: None,
    }
}

// How many rows meet a comparison.
fn count(
    rt: &impl Abort,
    alloc: Global,
    table: &Table,
    fates: &Fates,
    pred: &Pred,
) -> Result<u64, AllocError>
    requires { SeenOnce table.now.stages fates.now 0 None }
{
    let preds = [placed(rt, table.columns(), pred)];
    table.count(alloc, at_first(fates), &preds)
}

/// Finds the rows that meet a comparison.
pub(crate) fn find(
    rt: &impl Abort,
    alloc: Global,
    table: &Table,
    fates: &Fates,
    pred: &Pred,
) -> Result<Vec<Found>, AllocError>
    requires { SeenOnce table.now.stages fates.now 0 None }
    ensures { IfOk result (λ found. AreThere table.now.stages found.items) }
{
    let preds = [placed(rt, table.columns(), pred)];
    let found = table.scan(alloc, at_first(fates), &preds)?;
    Ok(found)
}

// The row in a place has this key in the column of texts.
fn has_key(rt: &impl Abort, table: &Table, place: Place, text: &[u8])
    requires there { IsSome (row_at table.now.stages place) }
    requires wide { 1 < length table.now.stages.columns }
{
    let mut room = Key::new();
    assert!(rt; same_bytes(table.key(place, 1, &mut room), text));
}

// The row in a place has this text.
fn has_text(
    rt: &impl Abort,
    alloc: Global,
    table: &Table,
    place: Place,
    text: &[u8],
) -> Result<(), AllocError>
    requires there { IsSome (row_at table.now.stages place) }
    requires wide { 1 < length table.now.stages.columns }
{
    let value = table.value(alloc, place, 1)?;
    let is_text = matches!(&value, Value::Text(found) if same_bytes(found.as_slice(), text));
    drop(value);
    assert!(rt; is_text);
    Ok(())
}

// The row in a place has two values, and this id.
fn has_row(
    rt: &impl Abort,
    alloc: Global,
    table: &Table,
    place: Place,
    id: u32,
) -> Result<(), AllocError>
    requires { IsSome (row_at table.now.stages place) }
{
    let row = table.row(alloc, place)?;
    assert!(rt; row.id == id && row.values.len() == 2);
    Ok(())
}

// The row in a place has this id and this text, by each call that reads it.
fn has(
    rt: &impl Abort,
    alloc: Global,
    table: &Table,
    place: Place,
    id: u32,
    text: &[u8],
) -> Result<(), AllocError>
    requires { IsSome (row_at table.now.stages place) }
{
    assert!(rt; table.columns().len() == 2 && table.stamp(place).begin == 0);
    has_key(rt, table, place, text);
    has_text(rt, alloc, table, place, text)?;
    has_row(rt, alloc, table, place, id)?;
    assert!(rt; table.values(alloc, place)?.len() == 2);
    Ok(())
}

/// A row by its id and its text.
type Wanted = (u32, &'static [u8]);

// The rows found are these.
fn are(
    rt: &impl Abort,
    alloc: Global,
    table: &Table,
    found: &[Found],
    wanted: &[Wanted],
) -> Result<(), AllocError>
    requires { AreThere table.now.stages found.now }
{
    assert!(rt; found.len() == wanted.len());
    for i in 0..wanted.len() {
        let (id, text) = wanted[i];
        assert!(rt; found[i].id == id);
        has(rt, alloc, table, found[i].place, id, text)?;
    }
    Ok(())
}

// The rows that meet a comparison are these, found and counted.
fn finds_by(
    rt: &impl Abort,
    alloc: Global,
    table: &Table,
    fates: &Fates,
    pred: &Pred,
    wanted: &[Wanted],
) -> Result<(), AllocError>
    requires { SeenOnce table.now.stages fates.now 0 None }
{
    let count = count(rt, alloc, table, fates, pred)?;
    let found = find(rt, alloc, table, fates, pred)?;
    assert!(rt; count == found.len() as u64);
    are(rt, alloc, table, &found, wanted)
}

// The rows whose number meets a comparison are these.
fn finds(
    rt: &impl Abort,
    alloc: Global,
    table: &Table,
    fates: &Fates,
    op: Cmp,
    number: i64,
    wanted: &[Wanted],
) -> Result<(), AllocError>
    requires { SeenOnce table.now.stages fates.now 0 None }
{
    let pred = number_pred(rt, alloc, op, number)?;
    let found = finds_by(rt, alloc, table, fates, &pred, wanted);
    drop(pred);
    found
}

/// Rows 1 and 3 have the number 5, and row 2 a negative one.
pub(crate) fn finds_each(
    rt: &impl Abort,
    alloc: Global,
    table: &Table,
    fates: &Fates,
    next: u32,
) -> Result<(), AllocError>
    requires { AreNumbered next table.now.stages }
{
    finds(rt, alloc, table, fates, Cmp::Eq, 5, &[(1, b"a"), (3, b"c")])?;
    finds(rt, alloc, table, fates, Cmp::Lt, 0, &[(2, b"b")])
}
