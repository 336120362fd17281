//! The values of the columns that are named.
ghost use Rattle.std.specs.Prelude.{◌≡◌, ◌<◌, ◌++◌, ℕ, List, Option, length, map, IfOk, OnOk, IsTrue, All};
ghost use Rattle.std.specs.List.{range_with_len};
ghost use Rattle.ut_plain.specs.Query.{picked};
ghost use Rattle.ut_staged.specs.Staged.{row_at};
ghost use Rattle.ut_table.specs.Finds.{rows_at};
ghost use Rattle.ut_ops.specs.Fit.{is_row, Fit, cell, values_at};
ghost use Rattle.ut_names.specs.Resolved.{AreColumns};
ghost use Rattle.ut_ops.specs.Named.{AreWithin};

use crate::cell::{value_at, values_at};
use crate::gather::cells;
use std::alloc::{AllocError, Global};
use ut_names::Columns;
use ut_rows::{Cells, Rows};
use ut_scan::Found;
use ut_table::Table;
use ut_value::{Seq, Value};

/// Fewer rows are read one by one, more of them column by column.
const FEW: usize = 64;

/// The columns that are named, or all, of each row.
pub fn select(
    alloc: Global,
    table: &Table,
    columns: &Columns,
    hits: &[Found],
) -> Result<Rows, AllocError>
    requires places { AreWithin table.now.stages.columns columns.now }
    requires fit { Fit table.now.stages hits.now }
    ensures { let s = table.now.stages in
        IfOk result (λ rows. (n : ℕ) (names : Option (List (List ℕ)))
        → AreColumns s.columns names columns.now
        → rows ≡ map (λ e. picked s.columns names e.1.values) (rows_at n s hits.now)) }
{
    match columns {
        Columns::All => {
            let rows = all_columns(alloc, table, hits)?;
            Ok(rows)
        }
        Columns::Named(places) => {
            let rows = some_columns(alloc, table, places.as_slice(), hits)?;
            Ok(rows)
        }
    }
}

fn all_columns(alloc: Global, table: &Table, hits: &[Found]) -> Result<Rows, AllocError>
    requires { Fit table.now.stages hits.now }
    ensures { IfOk result (λ rows. rows ≡ map (values_at table.now.stages) hits.now) }
{
    if FEW < hits.len() {
        let places = all_places(alloc, table.columns().len())?;
        let rows = by_columns(alloc, table, places.as_slice(), hits)?;
        return Ok(rows);
    }
    let mut rows = Seq::new(alloc);
    for hit in hits {
        let row = values_at(alloc, table, *hit)?;
        rows.push(row)?;
    }
    Ok(Rows::of_lists(rows))
}

/// The places of so many columns.
pub(crate) fn all_places(alloc: Global, width: usize) -> Result<Vec<usize>, AllocError>
    ensures { IfOk result (λ places. places.items ≡ range_with_len 0 width) }
{
    let mut places = Vec::with_capacity(alloc, width)?;
    for place in 0..width {
        places.push(place)?;
    }
    Ok(places)
}

fn some_columns(
    alloc: Global,
    table: &Table,
    places: &[usize],
    hits: &[Found],
) -> Result<Rows, AllocError>
    requires fit { Fit table.now.stages hits.now }
    requires places { All (λ place. place < length table.now.stages.columns) places.now }
    ensures { IfOk result (λ rows. rows ≡ map (λ f. map (λ place. cell table.now.stages place f) places.now) hits.now) }
{
    if FEW < hits.len() {
        return by_columns(alloc, table, places, hits);
    }
    let mut rows = Seq::new(alloc);
    for hit in hits {
        let row = picked_row(alloc, table, places, *hit)?;
        rows.push(row)?;
    }
    Ok(Rows::of_lists(rows))
}

fn picked_row(
    alloc: Global,
    table: &Table,
    places: &[usize],
    hit: Found,
) -> Result<Seq<Value>, AllocError>
    requires row { IsTrue (is_row table.now.stages.columns (row_at table.now.stages hit.place)) }
    requires places { All (λ place. place < length table.now.stages.columns) places.now }
    ensures { IfOk result (λ values. values ≡ map (λ place. cell table.now.stages place hit) places.now) }
{
    let mut values = Seq::new(alloc);
    for place in places {
        let value = value_at(alloc, table, hit, *place)?;
        values.push(value)?;
    }
    Ok(values)
}

fn by_columns(
    alloc: Global,
    table: &Table,
    places: &[usize],
    hits: &[Found],
) -> Result<Rows, AllocError>
    requires fit { Fit table.now.stages hits.now }
    requires places { All (λ place. place < length table.now.stages.columns) places.now }
    ensures { IfOk result (λ rows. rows ≡ map (λ f. map (λ place. cell table.now.stages place f) places.now) hits.now) }
{
    let mut columns = Vec::with_capacity(alloc, places.len())?;
    add_columns(alloc, table, places, hits, &mut columns)?;
    Ok(Rows::of_columns(hits.len(), columns))
}

/// These columns of a table, behind others.
pub(crate) fn add_columns(
    alloc: Global,
    table: &Table,
    places: &[usize],
    hits: &[Found],
    columns: &mut Vec<Cells>,
) -> Result<(), AllocError>
    requires fit { Fit table.now.stages hits.now }
    requires places { All (λ place. place < length table.now.stages.columns) places.now }
    ensures { OnOk result (columns.new.items ≡ columns.old.items ++ map (λ place. map (cell table.now.stages place) hits.now) places.now) }
{
    for place in places {
        let column = cells(alloc, table, *place, hits)?;
        columns.push(column)?;
    }
    Ok(())
}
