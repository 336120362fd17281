//! The values of a column over rows that were found: the key of a code is read once.
ghost use Rattle.std.specs.Prelude.{◌≡◌, ◌+◌, ◌<◌, ◌^◌, ◌++◌, ◌∷◌, [], ℕ, suc, length, map, get_or, slice_get, All, Some, IsTrue, IfOk, OnOk};
ghost use Rattle.ut_rows.specs.Columns.{values_at};
ghost use Rattle.ut_staged.specs.Staged.{row_at};
ghost use Rattle.ut_table.specs.Coded.{coded_values};
ghost use Rattle.ut_ops.specs.Fit.{is_row, Fit, cell};
ghost use Rattle.ut_ops.specs.Seen.{AreSeen, IsMore, IsLast};

use crate::cell::value_at;
use std::alloc::{AllocError, Global};
use ut_rows::Cells;
use ut_scan::Found;
use ut_table::Table;
use ut_value::{Kind, Value, value_of};

/// Of fewer rows no codes are noted.
const FEW: usize = 64;

/// The dictionaries of main are walked where a column has more codes than this.
const WALKED: usize = 1024;

/// A place has 32 bits, and so has one more.
const MOST_PLACES: usize = 0xffff_fffe;

/// The values of a column that were read.
#[derive(Drop)]
pub(crate) struct Seen {
    pub values: Vec<Value>,
    /// For each code one more than the place of its value, or 0 where that was not read. Codes
    /// behind them have none.
    pub marks: Vec<u32>,
}

/// The values of a column over some rows: those that were read, and for each row the place of its
/// value among them. Two of them may be equal.
#[derive(Drop)]
pub(crate) struct ReadValues {
    pub values: Vec<Value>,
    pub places: Vec<u32>,
}

/// The values of a column, in the order of the rows. Where there are more than a place of 32 bits
/// tells, there is no memory for them.
pub(crate) fn cells(
    alloc: Global,
    table: &Table,
    column: usize,
    hits: &[Found],
) -> Result<Cells, AllocError>
    requires column { column < length table.now.stages.columns }
    requires fit { Fit table.now.stages hits.now }
    ensures { IfOk result (λ cells. cells ≡ map (cell table.now.stages column) hits.now) }
{
    let ReadValues { values, places } = read_values(alloc, table, column, hits)?;
    Ok(Cells::of(values, places))
}

/// The same, with the values that were read apart from the rows' places.
pub(crate) fn read_values(
    alloc: Global,
    table: &Table,
    column: usize,
    hits: &[Found],
) -> Result<ReadValues, AllocError>
    requires column { column < length table.now.stages.columns }
    requires fit { Fit table.now.stages hits.now }
    ensures inside { IfOk result (λ read. All (λ place. place < length read.values.items) read.places.items) }
    ensures read { IfOk result (λ read. values_at read.values.items read.places.items ≡ map (cell table.now.stages column) hits.now) }
{
    let mut seen = seen_first(alloc, table, column, hits.len())?;
    let mut places = Vec::with_capacity(alloc, hits.len())?;
    for hit in hits {
        let place = place_of(alloc, table, column, *hit, &mut seen)?;
        places.push(place)?;
    }
    let Seen { values, .. } = seen;
    Ok(ReadValues { values, places })
}

/// What is read before the rows are: where they are many, marks for the codes of the column, and
/// where these are many too, the keys of main.
fn seen_first(alloc: Global, table: &Table, column: usize, rows: usize) -> Result<Seen, AllocError>
    requires { column < length table.now.stages.columns }
    ensures { IfOk result (λ seen. AreSeen table.now.stages column seen.values.items seen.marks.items) }
{
    let codes = table.codes(column);
    if rows < FEW || rows < codes {
        return Ok(Seen {
            values: Vec::new(alloc),
            marks: Vec::new(alloc),
        });
    }
    if WALKED < codes {
        return walked(alloc, table, column, codes);
    }
    Ok(Seen {
        values: Vec::new(alloc),
        marks: no_marks(alloc, codes)?,
    })
}

/// A mark for each code, none of which was read.
pub(crate) fn no_marks(alloc: Global, codes: usize) -> Result<Vec<u32>, AllocError>
    ensures { IfOk result (λ marks. (code : ℕ) → get_or marks.items code 0 ≡ 0) }
{
    let mut marks = Vec::with_capacity(alloc, codes)?;
    for _ in 0..codes {
        marks.push(0)?;
    }
    Ok(marks)
}

/// The values of main's codes, by one walk over its dictionaries.
fn walked(alloc: Global, table: &Table, column: usize, codes: usize) -> Result<Seen, AllocError>
    requires { column < length table.now.stages.columns }
    ensures { IfOk result (λ seen. AreSeen table.now.stages column seen.values.items seen.marks.items) }
{
    let keys = table.main_keys(alloc, column)?;
    let kind = table.columns()[column].kind;
    let mut values = Vec::with_capacity(alloc, keys.len())?;
    let mut marks = Vec::with_capacity(alloc, codes)?;
    for code in 0..keys.len() {
        let mark = add_key(alloc, kind, keys.key(code), &mut values)?;
        marks.push(mark)?;
    }
    for _ in keys.len()..codes {
        marks.push(0)?;
    }
    Ok(Seen { values, marks })
}

/// The value of a key, behind others: its mark.
fn add_key(
    alloc: Global,
    kind: Kind,
    key: &[u8],
    values: &mut Vec<Value>,
) -> Result<u32, AllocError>
    ensures more { OnOk result (IsMore values.old.items values.new.items) }
    ensures value { IfOk result (λ mark. (place : ℕ) → mark ≡ suc place → IsLast kind key.now values.new.items place) }
{
    match value_of(alloc, kind, key)? {
        Some(value) => Ok(add_value(values, value)? + 1),
        None => Ok(0),
    }
}

/// A value behind others: its place.
fn add_value(values: &mut Vec<Value>, value: Value) -> Result<u32, AllocError>
    ensures values { OnOk result (values.new.items ≡ values.old.items ++ value ∷ []) }
    ensures place { IfOk result (λ place. place ≡ length values.old.items) }
    ensures few { IfOk result (λ place. place + 1 < 2 ^ 32) }
{
    let place = values.len();
    if MOST_PLACES < place {
        return Err(AllocError);
    }
    values.push(value)?;
    Ok(place as u32)
}

/// A row's value behind others: its place.
fn add_cell(
    alloc: Global,
    table: &Table,
    column: usize,
    hit: Found,
    values: &mut Vec<Value>,
) -> Result<u32, AllocError>
    requires row { IsTrue (is_row table.now.stages.columns (row_at table.now.stages hit.place)) }
    requires column { column < length table.now.stages.columns }
    ensures values { OnOk result (values.new.items ≡ values.old.items ++ cell table.now.stages column hit ∷ []) }
    ensures place { IfOk result (λ place. place ≡ length values.old.items) }
    ensures few { IfOk result (λ place. place + 1 < 2 ^ 32) }
{
    let value = value_at(alloc, table, hit, column)?;
    let place = add_value(values, value)?;
    Ok(place)
}

/// The place of a row's value among those that were read, where it was, or behind them.
fn place_of(
    alloc: Global,
    table: &Table,
    column: usize,
    hit: Found,
    seen: &mut Seen,
) -> Result<u32, AllocError>
    requires row { IsTrue (is_row table.now.stages.columns (row_at table.now.stages hit.place)) }
    requires column { column < length table.now.stages.columns }
    requires seen { AreSeen table.now.stages column seen.old.values.items seen.old.marks.items }
    ensures place { IfOk result (λ place. slice_get seen.new.values.items place ≡ Some (cell table.now.stages column hit)) }
    ensures seen { OnOk result (AreSeen table.now.stages column seen.new.values.items seen.new.marks.items) }
    ensures more { OnOk result (IsMore seen.old.values.items seen.new.values.items) }
{
    if let Some(code) = table.code(hit.place, column) {
        if code < seen.marks.len() {
            let place = coded_place(alloc, table, column, hit, code, seen)?;
            return Ok(place);
        }
    }
    let place = add_cell(alloc, table, column, hit, &mut seen.values)?;
    Ok(place)
}

/// The same of a row whose code has a mark.
fn coded_place(
    alloc: Global,
    table: &Table,
    column: usize,
    hit: Found,
    code: usize,
    seen: &mut Seen,
) -> Result<u32, AllocError>
    requires row { IsTrue (is_row table.now.stages.columns (row_at table.now.stages hit.place)) }
    requires column { column < length table.now.stages.columns }
    requires code { slice_get (coded_values table.now.stages column) code ≡ Some (cell table.now.stages column hit) }
    requires marked { code < length seen.old.marks.items }
    requires seen { AreSeen table.now.stages column seen.old.values.items seen.old.marks.items }
    ensures place { IfOk result (λ place. slice_get seen.new.values.items place ≡ Some (cell table.now.stages column hit)) }
    ensures seen { OnOk result (AreSeen table.now.stages column seen.new.values.items seen.new.marks.items) }
    ensures more { OnOk result (IsMore seen.old.values.items seen.new.values.items) }
{
    let mark = seen.marks[code];
    if mark != 0 {
        return Ok(mark - 1);
    }
    let place = add_cell(alloc, table, column, hit, &mut seen.values)?;
    seen.marks[code] = place + 1;
    Ok(place)
}
