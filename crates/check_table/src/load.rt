//! Rows whose values stand one row's behind the other's.
ghost use Rattle.std.specs.Prelude.{◌≡◌, ◌+◌, ◌<◌, ◌≤◌, OnOk};
ghost use Rattle.ut_table.specs.Numbered.{IsAtRest};

use crate::found::finds_each;
use crate::rows::{Stage, add, bare, text};
use crate::table::has_shape;
use std::alloc::{AllocError, Global};
use std::process::Abort;
use ut_l2::L2;
use ut_plain::fits_columns;
use ut_stamps::Fates;
use ut_table::Table;
use ut_value::{Value, same_bytes};

// The numbers of so many rows: ten times the row's place, and the column's.
fn numbers(alloc: Global, width: u8, rows: u32) -> Result<Vec<Value>, AllocError> {
    let mut values = Vec::new(alloc);
    for i in 0..rows {
        for j in 0..width {
            values.push(Value::Int(10 * i64::from(i) + i64::from(j)))?;
        }
    }
    Ok(values)
}

fn append(
    rt: &impl Abort,
    l2: &mut L2,
    width: usize,
    first_id: u32,
    values: &[Value],
) -> Result<(), AllocError>
    requires { l2.old.width ≡ width }
    ensures { l2.new.width ≡ width }
{
    assert!(rt; width > 0);
    assert!(rt; values.len() % width == 0);
    assert!(rt; values.len() / width <= 1000);
    assert!(rt; u64::from(first_id) + (values.len() / width) as u64 <= 1 << 32);
    assert!(rt; l2.len() <= 1000);
    l2.append_values(first_id, values)
}

// From one place on these rows have those numbers, under the ids from one on.
fn has_rows(rt: &impl Abort, l2: &L2, width: u8, from: u32, first_id: u32, rows: u32)
    requires { l2.now.width ≡ width }
    ensures { (from ≤ 1000) × (rows ≤ 1000) }
{
    assert!(rt; from <= 1000 && rows <= 1000 && from + rows <= l2.len());
    for i in 0..rows {
        let id = u64::from(first_id) + u64::from(i);
        assert!(rt; u64::from(l2.row_id(from + i)) == id, "at {i}");
        for j in 0..width {
            let [_, _, a, b] = (10 * i + u32::from(j)).to_be_bytes();
            let key = [0x80, 0, 0, 0, 0, 0, a, b];
            assert!(rt; same_bytes(l2.bytes(j, from + i), &key), "at {i}, {j}");
        }
    }
}

/// Where some rows stand, their first id and how many they are: 256 go into a column at a time.
const APPENDED: [(u32, u32, u32); 5] = [
    (0, 9, 0),
    (0, 7, 2),
    (2, 100, 300),
    (302, u32::MAX, 1),
    (303, 1, 0),
];

// Rows of that many values each are appended, and stand where they should.
fn append_rows(
    rt: &impl Abort,
    alloc: Global,
    l2: &mut L2,
    width: u8,
    from: u32,
    first_id: u32,
    rows: u32,
) -> Result<(), AllocError>
    requires { l2.old.width ≡ width }
    ensures { l2.new.width ≡ width }
{
    let values = numbers(alloc, width, rows)?;
    append(rt, l2, usize::from(width), first_id, &values)?;
    has_rows(rt, l2, width, from, first_id, rows);
    assert!(rt; l2.len() == from + rows);
    Ok(())
}

fn append_each(rt: &impl Abort, alloc: Global, l2: &mut L2, width: u8) -> Result<(), AllocError>
    requires { l2.old.width ≡ width }
{
    for (from, first_id, rows) in APPENDED {
        append_rows(rt, alloc, l2, width, from, first_id, rows)?;
    }
    has_rows(rt, l2, width, 0, 7, 2);
    Ok(())
}

fn are_rows(rt: &impl Abort, alloc: Global, width: u8) -> Result<(), AllocError> {
    let mut l2 = L2::new(alloc, width)?;
    let appended = append_each(rt, alloc, &mut l2, width);
    drop(l2);
    appended
}

#[test]
fn values_are_rows_of_each_width(rt: HostRuntime) -> Result<(), AllocError> {
    for width in [1, 3] {
        are_rows(&rt, rt.alloc(), width)?;
    }
    Ok(())
}

// Adds the values of a row.
fn push_row(
    rt: &impl Abort,
    alloc: Global,
    values: &mut Vec<Value>,
    number: i64,
    bytes: &[u8],
) -> Result<(), AllocError> {
    values.push(Value::Int(number))?;
    values.push(text(rt, alloc, bytes)?)?;
    Ok(())
}

// The values of two rows.
fn two_rows(rt: &impl Abort, alloc: Global) -> Result<Vec<Value>, AllocError> {
    let mut values = Vec::new(alloc);
    push_row(rt, alloc, &mut values, 5, b"a")?;
    push_row(rt, alloc, &mut values, -7, b"b")?;
    Ok(values)
}

// Two rows of a number and a text are loaded.
fn load_values(
    rt: &impl Abort,
    table: &mut Table,
    first_id: u32,
    values: &[Value],
) -> Result<(), AllocError>
    requires rest { IsAtRest first_id table.old.stages }
    requires small { first_id < 100 }
    ensures { OnOk result (IsAtRest (first_id + 2) table.new.stages) }
{
    assert!(rt; table.columns().len() == 2 && values.len() == 4);
    let (first, second) = (&values[..2], &values[2..4]);
    assert!(rt; fits_columns(table.columns(), first) && fits_columns(table.columns(), second));
    table.load_values(first_id, values, 0)?;
    Ok(())
}

/// Rows 1 and 2 are loaded.
pub(crate) fn load_two(rt: &impl Abort, alloc: Global, table: &mut Table) -> Result<(), AllocError>
    requires { IsAtRest 1 table.old.stages }
    ensures { OnOk result (IsAtRest 3 table.new.stages) }
{
    let values = two_rows(rt, alloc)?;
    load_values(rt, table, 1, &values)
}

fn load_none(rt: &impl Abort, table: &mut Table, next: u32) -> Result<(), AllocError>
    requires rest { IsAtRest next table.old.stages }
    requires small { next < 100 }
    ensures { OnOk result (IsAtRest next table.new.stages) }
{
    assert!(rt; table.columns().len() == 2);
    table.load_values(next, &[], 0)
}

// No row is loaded, then two are, and a row is inserted.
fn load_three(rt: &impl Abort, alloc: Global, table: &mut Table) -> Result<(), AllocError>
    requires { IsAtRest 1 table.old.stages }
    ensures { OnOk result (IsAtRest 4 table.new.stages) }
{
    load_none(rt, table, 1)?;
    has_shape(rt, alloc, table, 0, 0, &[])?;
    load_two(rt, alloc, table)?;
    add(rt, alloc, table, Stage::First, 3, 5, b"c")?;
    has_shape(rt, alloc, table, 1, 2, &[])
}

fn finds_loaded(
    rt: &impl Abort,
    alloc: Global,
    table: &mut Table,
    fates: &Fates,
) -> Result<(), AllocError>
    requires { IsAtRest 1 table.old.stages }
{
    load_three(rt, alloc, table)?;
    finds_each(rt, alloc, table, fates, 4)
}

fn load_and_find(rt: &impl Abort, alloc: Global, fates: &Fates) -> Result<(), AllocError> {
    let mut table = bare(rt, alloc)?;
    let found = finds_loaded(rt, alloc, &mut table, fates);
    drop(table);
    found
}

#[test]
fn loaded_values_are_found(rt: HostRuntime) -> Result<(), AllocError> {
    let fates = Fates::new(rt.alloc())?;
    load_and_find(&rt, rt.alloc(), &fates)
}
