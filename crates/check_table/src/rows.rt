//! The rows of a small table, of a number and a text each.
ghost use Rattle.std.specs.Prelude.{◌≡◌, ◌+◌, ◌<◌, IfOk, OnOk, length};
ghost use Rattle.ut_table.specs.Numbered.{IsAtRest};

use std::alloc::{AllocError, Global};
use std::process::Abort;
use ut_plain::fits_columns;
use ut_stamps::Stamp;
use ut_table::Table;
use ut_value::{Column, Kind, Name, Row, Seq, Text, Value, is_name, is_text};

pub(crate) fn name(rt: &impl Abort, alloc: Global, bytes: &[u8]) -> Result<Name, AllocError> {
    let bytes = Vec::from_slice(alloc, bytes)?;
    assert!(rt; is_name(&bytes));
    Ok(Name::of(bytes))
}

fn column(rt: &impl Abort, alloc: Global, bytes: &[u8], kind: Kind) -> Result<Column, AllocError> {
    let name = name(rt, alloc, bytes)?;
    Ok(Column { name, kind })
}

pub(crate) fn text(rt: &impl Abort, alloc: Global, bytes: &[u8]) -> Result<Value, AllocError> {
    assert!(rt; is_text(bytes));
    Ok(Value::Text(Text::from_slice(alloc, bytes)?))
}

// The values of a row, a number and a text.
fn values(
    rt: &impl Abort,
    alloc: Global,
    number: i64,
    bytes: &[u8],
) -> Result<Seq<Value>, AllocError> {
    let mut values = Seq::new(alloc);
    values.push(Value::Int(number))?;
    values.push(text(rt, alloc, bytes)?)?;
    Ok(values)
}

fn row(rt: &impl Abort, alloc: Global, id: u32, number: i64, text: &[u8]) -> Result<Row, AllocError>
    ensures { IfOk result (λ r. r.id ≡ id) }
{
    let values = values(rt, alloc, number, text)?;
    Ok(Row { id, values })
}

// A row enters the first stage.
fn insert(rt: &impl Abort, table: &mut Table, row: Row) -> Result<(), AllocError>
    requires rest { IsAtRest row.id table.old.stages }
    requires small { row.id < 100 }
    ensures { OnOk result (IsAtRest (row.id + 1) table.new.stages) }
{
    table.room(1)?;
    assert!(rt; fits_columns(table.columns(), row.values.as_slice()));
    let stamp = Stamp {
        begin: 0,
        end: None,
    };
    table.push(row, stamp);
    Ok(())
}

// A row enters the second stage.
fn load(rt: &impl Abort, table: &mut Table, row: Row) -> Result<(), AllocError>
    requires rest { IsAtRest row.id table.old.stages }
    requires small { row.id < 100 }
    ensures { OnOk result (IsAtRest (row.id + 1) table.new.stages) }
{
    table.room(1)?;
    assert!(rt; fits_columns(table.columns(), row.values.as_slice()));
    let rows = [row];
    table.load(&rows, 0)?;
    Ok(())
}

/// Where a row comes in.
#[derive(Clone, Copy)]
pub(crate) enum Stage {
    First,
    Second,
}

/// A row is inserted into the first stage, or loaded into the second.
pub(crate) fn add(
    rt: &impl Abort,
    alloc: Global,
    table: &mut Table,
    stage: Stage,
    id: u32,
    number: i64,
    text: &[u8],
) -> Result<(), AllocError>
    requires rest { IsAtRest id table.old.stages }
    requires small { id < 100 }
    ensures { OnOk result (IsAtRest (id + 1) table.new.stages) }
{
    let row = row(rt, alloc, id, number, text)?;
    match stage {
        Stage::First => insert(rt, table, row),
        Stage::Second => load(rt, table, row),
    }
}

fn columns(rt: &impl Abort, alloc: Global) -> Result<Seq<Column>, AllocError>
    ensures { IfOk result (λ columns. length columns ≡ 2) }
{
    let mut columns = Seq::new(alloc);
    columns.push(column(rt, alloc, b"k", Kind::Int)?)?;
    columns.push(column(rt, alloc, b"v", Kind::Text)?)?;
    Ok(columns)
}

/// A table of a number and a text, without rows.
pub(crate) fn bare(rt: &impl Abort, alloc: Global) -> Result<Table, AllocError>
    ensures { IfOk result (λ table. IsAtRest 1 table.stages) }
{
    let columns = columns(rt, alloc)?;
    Table::new(alloc, columns)
}

// Rows 1 and 2 in the second stage, and row 3 in the first.
fn add_three(rt: &impl Abort, alloc: Global, table: &mut Table) -> Result<(), AllocError>
    requires { IsAtRest 1 table.old.stages }
    ensures { OnOk result (IsAtRest 4 table.new.stages) }
{
    add(rt, alloc, table, Stage::Second, 1, 5, b"a")?;
    add(rt, alloc, table, Stage::Second, 2, -7, b"b")?;
    add(rt, alloc, table, Stage::First, 3, 5, b"c")
}

/// A table of rows 1 and 2 in the second stage, and row 3 in the first.
pub(crate) fn three_rows(rt: &impl Abort, alloc: Global) -> Result<Table, AllocError>
    ensures { IfOk result (λ table. IsAtRest 4 table.stages) }
{
    let mut table = bare(rt, alloc)?;
    add_three(rt, alloc, &mut table)?;
    Ok(table)
}
