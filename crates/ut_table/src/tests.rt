//! A second stage that somebody shares.
ghost use Rattle.std.specs.Prelude.{◌≡◌, [], length, All, IfOk};
ghost use Rattle.std.specs.Arc.{arc_value};
ghost use Rattle.ut_value.specs.declared.value.Row.{Row};

use crate::shared::append;
use std::alloc::{AllocError, Global};
use std::process::Abort;
use std::sync::Arc;
use std::test::Fail;
use ut_l2::L2;
use ut_value::{Column, Kind, Name, Row, Seq, Value, is_name};

/// A column of numbers.
fn numbers(rt: &impl Abort, alloc: Global) -> Result<Column, AllocError> {
    let bytes = Vec::from_slice(alloc, b"k")?;
    assert!(rt; is_name(&bytes));
    Ok(Column {
        name: Name::of(bytes),
        kind: Kind::Int,
    })
}

/// A row of one number.
fn row(alloc: Global) -> Result<Row, AllocError>
    ensures { IfOk result (λ row. length row.values ≡ 1) }
{
    let mut values = Seq::new(alloc);
    values.push(Value::Int(7))?;
    Ok(Row { id: 1, values })
}

/// The rows go to a copy of the stage: the share has none of them.
fn enter(
    rt: &impl Abort,
    alloc: Global,
    columns: &[Column],
    l2: &mut Arc<L2>,
    rows: &[Row],
) -> Result<(), Fail>
    requires column { length columns.now ≡ 1 }
    requires width { (arc_value l2.old).width ≡ 1 }
    requires empty { (arc_value l2.old).rows ≡ [] }
    requires row { length rows.now ≡ 1 }
    requires wide { All (λ (r : Row). length r.values ≡ 1) rows.now }
{
    let share = Arc::try_clone(l2)?;
    append(alloc, columns, l2, rows)?;
    assert_eq!(rt; l2.len(), 1);
    assert_eq!(rt; share.len(), 0);
    Ok(())
}

/// The same of a stage without rows.
fn enter_empty(rt: &impl Abort, alloc: Global, columns: &[Column], rows: &[Row]) -> Result<(), Fail>
    requires column { length columns.now ≡ 1 }
    requires row { length rows.now ≡ 1 }
    requires wide { All (λ (r : Row). length r.values ≡ 1) rows.now }
{
    let mut l2 = Arc::new(alloc, L2::new(alloc, 1)?)?;
    enter(rt, alloc, columns, &mut l2, rows)
}

/// The same of one row.
fn enter_row(rt: &impl Abort, alloc: Global, columns: &[Column]) -> Result<(), Fail>
    requires { length columns.now ≡ 1 }
{
    let rows = [row(alloc)?];
    enter_empty(rt, alloc, columns, &rows)
}

#[test]
fn a_share_keeps_no_row_out(rt: HostRuntime) -> Result<(), Fail> {
    let columns = [numbers(&rt, rt.alloc())?];
    enter_row(&rt, rt.alloc(), &columns)
}
