//! A second stage that a merge may share. Rows never wait for a share to be given back: where
//! there is one, they go to a copy that takes the stage's place.
ghost use Rattle.std.specs.Prelude.{◌≡◌, ◌+◌, ◌^◌, ◌<◌, ◌≤◌, ◌++◌, List, length, map, All, IfOk, OnOk, OnErr};
ghost use Rattle.std.specs.Arc.{arc_value};
ghost use Rattle.ut_value.specs.declared.value.Row.{Row};
ghost use Rattle.ut_l2.specs.KeyRows.{keyed};
ghost use Rattle.ut_l2.specs.Sources.{AreFlat};
ghost use Rattle.ut_table.specs.Kept.{IsStage};

use crate::standing::{Standing, values_of};
use std::alloc::{AllocError, Global};
use std::sync::Arc;
use ut_l2::L2;
use ut_value::{Column, Row, Value};

/// A copy of a stage, row by row.
fn copied(alloc: Global, columns: &[Column], l2: &L2) -> Result<L2, AllocError>
    requires { IsStage columns.now l2.now }
    ensures { IfOk result (λ copy. copy ≡ l2.now) }
{
    let mut copy = L2::new(alloc, columns.len() as u8)?;
    for i in 0..l2.len() {
        let id = l2.row_id(i);
        let values = values_of(alloc, columns, Standing::Delta(l2, i))?;
        copy.append(&[Row { id, values }])?;
    }
    Ok(copy)
}

/// Appends all the rows, or none. Where the stage is shared, a copy with them takes its place.
pub(crate) fn append(
    alloc: Global,
    columns: &[Column],
    l2: &mut Arc<L2>,
    rows: &[Row],
) -> Result<(), AllocError>
    requires stage { IsStage columns.now (arc_value l2.old) }
    requires wide { All (λ r. length r.values ≡ (arc_value l2.old).width) rows.now }
    requires count { length (arc_value l2.old).rows + length rows.now ≤ 2 ^ 31 }
    ensures width { (arc_value l2.new).width ≡ (arc_value l2.old).width }
    ensures ok { OnOk result ((arc_value l2.new).rows ≡ (arc_value l2.old).rows ++ map keyed rows.now) }
    ensures err { OnErr result ((arc_value l2.new).rows ≡ (arc_value l2.old).rows) }
{
    match Arc::get_mut(l2) {
        Some(l2) => l2.append(rows),
        None => {
            let mut copy = copied(alloc, columns, l2)?;
            copy.append(rows)?;
            *l2 = Arc::new(alloc, copy)?;
            Ok(())
        }
    }
}

/// The same of the rows that these values are, under the ids from one on.
pub(crate) fn append_values(
    alloc: Global,
    columns: &[Column],
    l2: &mut Arc<L2>,
    first_id: u32,
    values: &[Value],
) -> Result<(), AllocError>
    ghost rows: { List Row }
    requires stage { IsStage columns.now (arc_value l2.old) }
    requires are { AreFlat rows first_id (arc_value l2.old).width values.now }
    requires width { 0 < (arc_value l2.old).width }
    requires ids { first_id + length rows ≤ 2 ^ 32 }
    requires count { length (arc_value l2.old).rows + length rows ≤ 2 ^ 31 }
    ensures width { (arc_value l2.new).width ≡ (arc_value l2.old).width }
    ensures ok { OnOk result ((arc_value l2.new).rows ≡ (arc_value l2.old).rows ++ map keyed rows) }
    ensures err { OnErr result ((arc_value l2.new).rows ≡ (arc_value l2.old).rows) }
{
    match Arc::get_mut(l2) {
        Some(l2) => l2.append_values(first_id, values),
        None => {
            let mut copy = copied(alloc, columns, l2)?;
            copy.append_values(first_id, values)?;
            *l2 = Arc::new(alloc, copy)?;
            Ok(())
        }
    }
}
