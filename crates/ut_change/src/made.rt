//! The operations that a delete and an update make.
ghost use Rattle.std.specs.Prelude.{◌≡◌, ◌+◌, ◌<◌, ◌^◌, IfOk, IsSome, length, map, slice_set};
ghost use Rattle.ut_scan.specs.declared.place.Found.{Found};
ghost use Rattle.ut_exact.specs.Scan.{stored_in};
ghost use Rattle.ut_staged.specs.Staged.{row_at};
ghost use Rattle.ut_table.specs.Finds.{hits_of};
ghost use Rattle.ut_change.specs.Writes.{AreThere};
ghost use Rattle.ut_change.specs.Made.{updated_ops};

use std::alloc::{AllocError, Global};
use ut_scan::{Found, Place};
use ut_table::Table as Stages;
use ut_value::{Op, Seq, Value};

/// The deletes of the rows found, one each, in their order. An error says that memory ran out.
pub fn delete_ops(alloc: Global, table: u16, hits: &[Found]) -> Result<Vec<Op>, AllocError>
    ensures { IfOk result (λ ops. ops.items ≡ map (λ (f : Found). Op.Delete table f.id) hits.now) }
{
    hits.iter()
        .map(|hit| Op::Delete { table, id: hit.id })
        .collect(alloc)
}

/// Where an update changes a value: the table and the column, by their places.
#[derive(Clone, Copy)]
pub struct Change {
    pub table: u16,
    pub column: usize,
}

/// For each of the rows found a delete, and behind it the insert of a copy that has another value in a column. The copies
/// have the ids from `id` on. An error says that memory ran out.
pub fn update_ops(
    alloc: Global,
    stages: &Stages,
    change: Change,
    id: u32,
    value: &Value,
    hits: &[Found],
) -> Result<Vec<Op>, AllocError>
    requires there { AreThere stages.now.stages (hits_of hits.now) }
    requires ids { id + length hits.now < 2 ^ 32 }
    ensures { IfOk result (λ ops. ops.items ≡ updated_ops stages.now.stages change.table id change.column value.now (hits_of hits.now)) }
{
    let mut ops = Vec::new(alloc);
    let mut id = id;
    for hit in hits {
        let values = changed_values(alloc, stages, change, hit.place, value)?;
        ops.push(Op::Delete {
            table: change.table,
            id: hit.id,
        })?;
        ops.push(Op::Insert {
            table: change.table,
            id,
            values,
        })?;
        id += 1;
    }
    Ok(ops)
}

// A copy of a row with another value in a column.
fn changed_values(
    alloc: Global,
    stages: &Stages,
    change: Change,
    place: Place,
    value: &Value,
) -> Result<Seq<Value>, AllocError>
    requires { IsSome (row_at stages.now.stages place) }
    ensures { IfOk result (λ values. values
        ≡ slice_set (stored_in change.table (row_at stages.now.stages place)).values change.column value.now) }
{
    let values = stages.values(alloc, place)?;
    let value = value.copy(alloc)?;
    Ok(Seq::from_vec(with_value(values.into_vec(), change.column, value)))
}

// The values with another one in a column, as they were where there is no such column.
fn with_value(mut values: Vec<Value>, column: usize, value: Value) -> Vec<Value>
    ensures { result.items ≡ slice_set values.items column value }
{
    if column >= values.len() {
        return values;
    }
    values[column] = value;
    values
}
