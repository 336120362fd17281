//! A shot of a small table, asked when the table is gone.
ghost use Rattle.std.specs.Prelude.{◌≡◌, IfOk, length};
ghost use Rattle.ut_plain.specs.State.{State};
ghost use Rattle.ut_shot.specs.Shot.{IsShotOf};
ghost use Rattle.check_tables.specs.OneRow.{HasOneRow};

use crate::tables::{columns, name};
use std::alloc::{AllocError, Global};
use std::process::Abort;
use ut_look::Look;
use ut_plain::{Query, Reply, Table, fits_columns};
use ut_shot::Shot;
use ut_stamps::{Fates, Snapshot, Stamp};
use ut_table::Table as Stages;
use ut_value::{Column, Duplicate, Row, Seq, Value, values_keep_rules};

// A table of one column of numbers.
fn one_column(rt: &impl Abort, alloc: Global) -> Result<Table, AllocError>
    ensures { IfOk result (λ head. length head.columns ≡ 1) }
{
    let name = name(rt, alloc, b"t")?;
    let columns = columns(rt, alloc)?;
    Ok(Table { name, columns })
}

// Its stages, with one row of the number 7, which everybody sees.
fn one_row(rt: &impl Abort, alloc: Global, columns: Seq<Column>) -> Result<Stages, AllocError>
    requires { length columns ≡ 1 }
    ensures { IfOk result (λ table. HasOneRow columns table.stages) }
{
    let mut table = Stages::new(alloc, columns)?;
    let mut values = Seq::new(alloc);
    values.push(Value::Int(7))?;
    assert!(rt; fits_columns(table.columns(), values.as_slice()));
    values_keep_rules(values.as_slice());
    table.room(1)?;
    let stamp = Stamp {
        begin: 0,
        end: None,
    };
    table.push(Row { id: 1, values }, stamp);
    Ok(table)
}

// A shot of the table for a question. The table is gone behind it.
fn shot_of_one(rt: &impl Abort, alloc: Global, query: &Query) -> Result<Shot, AllocError>
    ensures { IfOk result (λ shot. (s : State) × IsShotOf query.now s shot) }
{
    let fates = Fates::new(alloc)?;
    let head = one_column(rt, alloc)?;
    let columns = head.columns.duplicate(alloc)?;
    let table = one_row(rt, alloc, columns)?;
    let heads = [head];
    let stages = [table];
    let snapshot = Snapshot {
        fates: &fates,
        at: 0,
        own: None,
    };
    let look = Look {
        tables: &heads,
        stages: &stages,
        snapshot,
    };
    let shot = Shot::take(alloc, &look, query);
    drop(stages);
    shot
}

// What a shot tells.
fn told(rt: &impl Abort, alloc: Global, query: &Query) -> Result<Reply, AllocError> {
    let shot = shot_of_one(rt, alloc, query)?;
    let reply = shot.answer(alloc, query);
    drop(shot);
    reply
}

// The sum of a column of a table.
fn sum_of(
    rt: &impl Abort,
    alloc: Global,
    table: &[u8],
    column: &[u8],
) -> Result<Query, AllocError> {
    Ok(Query::Sum {
        table: name(rt, alloc, table)?,
        column: name(rt, alloc, column)?,
        preds: Seq::new(alloc),
    })
}

// What a shot tells of the sum of the column k of a table.
fn sum_told(rt: &impl Abort, alloc: Global, table: &[u8]) -> Result<Reply, AllocError> {
    let query = sum_of(rt, alloc, table, b"k")?;
    let reply = told(rt, alloc, &query);
    drop(query);
    reply
}

#[test]
fn a_shot_is_answered_when_its_table_is_gone(rt: HostRuntime) -> Result<(), AllocError> {
    let reply = sum_told(&rt, rt.alloc(), b"t")?;
    let is_told = matches!(&reply, Reply::Sum(7));
    drop(reply);
    assert!(rt; is_told);
    Ok(())
}

#[test]
fn a_shot_refuses_a_name_that_is_not_there(rt: HostRuntime) -> Result<(), AllocError> {
    let reply = sum_told(&rt, rt.alloc(), b"u")?;
    let is_refused = matches!(&reply, Reply::Refused(_));
    drop(reply);
    assert!(rt; is_refused);
    Ok(())
}
