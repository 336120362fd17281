//! The stages that aren't main, row by row.
ghost use Rattle.ut_table.specs.Numbered.{IsAtRest};

use crate::rows::three_rows;
use crate::table::begin;
use std::alloc::{AllocError, Global};
use std::process::Abort;
use ut_stamps::Fates;
use ut_table::{Stage, Table};
use ut_value::MergeKind;

// The rows of a stage have these ids, each with its stamp.
fn has_ids(
    rt: &impl Abort,
    alloc: Global,
    table: &Table,
    stage: Stage,
    ids: &[u32],
) -> Result<(), AllocError> {
    let stamps = table.stamps_in(stage);
    assert!(rt; stamps.len() == ids.len());
    for i in 0..stamps.len() {
        let row = table.row(alloc, stage.place(i as u32))?;
        assert!(rt; row.id == ids[i] && stamps[i].end.is_none());
    }
    Ok(())
}

// The ids of the first stage, of the second and of the closed one.
fn have_ids(
    rt: &impl Abort,
    alloc: Global,
    table: &Table,
    l1: &[u32],
    l2: &[u32],
    closed: &[u32],
) -> Result<(), AllocError> {
    has_ids(rt, alloc, table, Stage::L1, l1)?;
    has_ids(rt, alloc, table, Stage::L2, l2)?;
    has_ids(rt, alloc, table, Stage::Closed, closed)
}

// A merge begins, whose job is left.
fn begin_only(alloc: Global, table: &mut Table, fates: &Fates) -> Result<(), AllocError>
    requires { IsAtRest 4 table.old.stages }
{
    let job = begin(alloc, table, fates, MergeKind::Partial, 4)?;
    drop(job);
    Ok(())
}

// Rows 1 to 3, before a merge and while it is pending.
fn have_all_ids(
    rt: &impl Abort,
    alloc: Global,
    table: &mut Table,
    fates: &Fates,
) -> Result<(), AllocError>
    requires { IsAtRest 4 table.old.stages }
{
    have_ids(rt, alloc, table, &[3], &[1, 2], &[])?;
    begin_only(alloc, table, fates)?;
    have_ids(rt, alloc, table, &[3], &[], &[1, 2])
}

fn three_have_ids(rt: &impl Abort, alloc: Global, fates: &Fates) -> Result<(), AllocError> {
    let mut table = three_rows(rt, alloc)?;
    let have = have_all_ids(rt, alloc, &mut table, fates);
    drop(table);
    have
}

#[test]
fn rows_outside_of_main_are_read_by_their_stage(rt: HostRuntime) -> Result<(), AllocError> {
    let fates = Fates::new(rt.alloc())?;
    three_have_ids(&rt, rt.alloc(), &fates)
}
