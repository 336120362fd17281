//! A small table, with rows in each stage, and its merges.
ghost use Rattle.std.specs.Prelude.{◌≡◌, ◌≢◌, Some, IfOk, OnOk};
ghost use Rattle.ut_table.specs.Numbered.{AreNumbered, IsAtRest};
ghost use Rattle.ut_table.specs.Pending.{pending_job};

use crate::found::finds_each;
use std::alloc::{AllocError, Global};
use std::process::Abort;
use ut_merge::{Build, Job};
use ut_plain::PendingMerge;
use ut_stamps::Fates;
use ut_table::Table;
use ut_value::MergeKind;

fn move_all(rt: &impl Abort, table: &mut Table, next: u32) -> Result<(), AllocError>
    requires { IsAtRest next table.old.stages }
    ensures { OnOk result (IsAtRest next table.new.stages) }
{
    let there = table.l1_len();
    let moved = table.merge_l1(9)?;
    assert!(rt; moved == there && table.l1_len() == 0);
    Ok(())
}

/// Begins a merge that re-sorts nothing.
pub(crate) fn begin(
    alloc: Global,
    table: &mut Table,
    fates: &Fates,
    kind: MergeKind,
    next: u32,
) -> Result<Job, AllocError>
    requires rest { IsAtRest next table.old.stages }
    requires kind { kind ≢ MergeKind.Resort }
    ensures numbered { OnOk result (AreNumbered next table.new.stages) }
    ensures job { IfOk result (λ job. pending_job table.new.stages ≡ Some job) }
{
    if table.places() > 100 || table.part_count() == 8 {
        return Err(AllocError);
    }
    let keep = table.keep(alloc, kind, fates, &[])?;
    let head = PendingMerge {
        number: 1,
        table: 0,
        kind,
    };
    let job = table.close_l2(alloc, head, keep)?;
    Ok(job)
}

/// Ends a merge by what is built of its job.
pub(crate) fn end<B: Build>(
    builder: &B,
    alloc: Global,
    table: &mut Table,
    job: &Job,
    next: u32,
) -> Result<(), AllocError>
    requires ready { B.ready builder.now }
    requires numbered { AreNumbered next table.old.stages }
    requires job { pending_job table.old.stages ≡ Some job.now }
    ensures { OnOk result (IsAtRest next table.new.stages) }
{
    let built = builder.build(alloc, job)?;
    table.switch(built);
    Ok(())
}

// The end of a merge, with scans before and behind it.
fn end_merge<B: Build>(
    rt: &impl Abort,
    builder: &B,
    alloc: Global,
    table: &mut Table,
    job: &Job,
    fates: &Fates,
    next: u32,
) -> Result<(), AllocError>
    requires ready { B.ready builder.now }
    requires numbered { AreNumbered next table.old.stages }
    requires job { pending_job table.old.stages ≡ Some job.now }
    ensures { OnOk result (IsAtRest next table.new.stages) }
{
    finds_each(rt, alloc, table, fates, next)?;
    end(builder, alloc, table, job, next)?;
    finds_each(rt, alloc, table, fates, next)
}

// A merge, with scans before it, between its begin and its end and behind it.
fn merge<B: Build>(
    rt: &impl Abort,
    builder: &B,
    alloc: Global,
    table: &mut Table,
    fates: &Fates,
    kind: MergeKind,
    next: u32,
) -> Result<(), AllocError>
    requires ready { B.ready builder.now }
    requires rest { IsAtRest next table.old.stages }
    requires kind { kind ≢ MergeKind.Resort }
    ensures { OnOk result (IsAtRest next table.new.stages) }
{
    finds_each(rt, alloc, table, fates, next)?;
    let job = begin(alloc, table, fates, kind, next)?;
    let ended = end_merge(rt, builder, alloc, table, &job, fates, next);
    drop(job);
    ended
}

/// How many rows stand in L1, in L2 and in the parts.
pub(crate) fn has_shape(
    rt: &impl Abort,
    alloc: Global,
    table: &Table,
    l1: u32,
    l2: u32,
    parts: &[u32],
) -> Result<(), AllocError> {
    let shape = table.shape(alloc)?;
    let is_right = shape.l1 == l1
        && shape.l2 == l2
        && shape.closed.is_none()
        && shape.parts.as_slice() == parts;
    drop(shape);
    assert!(rt; is_right);
    Ok(())
}

/// Of three rows two move to one part of main and one to another, and each is found all the time.
pub(crate) fn in_two_parts<B: Build>(
    rt: &impl Abort,
    builder: &B,
    alloc: Global,
    table: &mut Table,
    fates: &Fates,
) -> Result<(), AllocError>
    requires ready { B.ready builder.now }
    requires rest { IsAtRest 4 table.old.stages }
    ensures { OnOk result (IsAtRest 4 table.new.stages) }
{
    merge(rt, builder, alloc, table, fates, MergeKind::Extend, 4)?;
    has_shape(rt, alloc, table, 1, 0, &[2])?;
    move_all(rt, table, 4)?;
    merge(rt, builder, alloc, table, fates, MergeKind::Partial, 4)?;
    has_shape(rt, alloc, table, 0, 0, &[2, 1])
}
