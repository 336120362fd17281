//! A table with rows in two parts of main and outside of it, as it is shown to one who looks.
ghost use Rattle.std.specs.Prelude.{◌≡◌, IfOk, OnOk};
ghost use Rattle.ut_table.specs.Numbered.{AreNumbered, IsAtRest};

use crate::found::{find, number_pred};
use crate::rows::{Stage, add, three_rows};
use crate::table::{has_shape, in_two_parts};
use std::alloc::{AllocError, Global};
use std::process::Abort;
use ut_key::Cmp;
use ut_merge::{Build, Builder};
use ut_outside::NoHook;
use ut_shown::shown_table;
use ut_stamps::{Fates, PartStamps, Snapshot};
use ut_table::Table;
use ut_value::{Column, Duplicate, Seq};

// A copy of columns.
fn copied(alloc: Global, columns: &[Column]) -> Result<Seq<Column>, AllocError>
    ensures { IfOk result (λ copy. copy ≡ columns.now) }
{
    let mut copy = Seq::new(alloc);
    for column in columns {
        copy.push(column.duplicate(alloc)?)?;
    }
    Ok(copy)
}

// The stamps of a part have these begins, and no end.
fn have_begins(rt: &impl Abort, stamps: &PartStamps, begins: &[u64]) {
    assert!(rt; stamps.len() == begins.len());
    for i in 0..begins.len() {
        let stamp = stamps.get(i);
        assert!(rt; stamp.begin == begins[i] && stamp.end.is_none());
    }
}

// Two rows stand outside of main, and those of its first part have these begins.
fn is_shown(
    rt: &impl Abort,
    alloc: Global,
    shown: &Table,
    begins: &[u64],
) -> Result<(), AllocError> {
    let stages = shown.stages();
    assert!(rt; stages.stamps.parts() == 2);
    have_begins(rt, stages.stamps.part(0), begins);
    have_begins(rt, stages.stamps.part(1), &[0]);
    has_shape(rt, alloc, shown, 2, 0, &[2, 1])
}

// A table is shown so.
fn shows(
    rt: &impl Abort,
    alloc: Global,
    table: &Table,
    fates: &Fates,
    own: Option<u64>,
    begins: &[u64],
) -> Result<(), AllocError> {
    let columns = copied(alloc, table.columns())?;
    let snapshot = Snapshot { fates, at: 0, own };
    let shown = shown_table(alloc, snapshot, columns, table)?;
    let is_right = is_shown(rt, alloc, &shown, begins);
    drop(shown);
    is_right
}

// Row 4 enters the second stage, and row 5 the first.
fn add_two(rt: &impl Abort, alloc: Global, table: &mut Table) -> Result<(), AllocError>
    requires { IsAtRest 4 table.old.stages }
    ensures { OnOk result (IsAtRest 6 table.new.stages) }
{
    add(rt, alloc, table, Stage::Second, 4, 8, b"d")?;
    add(rt, alloc, table, Stage::First, 5, 9, b"e")
}

// A transaction ends the row that has a negative number.
fn end_negative(
    rt: &impl Abort,
    alloc: Global,
    table: &mut Table,
    fates: &Fates,
    own: u64,
    next: u32,
) -> Result<(), AllocError>
    requires { AreNumbered next table.old.stages }
{
    let pred = number_pred(rt, alloc, Cmp::Lt, 0)?;
    let found = find(rt, alloc, table, fates, &pred);
    drop(pred);
    let found = found?;
    assert!(rt; found.len() == 1);
    table.end_row(found[0].place, own);
    Ok(())
}

// Row 2, of the first part, is shown to all but the transaction that ended it.
fn shows_each<B: Build>(
    rt: &impl Abort,
    builder: &B,
    alloc: Global,
    table: &mut Table,
    fates: &Fates,
    own: u64,
) -> Result<(), AllocError>
    requires ready { B.ready builder.now }
    requires rest { IsAtRest 4 table.old.stages }
{
    in_two_parts(rt, builder, alloc, table, fates)?;
    add_two(rt, alloc, table)?;
    shows(rt, alloc, table, fates, Some(own), &[0, 0])?;
    end_negative(rt, alloc, table, fates, own, 6)?;
    shows(rt, alloc, table, fates, None, &[0, 0])?;
    shows(rt, alloc, table, fates, Some(own), &[0, 1])
}

fn ends_and_shows<B: Build>(
    rt: &impl Abort,
    builder: &B,
    alloc: Global,
    fates: &Fates,
    own: u64,
) -> Result<(), AllocError>
    requires { B.ready builder.now }
{
    let mut table = three_rows(rt, alloc)?;
    let shown = shows_each(rt, builder, alloc, &mut table, fates, own);
    drop(table);
    shown
}

#[test]
fn a_row_that_ended_is_shown_until_its_end_counts(rt: HostRuntime) -> Result<(), AllocError> {
    let mut fates = Fates::new(rt.alloc())?;
    let own = fates.start()?;
    let builder = Builder::alone(&rt, &NoHook);
    ends_and_shows(&rt, &builder, rt.alloc(), &fates, own)
}
