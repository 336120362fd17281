//! Sums of main's numbers, by how often each code occurs.
ghost use Rattle.std.specs.Prelude.{OnOk};
ghost use Rattle.ut_table.specs.Numbered.{IsAtRest};

use crate::load::load_two;
use crate::rows::{Stage, add, bare};
use crate::table::{begin, end, has_shape};
use std::alloc::{AllocError, Global};
use std::process::Abort;
use ut_merge::{Build, Builder};
use ut_outside::NoHook;
use ut_stamps::Fates;
use ut_table::Table;
use ut_value::MergeKind;

// The rows of the second stage become a part of their own.
fn part_more<B: Build>(
    builder: &B,
    alloc: Global,
    table: &mut Table,
    fates: &Fates,
    next: u32,
) -> Result<(), AllocError>
    requires ready { B.ready builder.now }
    requires rest { IsAtRest next table.old.stages }
    ensures { OnOk result (IsAtRest next table.new.stages) }
{
    let job = begin(alloc, table, fates, MergeKind::Extend, next)?;
    let ended = end(builder, alloc, table, &job, next);
    drop(job);
    ended
}

// The numbers of main's keys in a column, each times its count, have this sum.
fn has_total(rt: &impl Abort, table: &Table, column: usize, counts: &[u32], sum: i128) {
    assert!(rt; table.columns().len() == 2 && column < 2);
    assert!(rt; table.main_total(column, counts) == sum, "{counts:?}");
}

/// Counts of the numbers -7, 5 and 100, and their sum.
const TOTALS: [(&[u32], i128); 7] = [
    (&[], 0),
    (&[4], -28),
    (&[1, 2, 0], 3),
    (&[0, 0, 3], 300),
    (&[2, 2, 2], 196),
    (&[1, 3, u32::MAX], 429496729508),
    (&[1, 1, 1, 9], 98),
];

fn has_totals(rt: &impl Abort, table: &Table) {
    for (counts, sum) in TOTALS {
        has_total(rt, table, 0, counts, sum);
    }
    has_total(rt, table, 1, &[1, 2, 3], 0);
}

// The numbers of one part are weighed, and then those of a second.
fn weighs_each<B: Build>(
    rt: &impl Abort,
    builder: &B,
    alloc: Global,
    table: &mut Table,
    fates: &Fates,
) -> Result<(), AllocError>
    requires ready { B.ready builder.now }
    requires bare { IsAtRest 1 table.old.stages }
{
    load_two(rt, alloc, table)?;
    has_total(rt, table, 0, &[1, 1], 0);
    part_more(builder, alloc, table, fates, 3)?;
    has_total(rt, table, 0, &[1, 2], 3);
    add(rt, alloc, table, Stage::Second, 3, 100, b"c")?;
    part_more(builder, alloc, table, fates, 4)?;
    has_totals(rt, table);
    has_shape(rt, alloc, table, 0, 0, &[2, 1])
}

fn weighs<B: Build>(
    rt: &impl Abort,
    builder: &B,
    alloc: Global,
    fates: &Fates,
) -> Result<(), AllocError>
    requires { B.ready builder.now }
{
    let mut table = bare(rt, alloc)?;
    let weighed = weighs_each(rt, builder, alloc, &mut table, fates);
    drop(table);
    weighed
}

#[test]
fn numbers_of_two_parts_are_weighed(rt: HostRuntime) -> Result<(), AllocError> {
    let fates = Fates::new(rt.alloc())?;
    let builder = Builder::alone(&rt, &NoHook);
    weighs(&rt, &builder, rt.alloc(), &fates)
}
