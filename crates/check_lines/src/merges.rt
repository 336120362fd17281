//! The parts that merges make, worked out by hand.
use check_stages::{closing, no_stages, switched};
use std::alloc::{AllocError, Global};
use std::process::Abort;
use ut_plain::{Placed, TableStages};
use ut_value::{MergeKind, Seq, Value};

/// A row: its id and its numbers.
type Row = (u32, &'static [i64]);

/// The rows of a table's parts and of its second stage.
struct Table {
    parts: &'static [&'static [Row]],
    l2: &'static [Row],
}

/// A merge that keeps the rows of these ids, and the ids that the parts behind it have in order.
struct Case {
    kind: MergeKind,
    needed: &'static [u32],
    wanted: &'static [&'static [u32]],
}

fn values(alloc: Global, numbers: &[i64]) -> Result<Seq<Value>, AllocError> {
    let mut values = Seq::new(alloc);
    for number in numbers {
        values.push(Value::Int(*number))?;
    }
    Ok(values)
}

fn place(alloc: Global, row: Row) -> Result<Placed, AllocError> {
    let (id, numbers) = row;
    let values = values(alloc, numbers)?;
    Ok(Placed {
        id,
        values,
        dead: false,
    })
}

fn places(alloc: Global, rows: &[Row]) -> Result<Seq<Placed>, AllocError> {
    let mut places = Seq::new(alloc);
    for row in rows {
        places.push(place(alloc, *row)?)?;
    }
    Ok(places)
}

fn parts(alloc: Global, lists: &[&[Row]]) -> Result<Seq<Seq<Placed>>, AllocError> {
    let mut parts = Seq::new(alloc);
    for rows in lists {
        parts.push(places(alloc, rows)?)?;
    }
    Ok(parts)
}

fn stages(alloc: Global, table: &Table) -> Result<TableStages, AllocError> {
    let parts = parts(alloc, table.parts)?;
    let l2 = places(alloc, table.l2)?;
    let mut stages = no_stages(alloc);
    stages.parts = parts;
    stages.l2 = l2;
    Ok(stages)
}

fn closed(alloc: Global, table: &Table, case: &Case) -> Result<TableStages, AllocError> {
    let stages = stages(alloc, table)?;
    let closed = closing(alloc, case.needed, case.kind, &stages);
    drop(stages);
    closed
}

fn merged(alloc: Global, table: &Table, case: &Case) -> Result<TableStages, AllocError> {
    let closed = closed(alloc, table, case)?;
    let merged = switched(alloc, case.kind, &closed);
    drop(closed);
    merged
}

// The places have these ids in this order.
fn has_ids(rt: &impl Abort, places: &[Placed], wanted: &[u32]) {
    assert!(rt; places.len() == wanted.len());
    for (place, id) in places.iter().zip(wanted) {
        assert!(rt; place.id == *id, "{} for {id}", place.id);
    }
}

// The part has the rows of these ids; one that isn't there has none.
fn has_part(rt: &impl Abort, stages: &TableStages, part: usize, wanted: &[u32]) {
    match stages.parts.as_slice().get(part) {
        Some(places) => has_ids(rt, places.as_slice(), wanted),
        None => has_ids(rt, &[], wanted),
    }
}

fn check(rt: &impl Abort, alloc: Global, table: &Table, case: &Case) -> Result<(), AllocError> {
    let next = merged(alloc, table, case)?;
    for (part, wanted) in case.wanted.iter().enumerate() {
        has_part(rt, &next, part, wanted);
    }
    drop(next);
    Ok(())
}

/// The second column has one key and the first two, so the second comes first.
const UNSORTED: Table = Table {
    parts: &[],
    l2: &[(1, &[2, 1]), (2, &[1, 1]), (3, &[2, 1]), (4, &[1, 1])],
};

const RESORT: Case = Case {
    kind: MergeKind::Resort,
    needed: &[1, 2, 3, 4],
    wanted: &[&[2, 4, 1, 3]],
};

#[test]
fn a_resorted_part_is_ordered_by_the_column_of_fewest_keys(
    rt: HostRuntime,
) -> Result<(), AllocError> {
    check(&rt, rt.alloc(), &UNSORTED, &RESORT)
}

/// Rows of 2 and 4, of 1 and of 9, and behind them of 4 and 10.
const THREE: Table = Table {
    parts: &[&[(1, &[2]), (2, &[4])], &[(3, &[1])], &[(4, &[9])]],
    l2: &[(5, &[4]), (6, &[10])],
};

const PARTIAL: Case = Case {
    kind: MergeKind::Partial,
    needed: &[1, 2, 3, 4, 5, 6],
    wanted: &[&[1, 2], &[3], &[4, 5, 6], &[]],
};

#[test]
fn a_partial_merge_leaves_two_of_three_parts(rt: HostRuntime) -> Result<(), AllocError> {
    check(&rt, rt.alloc(), &THREE, &PARTIAL)
}

/// A part that stays keeps a row that nobody needs, and a part that is rebuilt drops it.
const ONE: Table = Table {
    parts: &[&[(1, &[7]), (2, &[8])]],
    l2: &[(3, &[7]), (4, &[8])],
};

const EXTEND: Case = Case {
    kind: MergeKind::Extend,
    needed: &[2, 3],
    wanted: &[&[1, 2], &[3]],
};

const CLASSIC: Case = Case {
    kind: MergeKind::Classic,
    needed: &[2, 3],
    wanted: &[&[2, 3]],
};

#[test]
fn a_row_that_nobody_needs_is_dropped_where_its_part_is_rebuilt(
    rt: HostRuntime,
) -> Result<(), AllocError> {
    check(&rt, rt.alloc(), &ONE, &EXTEND)?;
    check(&rt, rt.alloc(), &ONE, &CLASSIC)
}
