//! The calls of the engine by hand, over a small store: rows and lengths, a merge and its job, a savepoint, and the store opened again.
use crate::calls::{
    begun, changes_one, commits, create, dropped, flipped, ids, insert, is_up, lengths, made,
    moved, name, new_disk, opened_again, phase, sealed, shape, stepped,
};
use std::alloc::{AllocError, Global};
use std::process::Abort;
use std::test::Fail;
use ut_engine::{BeginError, Engine, L1Error, PhaseError, SaveError};
use ut_outside::{Disk, MemDisk};
use ut_plain::{Progress, Why};
use ut_value::{MergeKind, Name};

fn creates(
    rt: &impl Abort,
    alloc: Global,
    engine: &mut Engine<'_, MemDisk>,
) -> Result<(), AllocError> {
    let statement = create(rt, alloc)?;
    let commits = commits(rt, alloc, engine, &statement, 1);
    drop(statement);
    assert!(rt; commits);
    Ok(())
}

fn inserts(
    rt: &impl Abort,
    alloc: Global,
    engine: &mut Engine<'_, MemDisk>,
    number: i64,
) -> Result<(), AllocError> {
    let statement = insert(rt, alloc, number)?;
    let changes = changes_one(rt, alloc, engine, &statement);
    drop(statement);
    assert!(rt; changes, "row {number}");
    Ok(())
}

/// Makes the table, with two rows.
fn fill(
    rt: &impl Abort,
    alloc: Global,
    engine: &mut Engine<'_, MemDisk>,
) -> Result<(), AllocError> {
    creates(rt, alloc, engine)?;
    for number in [3, 4] {
        inserts(rt, alloc, engine, number)?;
    }
    counts(rt, engine);
    Ok(())
}

fn counts(rt: &impl Abort, engine: &Engine<'_, MemDisk>) {
    assert!(rt; engine.commits() == 3 && engine.journal_len() == 3);
    assert!(rt; engine.moment() == engine.disk().calls());
}

/// The ids of a table's rows, if it is there.
fn ids_of(
    rt: &impl Abort,
    alloc: Global,
    engine: &Engine<'_, MemDisk>,
    bytes: &[u8],
) -> Result<Option<Vec<u32>>, AllocError> {
    let table = name(rt, alloc, bytes)?;
    ids(rt, alloc, engine, &table)
}

/// The rows of the table.
fn has_both_rows(
    rt: &impl Abort,
    alloc: Global,
    engine: &Engine<'_, MemDisk>,
) -> Result<(), AllocError> {
    let found = ids_of(rt, alloc, engine, b"T")?;
    assert!(rt; matches!(&found, Some(ids) if ids.as_slice() == [1, 2].as_slice()));
    Ok(())
}

fn has_no_other(
    rt: &impl Abort,
    alloc: Global,
    engine: &Engine<'_, MemDisk>,
) -> Result<(), AllocError> {
    let other = ids_of(rt, alloc, engine, b"t")?;
    assert!(rt; other.is_none());
    Ok(())
}

/// The rows of the table, and how many stand in each stage.
fn check(
    rt: &impl Abort,
    alloc: Global,
    engine: &Engine<'_, MemDisk>,
    l1: u32,
    l2: u32,
) -> Result<(), AllocError> {
    assert!(rt; lengths(rt, engine) == (l1, l2));
    has_both_rows(rt, alloc, engine)?;
    has_no_other(rt, alloc, engine)
}

/// What comes of moving a row of a table to the second stage.
fn moves(
    rt: &impl Abort,
    alloc: Global,
    engine: &mut Engine<'_, MemDisk>,
    bytes: &[u8],
    wanted: Result<u32, L1Error>,
) -> Result<(), AllocError> {
    let table = name(rt, alloc, bytes)?;
    assert!(rt; moved(rt, alloc, engine, &table) == wanted);
    Ok(())
}

/// How many rows of a table stand in its stages, if it is there.
fn lens_of(
    rt: &impl Abort,
    alloc: Global,
    engine: &mut Engine<'_, MemDisk>,
    bytes: &[u8],
) -> Result<Option<(u32, u32)>, AllocError> {
    let table = name(rt, alloc, bytes)?;
    let shape = shape(rt, alloc, engine, &table)?;
    let lens = match &shape {
        Some(shape) => Some((shape.l1, shape.l2)),
        None => None,
    };
    drop(shape);
    Ok(lens)
}

fn has_lens(
    rt: &impl Abort,
    alloc: Global,
    engine: &mut Engine<'_, MemDisk>,
    bytes: &[u8],
    wanted: Option<(u32, u32)>,
) -> Result<(), AllocError> {
    let found = lens_of(rt, alloc, engine, bytes)?;
    assert!(rt; found == wanted);
    Ok(())
}

/// Moves a row to the second stage.
fn merge(
    rt: &impl Abort,
    alloc: Global,
    engine: &mut Engine<'_, MemDisk>,
) -> Result<(), AllocError> {
    moves(rt, alloc, engine, b"t", Err(L1Error::Name))?;
    moves(rt, alloc, engine, b"T", Ok(1))?;
    has_lens(rt, alloc, engine, b"T", Some((1, 1)))?;
    has_lens(rt, alloc, engine, b"t", None)
}

/// The table is filled, and a row is moved.
fn fill_and_merge(
    rt: &impl Abort,
    alloc: Global,
    engine: &mut Engine<'_, MemDisk>,
) -> Result<(), AllocError> {
    fill(rt, alloc, engine)?;
    check(rt, alloc, engine, 2, 0)?;
    merge(rt, alloc, engine)?;
    check(rt, alloc, engine, 1, 1)
}

/// The store is opened again, and has its rows in these stages.
fn check_again(
    rt: &impl Abort,
    alloc: Global,
    engine: Engine<'_, MemDisk>,
    l1: u32,
    l2: u32,
) -> Result<(), Fail> {
    let engine = opened_again(engine, alloc)?;
    let checked = check(rt, alloc, &engine, l1, l2);
    drop(engine);
    checked?;
    Ok(())
}

/// A store whose table is filled, of which a row is moved, and then opened again.
fn fill_and_open(rt: &impl Abort, alloc: Global, disk: &mut MemDisk) -> Result<(), Fail> {
    let mut engine = made(alloc, disk)?;
    fill_and_merge(rt, alloc, &mut engine)?;
    check_again(rt, alloc, engine, 2, 0)
}

#[test]
fn a_store_is_made_and_opened_again(rt: HostRuntime) -> Result<(), Fail> {
    let mut disk = new_disk(rt.alloc())?;
    let opened = fill_and_open(&rt, rt.alloc(), &mut disk);
    drop(disk);
    opened
}

/// A merge of a table begins, and has a number.
fn begins(
    rt: &impl Abort,
    alloc: Global,
    engine: &mut Engine<'_, MemDisk>,
    table: &Name,
) -> Result<u32, BeginError> {
    is_up(rt, engine);
    let job = engine.merge_begin(alloc, table, MergeKind::Resort)?;
    let (kind, number) = (job.kind(), job.number());
    drop(job);
    assert!(rt; kind == MergeKind::Resort);
    Ok(number)
}

/// What comes of the begin of a merge of a table.
fn begins_as(
    rt: &impl Abort,
    alloc: Global,
    engine: &mut Engine<'_, MemDisk>,
    bytes: &[u8],
    wanted: Result<u32, BeginError>,
) -> Result<(), AllocError> {
    let table = name(rt, alloc, bytes)?;
    assert!(rt; begins(rt, alloc, engine, &table) == wanted);
    Ok(())
}

/// The job of the first merge is had again.
fn has_job(rt: &impl Abort, alloc: Global, engine: &Engine<'_, MemDisk>) -> Result<(), AllocError> {
    is_up(rt, engine);
    let job = engine.merge_again(alloc)?;
    let is_first = matches!(&job, Some(job) if job.number() == 1);
    drop(job);
    assert!(rt; is_first);
    Ok(())
}

/// The first merge is pending.
fn it_is_pending(rt: &impl Abort, engine: &Engine<'_, MemDisk>) {
    assert!(rt; matches!(engine.pending(), Some(head) if head.number == 1 && head.table == 0));
    assert!(rt; engine.merges() == 1 && engine.journal_len() == 4);
}

/// A table that isn't there is not merged, and the one that is there once.
fn begin_merge(
    rt: &impl Abort,
    alloc: Global,
    engine: &mut Engine<'_, MemDisk>,
) -> Result<(), AllocError> {
    begins_as(rt, alloc, engine, b"t", Err(BeginError::Name))?;
    assert!(rt; engine.pending().is_none());
    begins_as(rt, alloc, engine, b"T", Ok(1))?;
    begins_as(rt, alloc, engine, b"T", Err(BeginError::Busy(1)))?;
    begins_as(rt, alloc, engine, b"t", Err(BeginError::Name))?;
    has_job(rt, alloc, engine)?;
    it_is_pending(rt, engine);
    Ok(())
}

/// The table is filled, a row is moved, and its merge begins.
fn fill_and_begin(
    rt: &impl Abort,
    alloc: Global,
    engine: &mut Engine<'_, MemDisk>,
) -> Result<(), AllocError> {
    fill(rt, alloc, engine)?;
    merge(rt, alloc, engine)?;
    begin_merge(rt, alloc, engine)
}

fn make_and_begin(rt: &impl Abort, alloc: Global, disk: &mut MemDisk) -> Result<(), Fail> {
    let mut engine = made(alloc, disk)?;
    let begun = fill_and_begin(rt, alloc, &mut engine);
    drop(engine);
    begun?;
    Ok(())
}

#[test]
fn a_merge_begins_and_hands_out_its_job(rt: HostRuntime) -> Result<(), Fail> {
    let mut disk = new_disk(rt.alloc())?;
    let begun = make_and_begin(&rt, rt.alloc(), &mut disk);
    drop(disk);
    begun
}

/// A savepoint of one page begins, and no other one beside it.
fn begin_save(
    rt: &impl Abort,
    alloc: Global,
    engine: &mut Engine<'_, MemDisk>,
) -> Result<(), SaveError> {
    let pages = begun(rt, alloc, engine)?;
    assert!(rt; pages == 1);
    assert!(rt; matches!(phase(rt, engine), Progress::Writing { done: 0, pages: 1 }));
    let again = begun(rt, alloc, engine);
    assert!(rt; matches!(again, Err(SaveError::State(Why::Saving))));
    Ok(())
}

/// The savepoint is written and selected.
fn end_save(rt: &impl Abort, engine: &mut Engine<'_, MemDisk>) -> Result<(), PhaseError> {
    stepped(rt, engine)?;
    sealed(rt, engine)?;
    let root = flipped(rt, engine)?;
    assert!(rt; root == 3);
    Ok(())
}

fn save(rt: &impl Abort, alloc: Global, engine: &mut Engine<'_, MemDisk>) -> Result<(), Fail> {
    begin_save(rt, alloc, engine)?;
    end_save(rt, engine)?;
    Ok(())
}

/// There is no savepoint to be dropped; then the table is filled, and a row is moved.
fn drop_and_fill(
    rt: &impl Abort,
    alloc: Global,
    engine: &mut Engine<'_, MemDisk>,
) -> Result<(), AllocError> {
    let none = dropped(rt, engine);
    assert!(rt; matches!(none, Err(PhaseError::State(Why::Nothing))));
    fill(rt, alloc, engine)?;
    merge(rt, alloc, engine)
}

fn fill_and_save(
    rt: &impl Abort,
    alloc: Global,
    engine: &mut Engine<'_, MemDisk>,
) -> Result<(), Fail> {
    drop_and_fill(rt, alloc, engine)?;
    save(rt, alloc, engine)
}

/// A store with a savepoint, and then opened again.
fn save_and_open(rt: &impl Abort, alloc: Global, disk: &mut MemDisk) -> Result<(), Fail> {
    let mut engine = made(alloc, disk)?;
    fill_and_save(rt, alloc, &mut engine)?;
    check_again(rt, alloc, engine, 1, 1)
}

#[test]
fn a_store_is_opened_from_its_savepoint(rt: HostRuntime) -> Result<(), Fail> {
    let mut disk = new_disk(rt.alloc())?;
    let opened = save_and_open(&rt, rt.alloc(), &mut disk);
    drop(disk);
    opened
}
