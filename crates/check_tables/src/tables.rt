//! The rows of one table, by each call once.
ghost use Rattle.std.specs.Prelude.{◌≡◌, ◌∷◌, [], IfOk, length};
ghost use Rattle.ut_plain.specs.Rows.{inserts_of};
ghost use Rattle.ut_staged.specs.Staged.{no_rows};
ghost use Rattle.ut_change.specs.Bulks.{bulk_ops, CanLoad};
ghost use Rattle.ut_change.specs.Writes.{CanWrite};
ghost use Rattle.ut_tables.specs.Rows.{restored};
ghost use Rattle.ut_tables.specs.Works.{CanDo, LoadsWell, ops_in};

use crate::bulk::can_load;
use std::alloc::{AllocError, Global};
use std::process::Abort;
use ut_change::{Bulk, rows_in};
use ut_merge::{Build, Builder};
use ut_outside::NoHook;
use ut_plain::{PendingMerge, Table, bulk_fits, fits_columns};
use ut_stamps::Fate;
use ut_tables::{Changes, Rows, Work};
use ut_value::{Column, Duplicate, Kind, MergeKind, Name, Op, Seq, Value, is_name, same_bytes};

/// The name that these bytes are.
pub(crate) fn name(rt: &impl Abort, alloc: Global, bytes: &[u8]) -> Result<Name, AllocError> {
    let bytes = Vec::from_slice(alloc, bytes)?;
    assert!(rt; is_name(&bytes));
    Ok(Name::of(bytes))
}

// The column k of numbers.
fn column(rt: &impl Abort, alloc: Global) -> Result<Column, AllocError> {
    Ok(Column {
        name: name(rt, alloc, b"k")?,
        kind: Kind::Int,
    })
}

/// That column alone.
pub(crate) fn columns(rt: &impl Abort, alloc: Global) -> Result<Seq<Column>, AllocError>
    ensures { IfOk result (λ columns. length columns ≡ 1) }
{
    let column = column(rt, alloc)?;
    let mut columns = Seq::new(alloc);
    columns.push(column)?;
    Ok(columns)
}

// The table T of some columns.
fn table(rt: &impl Abort, alloc: Global, columns: &Seq<Column>) -> Result<Table, AllocError>
    ensures { IfOk result (λ table. table.columns ≡ columns.now) }
{
    let name = name(rt, alloc, b"T")?;
    let columns = columns.duplicate(alloc)?;
    Ok(Table { name, columns })
}

// The rows of the table T of one column, which has none.
struct Bare {
    columns: Seq<Column>,
    rows: Rows,
}

// In a function of its own, the code that lets all of it go is proved once.
impl Drop for Bare {
    fn drop(self) {
        let Bare {
            columns: _,
            rows: _,
        } = self;
    }
}

fn rows_without_tables(alloc: Global) -> Result<Rows, AllocError>
    ensures { IfOk result (λ rows. rows.rows ≡ restored [] []) }
{
    Rows::restored(alloc, Vec::new(alloc), Vec::new(alloc))
}

// The table T comes to rows without tables. Hands its columns out.
fn add(rt: &impl Abort, alloc: Global, rows: &mut Rows) -> Result<Seq<Column>, AllocError>
    requires { rows.old.rows ≡ restored [] [] }
    ensures { IfOk result (λ columns. rows.new.rows.staged ≡ no_rows columns ∷ []) }
{
    let columns = columns(rt, alloc)?;
    let table = table(rt, alloc, &columns)?;
    rows.add_table(alloc, table)?;
    Ok(columns)
}

fn table_alone(rt: &impl Abort, alloc: Global) -> Result<Bare, AllocError>
    ensures { IfOk result (λ bare. bare.rows.rows.staged ≡ no_rows bare.columns ∷ []) }
{
    let mut rows = rows_without_tables(alloc)?;
    let columns = add(rt, alloc, &mut rows)?;
    Ok(Bare { columns, rows })
}

/// The value 7.
pub(crate) fn number(alloc: Global) -> Result<Seq<Value>, AllocError> {
    let mut values = Seq::new(alloc);
    values.push(Value::Int(7))?;
    Ok(values)
}

// Rows 1 to 3, of one value each.
fn numbers(alloc: Global) -> Result<Vec<Value>, AllocError> {
    let mut values = Vec::new(alloc);
    for number in [7, 8, 7] {
        values.push(Value::Int(number))?;
    }
    Ok(values)
}

fn bulk(values: &[Value]) -> Bulk<'_> {
    Bulk {
        table: 0,
        id: 1,
        width: 1,
        values,
    }
}

// Ends the test where a table without rows can't take the bulk.
fn can_take(rt: &impl Abort, columns: &Seq<Column>, bulk: Bulk<'_>)
    ensures load { CanLoad bulk.entry }
    ensures wide { bulk.entry.width ≡ length columns.now }
    ensures write { CanWrite (no_rows columns.now) [] (bulk_ops bulk.entry) }
{
    can_load(rt, bulk);
    assert!(rt; bulk.width == columns.len());
    assert!(rt; bulk.values.len() <= 1000);
    assert!(rt; bulk_fits(columns.as_slice(), bulk.values));
}

// The insert of row 1.
fn insert(alloc: Global, values: Seq<Value>) -> Result<Vec<Op>, AllocError>
    ensures { IfOk result (λ ops. ops.items ≡ Op.Insert 0 1 values ∷ []) }
{
    let mut ops = Vec::new(alloc);
    ops.push(Op::Insert {
        table: 0,
        id: 1,
        values,
    })?;
    Ok(ops)
}

// There is one table, T.
fn is_named(rt: &impl Abort, rows: &Rows) {
    assert!(rt; rows.table_count() == 1 && rows.tables().len() == 1);
    assert!(rt; rows.place_of(b"T") == Some(0) && rows.place_of(b"U").is_none());
    assert!(rt; matches!(rows.table_name(0), Some(name) if same_bytes(name.as_slice(), b"T")));
}

// It has no rows.
fn is_empty(rt: &impl Abort, rows: &Rows) {
    assert!(rt; rows.stages().len() == 1 && rows.fates().len() == 2);
    assert!(rt; rows.l1_len(0) == Some(0) && rows.l2_len(0) == Some(0));
}

// It has a column, and no rows.
fn is_shaped(
    rt: &impl Abort,
    alloc: Global,
    rows: &Rows,
    columns: &Seq<Column>,
) -> Result<(), AllocError>
    requires { rows.now.rows.staged ≡ no_rows columns.now ∷ [] }
{
    let shape = rows.shape(alloc, 0)?;
    assert!(rt; rows.table(0).columns().len() == 1 && shape.l1 == 0);
    Ok(())
}

#[test]
fn a_table_is_read_of_the_rows(rt: HostRuntime) -> Result<(), AllocError> {
    let bare = table_alone(&rt, rt.alloc())?;
    is_named(&rt, &bare.rows);
    is_empty(&rt, &bare.rows);
    is_shaped(&rt, rt.alloc(), &bare.rows, &bare.columns)
}

fn looks(
    rt: &impl Abort,
    alloc: Global,
    rows: &Rows,
    columns: &Seq<Column>,
) -> Result<(), AllocError>
    requires { rows.now.rows.staged ≡ no_rows columns.now ∷ [] }
{
    assert!(rt; rows.look(3, None).snapshot.at == 3);
    assert!(rt; rows.first_taken(0, 3, None, &[]).is_none());
    let hits = rows.hits(alloc, 0, 3, None, &[])?;
    assert!(rt; hits.is_empty());
    Ok(())
}

#[test]
fn nothing_is_seen_of_a_table_without_rows(rt: HostRuntime) -> Result<(), AllocError> {
    let bare = table_alone(&rt, rt.alloc())?;
    looks(&rt, rt.alloc(), &bare.rows, &bare.columns)
}

#[test]
fn a_store_without_tables_has_no_rows(rt: HostRuntime) -> Result<(), AllocError> {
    let rows = rows_without_tables(rt.alloc())?;
    let found = rows.rows(rt.alloc(), b"T", 3, None);
    drop(rows);
    let found = found?;
    assert!(rt; found.is_none());
    Ok(())
}

// A transaction is committed, and then one is given up.
fn commits_and_aborts(rt: &impl Abort, rows: &mut Rows) -> Result<(), AllocError>
    requires { rows.old.rows ≡ restored [] [] }
{
    let kept = rows.start()?;
    rows.commit(kept, 5);
    let lost = rows.start()?;
    rows.abort(lost);
    let fates = rows.fates();
    assert!(rt; fates.fate(kept) == Fate::Committed(5) && fates.fate(lost) == Fate::Aborted);
    Ok(())
}

#[test]
fn transactions_are_committed_and_given_up(rt: HostRuntime) -> Result<(), AllocError> {
    let mut rows = rows_without_tables(rt.alloc())?;
    let done = commits_and_aborts(&rt, &mut rows);
    drop(rows);
    done
}

fn moves_none(rt: &impl Abort, rows: &mut Rows, columns: &Seq<Column>) -> Result<(), AllocError>
    requires { rows.old.rows.staged ≡ no_rows columns.now ∷ [] }
{
    let moved = rows.merge_l1(0, 4)?;
    assert!(rt; moved == 0);
    Ok(())
}

#[test]
fn no_row_is_moved(rt: HostRuntime) -> Result<(), AllocError> {
    let mut bare = table_alone(&rt, rt.alloc())?;
    moves_none(&rt, &mut bare.rows, &bare.columns)
}

// Three rows are loaded.
fn loads(
    rt: &impl Abort,
    rows: &mut Rows,
    columns: &Seq<Column>,
    bulk: Bulk<'_>,
) -> Result<(), AllocError>
    requires { rows.old.rows.staged ≡ no_rows columns.now ∷ [] }
{
    can_take(rt, columns, bulk);
    rows.load(0, bulk, 0)?;
    assert!(rt; rows.l2_len(0) == Some(3));
    Ok(())
}

#[test]
fn rows_are_loaded(rt: HostRuntime) -> Result<(), AllocError> {
    let values = numbers(rt.alloc())?;
    let mut bare = table_alone(&rt, rt.alloc())?;
    loads(&rt, &mut bare.rows, &bare.columns, bulk(&values))
}

// One row is written, in the room that was made.
fn writes(
    rt: &impl Abort,
    alloc: Global,
    rows: &mut Rows,
    columns: &Seq<Column>,
) -> Result<(), AllocError>
    requires { rows.old.rows.staged ≡ no_rows columns.now ∷ [] }
{
    rows.room(0, 1)?;
    let values = number(alloc)?;
    assert!(rt; fits_columns(columns.as_slice(), values.as_slice()));
    rows.write_all(0, 0, &[], insert(alloc, values)?);
    assert!(rt; rows.l1_len(0) == Some(1));
    Ok(())
}

#[test]
fn a_row_is_written(rt: HostRuntime) -> Result<(), AllocError> {
    let mut bare = table_alone(&rt, rt.alloc())?;
    writes(&rt, rt.alloc(), &mut bare.rows, &bare.columns)
}

// Work is done as a transaction by itself.
fn works(
    rt: &impl Abort,
    rows: &mut Rows,
    work: Work<'_>,
    l1: u32,
    l2: u32,
) -> Result<(), AllocError>
    requires can { CanDo rows.old.rows work }
    requires loads { LoadsWell rows.old.rows work }
    requires count { work.inserts ≡ inserts_of (ops_in work.changes) }
{
    rows.work_alone(work, 1)?;
    assert!(rt; rows.l1_len(0) == Some(l1) && rows.l2_len(0) == Some(l2));
    assert!(rt; rows.fates().fate(2) == Fate::Committed(1));
    Ok(())
}

fn writes_alone(
    rt: &impl Abort,
    alloc: Global,
    columns: &Seq<Column>,
    rows: &mut Rows,
) -> Result<(), AllocError>
    requires { rows.old.rows.staged ≡ no_rows columns.now ∷ [] }
{
    let values = number(alloc)?;
    assert!(rt; fits_columns(columns.as_slice(), values.as_slice()));
    let ops = insert(alloc, values)?;
    let changes = Changes::Writes { hits: &[], ops };
    let work = Work {
        place: 0,
        changes,
        rows: 1,
        inserts: 1,
    };
    works(rt, rows, work, 1, 0)
}

fn loads_alone(
    rt: &impl Abort,
    bulk: Bulk<'_>,
    columns: &Seq<Column>,
    rows: &mut Rows,
) -> Result<(), AllocError>
    requires { rows.old.rows.staged ≡ no_rows columns.now ∷ [] }
{
    can_take(rt, columns, bulk);
    assert!(rt; rows_in(bulk.width, bulk.values) == 3);
    let work = Work {
        place: 0,
        changes: Changes::Loads(bulk),
        rows: 3,
        inserts: 3,
    };
    works(rt, rows, work, 0, 3)
}

fn one_is_written_alone(rt: &impl Abort, alloc: Global) -> Result<(), AllocError> {
    let mut bare = table_alone(rt, alloc)?;
    writes_alone(rt, alloc, &bare.columns, &mut bare.rows)
}

fn three_are_loaded_alone(rt: &impl Abort, alloc: Global) -> Result<(), AllocError> {
    let values = numbers(alloc)?;
    let mut bare = table_alone(rt, alloc)?;
    loads_alone(rt, bulk(&values), &bare.columns, &mut bare.rows)
}

#[test]
fn work_is_done_alone(rt: HostRuntime) -> Result<(), AllocError> {
    one_is_written_alone(&rt, rt.alloc())?;
    three_are_loaded_alone(&rt, rt.alloc())
}

// A merge begins, hands its job out again, and ends.
fn merges<B: Build>(
    rt: &impl Abort,
    builder: &B,
    alloc: Global,
    rows: &mut Rows,
    columns: &Seq<Column>,
) -> Result<(), AllocError>
    requires ready { B.ready builder.now }
    requires bare { rows.old.rows.staged ≡ no_rows columns.now ∷ [] }
{
    let again = rows.job_again(alloc, 0)?;
    assert!(rt; again.is_none() && rows.has_room_to_merge(0, MergeKind::Classic));
    let head = PendingMerge {
        number: 1,
        table: 0,
        kind: MergeKind::Classic,
    };
    let job = rows.close(alloc, head, &[])?;
    let built = builder.build(alloc, &job)?;
    rows.switch(0, built);
    Ok(())
}

#[test]
fn a_table_without_rows_is_merged(rt: HostRuntime) -> Result<(), AllocError> {
    let mut bare = table_alone(&rt, rt.alloc())?;
    let builder = Builder::alone(&rt, &NoHook);
    merges(&rt, &builder, rt.alloc(), &mut bare.rows, &bare.columns)
}
