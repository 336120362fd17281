//! Calls of a small store that promise nothing, so that the proofs of what calls them are short.
ghost use Rattle.std.specs.Prelude.{◌≡◌, false, IfOk, IsTrue};
ghost use Rattle.ut_value.specs.Text.{is_name};
ghost use Rattle.ut_plain.specs.Spelled.{is_spelled};

use std::alloc::{AllocError, Global};
use std::process::Abort;
use ut_engine::{Engine, L1Error, OpenError, PhaseError, SaveError};
use ut_outside::MemDisk;
use ut_plain::{Progress, Reply, Shape, Statement};
use ut_value::{Column, Kind, Name, Seq, Value, is_name, same_bytes};

/// Ids enough.
const IDS: u32 = 100;

pub(crate) fn name(rt: &impl Abort, alloc: Global, bytes: &[u8]) -> Result<Name, AllocError>
    ensures { IfOk result (λ name. IsTrue (is_name name)) }
{
    let bytes = Vec::from_slice(alloc, bytes)?;
    assert!(rt; is_name(&bytes));
    Ok(Name::of(bytes))
}

// The table T, with a column k of numbers, is made.
pub(crate) fn create(rt: &impl Abort, alloc: Global) -> Result<Statement, AllocError>
    ensures { IfOk result (λ st. IsTrue (is_spelled st)) }
{
    let column = name(rt, alloc, b"k")?;
    let mut columns = Seq::new(alloc);
    columns.push(Column {
        name: column,
        kind: Kind::Int,
    })?;
    let table = name(rt, alloc, b"T")?;
    Ok(Statement::Create { table, columns })
}

// A row of a number is inserted.
pub(crate) fn insert(rt: &impl Abort, alloc: Global, number: i64) -> Result<Statement, AllocError>
    ensures { IfOk result (λ st. IsTrue (is_spelled st)) }
{
    let mut values = Seq::new(alloc);
    values.push(Value::Int(number))?;
    let table = name(rt, alloc, b"T")?;
    Ok(Statement::Insert { table, values })
}

pub(crate) fn new_disk(alloc: Global) -> Result<MemDisk, AllocError> {
    MemDisk::of(alloc, &[], &[], &[])
}

pub(crate) fn made(alloc: Global, disk: &mut MemDisk) -> Result<Engine<'_, MemDisk>, OpenError> {
    match Engine::make(alloc, disk, IDS) {
        Ok(engine) => Ok(engine),
        Err(unopened) => Err(unopened.cause),
    }
}

pub(crate) fn opened(alloc: Global, disk: &mut MemDisk) -> Result<Engine<'_, MemDisk>, OpenError> {
    match Engine::open(alloc, disk, IDS) {
        Ok(engine) => Ok(engine),
        Err(unopened) => Err(unopened.cause),
    }
}

pub(crate) fn opened_again(
    engine: Engine<'_, MemDisk>,
    alloc: Global,
) -> Result<Engine<'_, MemDisk>, OpenError> {
    opened(alloc, engine.release())
}

// Calls of a store that is up.

// Ends the test where the store is down.
pub(crate) fn is_up(rt: &impl Abort, engine: &Engine<'_, MemDisk>)
    ensures { engine.now.store.down ≡ false }
{
    assert!(rt; !engine.down());
}

// Whether a statement is answered by this commit.
pub(crate) fn commits(
    rt: &impl Abort,
    alloc: Global,
    engine: &mut Engine<'_, MemDisk>,
    statement: &Statement,
    number: u32,
) -> bool
    requires { IsTrue (is_spelled statement.now) }
{
    is_up(rt, engine);
    let reply = engine.statement(alloc, 1, statement);
    let commits = matches!(&reply, Reply::Committed(n) if *n == number);
    drop(reply);
    commits
}

// Whether a statement is answered as a change of one row.
pub(crate) fn changes_one(
    rt: &impl Abort,
    alloc: Global,
    engine: &mut Engine<'_, MemDisk>,
    statement: &Statement,
) -> bool
    requires { IsTrue (is_spelled statement.now) }
{
    is_up(rt, engine);
    let reply = engine.statement(alloc, 1, statement);
    let changes = matches!(&reply, Reply::Changed { rows: 1, .. });
    drop(reply);
    changes
}

pub(crate) fn moved(
    rt: &impl Abort,
    alloc: Global,
    engine: &mut Engine<'_, MemDisk>,
    table: &Name,
) -> Result<u32, L1Error> {
    is_up(rt, engine);
    engine.merge_l1(alloc, table, 1)
}

pub(crate) fn shape(
    rt: &impl Abort,
    alloc: Global,
    engine: &mut Engine<'_, MemDisk>,
    table: &Name,
) -> Result<Option<Shape>, AllocError> {
    is_up(rt, engine);
    engine.shape(alloc, table)
}

pub(crate) fn ids(
    rt: &impl Abort,
    alloc: Global,
    engine: &Engine<'_, MemDisk>,
    table: &Name,
) -> Result<Option<Vec<u32>>, AllocError> {
    is_up(rt, engine);
    let Some(rows) = engine.rows(alloc, table)? else {
        return Ok(None);
    };
    let mut ids = Vec::new(alloc);
    for row in rows.as_slice() {
        ids.push(row.id)?;
    }
    Ok(Some(ids))
}

pub(crate) fn lengths(rt: &impl Abort, engine: &Engine<'_, MemDisk>) -> (u32, u32) {
    is_up(rt, engine);
    assert!(rt; engine.tables() == 1 && same_bytes(engine.table_name(0).as_slice(), b"T"));
    (engine.l1_len(0), engine.l2_len(0))
}

pub(crate) fn begun(
    rt: &impl Abort,
    alloc: Global,
    engine: &mut Engine<'_, MemDisk>,
) -> Result<u32, SaveError> {
    is_up(rt, engine);
    engine.save_begin(alloc)
}

pub(crate) fn stepped(rt: &impl Abort, engine: &mut Engine<'_, MemDisk>) -> Result<(), PhaseError> {
    is_up(rt, engine);
    engine.save_step()
}

pub(crate) fn sealed(rt: &impl Abort, engine: &mut Engine<'_, MemDisk>) -> Result<(), PhaseError> {
    is_up(rt, engine);
    engine.save_seal()
}

pub(crate) fn flipped(
    rt: &impl Abort,
    engine: &mut Engine<'_, MemDisk>,
) -> Result<u32, PhaseError> {
    is_up(rt, engine);
    engine.save_flip()
}

pub(crate) fn dropped(rt: &impl Abort, engine: &mut Engine<'_, MemDisk>) -> Result<(), PhaseError> {
    is_up(rt, engine);
    engine.save_drop()
}

pub(crate) fn phase(rt: &impl Abort, engine: &Engine<'_, MemDisk>) -> Progress {
    is_up(rt, engine);
    engine.phase()
}
