//! The inserts of a bulk and of a session, as the bytes that they are in the log.
ghost use Rattle.ut_change.specs.Bulks.{CanLoad};

use std::alloc::{AllocError, Global};
use std::process::Abort;
use std::test::Fail;
use ut_change::Bulk;
use ut_entry::insert_len;
use ut_outside::{MemDisk, Which};
use ut_redo::{Frame, Redo};
use ut_txn::Sessions;
use ut_value::{Text, Value, is_text, same_bytes, values_keep_rules};

/// The log of a transaction without operations.
const NONE: &[u8] = b"\xa7\x05\0\0\0\x02\0\0\0\0\0";

/// The log of two inserts into table 258: row 9 of 5 and a text, and row 10 of -7 and another one.
const TWO: &[u8] = b"\xa7\x2e\0\0\0\x02\x02\0\0\0\
    \x01\x02\x01\x09\0\0\0\x02\0\x80\0\0\0\0\0\0\x05\x01\x01a\
    \x01\x02\x01\x0a\0\0\0\x02\0\x7f\xff\xff\xff\xff\xff\xff\xf9\x01\x02bc\0";

/// The log of one insert into table 258: the row with the greatest id, of -1.
const ONE: &[u8] = b"\xa7\x16\0\0\0\x02\x01\0\0\0\
    \x01\x02\x01\xff\xff\xff\xff\x01\0\x7f\xff\xff\xff\xff\xff\xff\xff\0";

fn text(rt: &impl Abort, alloc: Global, bytes: &[u8]) -> Result<Value, AllocError> {
    assert!(rt; is_text(bytes));
    Ok(Value::Text(Text::from_slice(alloc, bytes)?))
}

// The values of two rows.
fn values(rt: &impl Abort, alloc: Global) -> Result<Vec<Value>, AllocError> {
    let mut values = Vec::new(alloc);
    values.push(Value::Int(5))?;
    values.push(text(rt, alloc, b"a")?)?;
    values.push(Value::Int(-7))?;
    values.push(text(rt, alloc, b"bc")?)?;
    Ok(values)
}

// Rows of two values each.
fn pairs(values: &[Value]) -> Bulk<'_> {
    Bulk {
        table: 258,
        id: 9,
        width: 2,
        values,
    }
}

/// Ends the test where the rows of a bulk have no inserts.
pub(crate) fn can_load(rt: &impl Abort, bulk: Bulk<'_>)
    ensures { CanLoad bulk.entry }
{
    assert!(rt; bulk.width > 0);
    assert!(rt; bulk.width <= 64);
    assert!(rt; bulk.values.len() <= 1000);
    assert!(rt; bulk.id <= 1_000_000);
    values_keep_rules(bulk.values);
}

// The inserts have so many bytes, where they may have at most so many.
fn has_len(rt: &impl Abort, bulk: Bulk<'_>, most: u32, len: Option<u32>) {
    can_load(rt, bulk);
    assert!(rt; most <= 1 << 30);
    assert!(rt; bulk.ops_len(most) == len, "at most {most}");
}

fn have_lengths(rt: &impl Abort, values: &[Value]) {
    let table = [(1 << 30, Some(41)), (41, Some(41)), (40, None), (0, None)];
    for (most, len) in table {
        has_len(rt, pairs(values), most, len);
    }
    has_len(rt, pairs(&[]), 0, Some(0));
}

// So many values are inserts of so many bytes.
fn have_bytes(rt: &impl Abort, values: &[Value]) {
    for (count, bytes) in [(0, 0), (1, 17), (2, 20), (3, 37), (4, 41)] {
        assert!(rt; count <= values.len());
        has_len(rt, pairs(&values[..count]), 1000, Some(bytes));
    }
}

#[test]
fn a_bulk_knows_the_length_of_its_inserts(rt: HostRuntime) -> Result<(), Fail> {
    let values = values(&rt, rt.alloc())?;
    have_lengths(&rt, &values);
    have_bytes(&rt, &values);
    Ok(())
}

// The log begins with a frame.
fn begin_log(disk: &mut MemDisk, frame: &Frame) -> Result<(), Fail> {
    let mut redo = Redo::make(disk)?;
    redo.append(disk, frame)?;
    Ok(())
}

// The bytes of a log of one frame.
fn logged(alloc: Global, frame: &Frame) -> Result<MemDisk, Fail> {
    let mut disk = MemDisk::of(alloc, &[], &[], &[])?;
    begin_log(&mut disk, frame)?;
    Ok(disk)
}

// A log of one frame has these bytes.
fn is_logged(rt: &impl Abort, alloc: Global, frame: &Frame, bytes: &[u8]) -> Result<(), Fail> {
    let log = logged(alloc, frame)?;
    let is_right = same_bytes(log.bytes(Which::Redo), bytes);
    drop(log);
    assert!(rt; is_right);
    Ok(())
}

// The frame of an entry of the inserts.
fn framed(rt: &impl Abort, alloc: Global, bulk: Bulk<'_>) -> Result<Frame, AllocError> {
    can_load(rt, bulk);
    let Some(bytes) = bulk.ops_len(1000) else {
        panic!(rt; "over a thousand bytes");
    };
    let mut frame = Frame::txn(alloc)?;
    bulk.spell(&mut frame, bytes)?;
    Ok(frame)
}

fn is_framed(rt: &impl Abort, alloc: Global, bulk: Bulk<'_>, bytes: &[u8]) -> Result<(), Fail> {
    let frame = framed(rt, alloc, bulk)?;
    is_logged(rt, alloc, &frame, bytes)
}

#[test]
fn a_bulk_is_framed(rt: HostRuntime) -> Result<(), Fail> {
    let values = values(&rt, rt.alloc())?;
    is_framed(&rt, rt.alloc(), pairs(&[]), NONE)?;
    is_framed(&rt, rt.alloc(), pairs(&values), TWO)
}

// The inserts of a bulk join a session's, in room that is made for them.
fn note(
    rt: &impl Abort,
    sessions: &mut Sessions,
    session: u8,
    bulk: Bulk<'_>,
) -> Result<(), AllocError> {
    can_load(rt, bulk);
    assert!(rt; session < 17);
    match bulk.ops_len(1000) {
        Some(bytes) => {
            sessions.room(session, bytes)?;
            assert!(rt; sessions.size(session) <= 1000);
            bulk.note(sessions, session);
            Ok(())
        }
        None => panic!(rt; "over a thousand bytes"),
    }
}

// A session's commit appends these bytes, and it has no operations then.
fn commits(
    rt: &impl Abort,
    alloc: Global,
    sessions: &mut Sessions,
    session: u8,
    bytes: &[u8],
) -> Result<(), Fail> {
    assert!(rt; session < 17 && sessions.has_own(session));
    let mut frame = Frame::txn(alloc)?;
    sessions.take_frame(session, &mut frame);
    assert!(rt; !sessions.has_own(session));
    is_logged(rt, alloc, &frame, bytes)
}

// Rows join the operations of the fourth session.
fn note_rows(rt: &impl Abort, sessions: &mut Sessions, values: &[Value]) -> Result<(), AllocError> {
    note(rt, sessions, 3, pairs(&[]))?;
    assert!(rt; sessions.size(3) == 5);
    note(rt, sessions, 3, pairs(values))?;
    assert!(rt; sessions.size(3) == 46 && sessions.size(4) == 5);
    Ok(())
}

fn joins(rt: &impl Abort, alloc: Global, sessions: &mut Sessions) -> Result<(), AllocError> {
    let values = values(rt, alloc)?;
    note_rows(rt, sessions, &values)
}

#[test]
fn a_bulk_joins_a_session(rt: HostRuntime) -> Result<(), Fail> {
    let mut sessions = Sessions::new(rt.alloc())?;
    joins(&rt, rt.alloc(), &mut sessions)?;
    commits(&rt, rt.alloc(), &mut sessions, 3, TWO)
}

// An insert joins the operations of the last session.
fn note_one(rt: &impl Abort, sessions: &mut Sessions) -> Result<(), AllocError> {
    let values = [Value::Int(-1)];
    sessions.room(16, insert_len(&values))?;
    assert!(rt; sessions.size(16) == 5);
    sessions.note_insert(16, 258, u32::MAX, &values);
    Ok(())
}

#[test]
fn an_insert_joins_a_session(rt: HostRuntime) -> Result<(), Fail> {
    let mut sessions = Sessions::new(rt.alloc())?;
    note_one(&rt, &mut sessions)?;
    assert!(rt; sessions.size(16) == 22 && sessions.size(15) == 5);
    commits(&rt, rt.alloc(), &mut sessions, 16, ONE)
}
