//! Inserts by their values alone: their lengths, their bytes, and the frame of a transaction that grows by them.
ghost use Rattle.std.specs.Prelude.{◌≤◌, IfOk, IsTrue};
ghost use Rattle.std.specs.List.{sum_by};
ghost use Rattle.ut_value.specs.Spelling.{are_values, value_len};

use std::alloc::{AllocError, Global};
use std::process::Abort;
use std::test::Fail;
use ut_entry::{insert_len, put_insert};
use ut_outside::{Failed, MemDisk, Which};
use ut_redo::{Frame, Redo};
use ut_value::{Text, Value, is_text, same_bytes, values_keep_rules};

/// A row of a number, and of a text where there is one, with the bytes of its insert.
struct Case<'a> {
    table: u16,
    id: u32,
    number: i64,
    text: Option<&'a [u8]>,
    bytes: &'a [u8],
}

const CASES: [Case<'static>; 3] = [
    Case {
        table: 0,
        id: 1,
        number: 5,
        text: Some(b"a"),
        bytes: b"\x01\0\0\x01\0\0\0\x02\0\x80\0\0\0\0\0\0\x05\x01\x01a",
    },
    Case {
        table: 258,
        id: 0x0102_0304,
        number: i64::MIN,
        text: None,
        bytes: b"\x01\x02\x01\x04\x03\x02\x01\x01\0\0\0\0\0\0\0\0\0",
    },
    Case {
        table: u16::MAX,
        id: u32::MAX,
        number: i64::MAX,
        text: Some(b""),
        bytes: b"\x01\xff\xff\xff\xff\xff\xff\x02\0\xff\xff\xff\xff\xff\xff\xff\xff\x01\0",
    },
];

// The values of a row.
fn values_of(
    rt: &impl Abort,
    alloc: Global,
    number: i64,
    text: Option<&[u8]>,
) -> Result<Vec<Value>, AllocError>
    ensures { IfOk result (λ values. sum_by value_len values.items ≤ 266) }
{
    let mut values = Vec::new(alloc);
    values.push(Value::Int(number))?;
    if let Some(bytes) = text {
        assert!(rt; bytes.len() <= 255 && is_text(bytes));
        values.push(Value::Text(Text::from_slice(alloc, bytes)?))?;
    }
    Ok(values)
}

// Ends the test where the values are no row's.
fn have_spelling(rt: &impl Abort, values: &[Value])
    ensures { IsTrue (are_values values.now) }
{
    assert!(rt; !values.is_empty() && values.len() <= 64);
    values_keep_rules(values);
}

// The bytes of an insert, in room for just these.
fn spelled(
    rt: &impl Abort,
    alloc: Global,
    table: u16,
    id: u32,
    values: &[Value],
) -> Result<Vec<u8>, AllocError>
    requires { sum_by value_len values.now ≤ 266 }
{
    have_spelling(rt, values);
    let len = insert_len(values) as usize;
    let mut bytes = Vec::with_capacity(alloc, len)?;
    put_insert(table, id, values, &mut bytes);
    assert!(rt; bytes.len() == len);
    Ok(bytes)
}

// The bytes of the insert of a row.
fn row_spelled(
    rt: &impl Abort,
    alloc: Global,
    table: u16,
    id: u32,
    number: i64,
    text: Option<&[u8]>,
) -> Result<Vec<u8>, AllocError> {
    let values = values_of(rt, alloc, number, text)?;
    spelled(rt, alloc, table, id, &values)
}

#[test]
fn an_insert_is_spelled_from_its_values(rt: HostRuntime) -> Result<(), AllocError> {
    assert!(rt; insert_len(&[]) == 8);
    for case in &CASES {
        let bytes = row_spelled(&rt, rt.alloc(), case.table, case.id, case.number, case.text)?;
        assert!(rt; same_bytes(&bytes, case.bytes), "{}", case.table);
    }
    Ok(())
}

#[test]
fn the_longest_text_is_spelled(rt: HostRuntime) -> Result<(), AllocError> {
    let bytes = row_spelled(&rt, rt.alloc(), 0, 0, 0, Some(&[b'x'; 255]))?;
    assert!(rt; bytes.len() == 8 + 9 + 2 + 255 && same_bytes(&bytes[17..20], b"\x01\xffx"));
    Ok(())
}

// An insert joins a frame, in room that is made for it.
fn add(
    rt: &impl Abort,
    frame: &mut Frame,
    table: u16,
    id: u32,
    values: &[Value],
) -> Result<(), AllocError>
    requires { sum_by value_len values.now ≤ 266 }
{
    have_spelling(rt, values);
    assert!(rt; frame.size() <= 1000);
    frame.room(insert_len(values))?;
    frame.add_insert(table, id, values);
    Ok(())
}

// The log begins with a frame.
fn begin_log(disk: &mut MemDisk, frame: &Frame) -> Result<(), Failed> {
    let mut redo = Redo::make(disk)?;
    redo.append(disk, frame)
}

// A log of one frame has these bytes.
fn is_logged(rt: &impl Abort, alloc: Global, frame: &Frame, bytes: &[u8]) -> Result<(), Fail> {
    let mut disk = MemDisk::of(alloc, &[], &[], &[])?;
    let begun = begin_log(&mut disk, frame);
    let is_right = same_bytes(disk.bytes(Which::Redo), bytes);
    drop(disk);
    begun?;
    assert!(rt; is_right);
    Ok(())
}

/// The log of a transaction without operations.
const NONE: &[u8] = b"\xa7\x05\0\0\0\x02\0\0\0\0\0";

/// The gate, the length and the head of a transaction, its two inserts, and the next gate.
const LOG: &[u8] = b"\xa7\x2a\0\0\0\x02\x02\0\0\0\
    \x01\0\0\x01\0\0\0\x02\0\x80\0\0\0\0\0\0\x05\x01\x01a\
    \x01\x02\x01\x04\x03\x02\x01\x01\0\0\0\0\0\0\0\0\0\0";

// The first two inserts join a frame.
fn add_two(rt: &impl Abort, alloc: Global, frame: &mut Frame) -> Result<(), AllocError> {
    for case in &CASES[..2] {
        let values = values_of(rt, alloc, case.number, case.text)?;
        add(rt, frame, case.table, case.id, &values)?;
    }
    assert!(rt; frame.size() == 42);
    Ok(())
}

// A frame has no insert, and then two.
fn grows(rt: &impl Abort, alloc: Global, frame: &mut Frame) -> Result<(), Fail> {
    is_logged(rt, alloc, frame, NONE)?;
    add_two(rt, alloc, frame)?;
    is_logged(rt, alloc, frame, LOG)
}

#[test]
fn a_frame_grows_by_inserts(rt: HostRuntime) -> Result<(), Fail> {
    let mut frame = Frame::txn(rt.alloc())?;
    grows(&rt, rt.alloc(), &mut frame)
}
