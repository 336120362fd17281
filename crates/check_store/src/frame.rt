//! A frame by each of its calls, byte for byte; a frame that grows by inserts stands beside the inserts.
use std::alloc::{AllocError, Global};
use std::process::Abort;
use ut_entry::{add_op, begin_txn, entry_from, op_len};
use ut_frame::Frame;
use ut_value::{Op, same_bytes};

/// A table of one column.
const CREATE: &[u8] = b"\x01\x01T\x01\x00\x01k";

/// A transaction of one delete.
const DELETE: &[u8] = b"\x02\x01\0\0\0\x02\x03\0\x0a\0\0\0";

/// The frame of the entry that these bytes spell.
pub(crate) fn frame_of(rt: &impl Abort, alloc: Global, bytes: &[u8]) -> Result<Frame, AllocError> {
    let Some((entry, _)) = entry_from(alloc, bytes)? else {
        panic!(rt; "no entry")
    };
    let frame = Frame::of(alloc, &entry);
    drop(entry);
    frame
}

#[test]
fn a_frame_has_its_entry_between_a_length_and_a_gate(rt: HostRuntime) -> Result<(), AllocError> {
    let frame = frame_of(&rt, rt.alloc(), CREATE)?;
    assert!(rt; frame.size() == 7 && same_bytes(frame.payload(), CREATE));
    assert!(rt; same_bytes(frame.as_slice(), b"\x07\0\0\0\x01\x01T\x01\x00\x01k\0"));
    Ok(())
}

// The frame of a transaction that grows by a delete, in room that is made for it.
fn grown(rt: &impl Abort, alloc: Global) -> Result<Frame, AllocError> {
    let mut frame = Frame::txn(alloc)?;
    assert!(rt; frame.size() == 5);
    let op = Op::Delete { table: 3, id: 10 };
    frame.room(op_len(&op))?;
    frame.add(&op);
    drop(op);
    Ok(frame)
}

#[test]
fn a_frame_grows_and_is_cleared(rt: HostRuntime) -> Result<(), AllocError> {
    let mut frame = grown(&rt, rt.alloc())?;
    assert!(rt; frame.size() == 12 && same_bytes(frame.payload(), DELETE));
    frame.clear();
    assert!(rt; same_bytes(frame.as_slice(), b"\x05\0\0\0\x02\0\0\0\0\0"));
    Ok(())
}

// The payload of a transaction that grows by a delete, in room that is made for it.
fn grown_payload(alloc: Global) -> Result<Vec<u8>, AllocError> {
    let mut payload = Vec::new(alloc);
    begin_txn(&mut payload)?;
    let op = Op::Delete { table: 3, id: 10 };
    payload.reserve(op_len(&op) as usize)?;
    add_op(&mut payload, &op);
    drop(op);
    Ok(payload)
}

#[test]
fn a_payload_begins_and_grows(rt: HostRuntime) -> Result<(), AllocError> {
    let payload = grown_payload(rt.alloc())?;
    assert!(rt; same_bytes(&payload, DELETE));
    Ok(())
}
