//! The texts of replies.
ghost use Rattle.std.specs.Prelude.{◌≡◌, ◌<◌, ◌≤◌, ◌+◌, ◌*◌, ◌++◌, true, OnOk, OnErr, length, decimal, vec_len, vec_capacity};
ghost use Rattle.ut_reply.specs.Texts.{reply_text, reply_body, reply_room, items_room, is_small, session_text, refusal_text, why_text, changed_text, number_or_none, value_or_none, value_or_none_room, parts_text, shape_text};

use crate::room::room_of;
use crate::values::{add_groups, add_parts, add_rows, add_value};
use std::alloc::AllocError;
use ut_digits::{add, add_number};
use ut_plain::{Refusal, Reply, Shape, Why};
use ut_value::Value;

/// Puts the text of a reply at the end. Where there is no memory for it, nothing changes.
pub fn put_reply(out: &mut Vec<u8>, session: Option<u8>, reply: &Reply) -> Result<(), AllocError>
    ensures text { OnOk result (out.new.items ≡ out.old.items ++ reply_text session reply.now) }
    ensures same { OnErr result (out.new.items ≡ out.old.items) }
    ensures full { OnErr result (vec_capacity out.old < vec_len out.old + reply_room reply.now) }
    ensures capacity { vec_capacity out.old ≤ vec_capacity out.new }
{
    let Some(room) = room_of(*out.allocator(), reply) else {
        return Err(AllocError);
    };
    out.reserve(room)?;
    add_reply(out, session, reply);
    Ok(())
}

/// Puts the text of a reply without rows, groups, values or parts where there is room for it. It takes no memory.
pub fn put_small(out: &mut Vec<u8>, session: Option<u8>, reply: &Reply)
    requires room { vec_len out.old + 96 ≤ vec_capacity out.old }
    requires small { is_small reply.now ≡ true }
    ensures text { out.new.items ≡ out.old.items ++ reply_text session reply.now }
    ensures len { vec_len out.new ≤ vec_len out.old + 96 }
    ensures capacity { vec_capacity out.old ≤ vec_capacity out.new }
{
    add_reply(out, session, reply);
}

fn add_reply(out: &mut Vec<u8>, session: Option<u8>, reply: &Reply)
    requires room { vec_len out.old + reply_room reply.now ≤ vec_capacity out.old }
    ensures text { out.new.items ≡ out.old.items ++ reply_text session reply.now }
    ensures len { vec_len out.new ≤ vec_len out.old + reply_room reply.now }
    ensures capacity { vec_capacity out.old ≤ vec_capacity out.new }
{
    add_session(out, session);
    add_body(out, reply);
    add(out, b"\n");
}

fn add_session(out: &mut Vec<u8>, session: Option<u8>)
    requires room { vec_len out.old + 4 ≤ vec_capacity out.old }
    ensures text { out.new.items ≡ out.old.items ++ session_text session }
    ensures len { vec_len out.new ≤ vec_len out.old + 4 }
    ensures capacity { vec_capacity out.old ≤ vec_capacity out.new }
{
    match session {
        None => add(out, b"? "),
        Some(number) => {
            add_number(out, number);
            add(out, b" ");
        }
    }
}

fn add_body(out: &mut Vec<u8>, reply: &Reply)
    requires room { vec_len out.old + (items_room reply.now + 90) ≤ vec_capacity out.old }
    ensures text { out.new.items ≡ out.old.items ++ reply_body reply.now }
    ensures len { vec_len out.new ≤ vec_len out.old + (items_room reply.now + 90) }
    ensures capacity { vec_capacity out.old ≤ vec_capacity out.new }
{
    match reply {
        Reply::Done => add(out, b"ok"),
        Reply::Committed(number) => add_named(out, b"ok commit ", *number),
        Reply::Changed { rows, commit } => add_changed(out, *rows, *commit),
        Reply::Rows(tuples) => add_rows(out, tuples),
        Reply::Groups(groups) => add_groups(out, groups.as_slice()),
        Reply::Count(number) => add_named(out, b"count ", *number),
        Reply::Sum(number) => {
            add(out, b"sum ");
            add_number(out, *number);
        }
        Reply::Min(value) => add_value_or_none(out, b"min ", value),
        Reply::Max(value) => add_value_or_none(out, b"max ", value),
        Reply::Moved(number) => add_named(out, b"ok ", *number),
        Reply::Merge(number) => add_named(out, b"ok ", *number),
        Reply::Saving { done, pages } => {
            add_named(out, b"ok ", *done);
            add_named(out, b" of ", *pages);
        }
        Reply::Sealed(number) => add_named(out, b"ok sealed ", *number),
        Reply::Root(number) => add_named(out, b"ok root ", *number),
        Reply::Shape(shape) => add_shape(out, shape),
        Reply::Refused(why) => {
            add(out, b"refused ");
            add_refusal(out, *why);
        }
        Reply::DiskFault => add(out, b"fault disk"),
    }
}

// A word or two, and a number.
fn add_named(out: &mut Vec<u8>, name: &[u8], number: u32)
    requires room { vec_len out.old + (length name.now + 10) ≤ vec_capacity out.old }
    ensures text { out.new.items ≡ out.old.items ++ name.now ++ decimal number }
    ensures len { vec_len out.new ≤ vec_len out.old + (length name.now + 10) }
    ensures capacity { vec_capacity out.old ≤ vec_capacity out.new }
{
    add(out, name);
    add_number(out, number);
}

fn add_changed(out: &mut Vec<u8>, rows: u32, commit: Option<u32>)
    requires room { vec_len out.old + 31 ≤ vec_capacity out.old }
    ensures text { out.new.items ≡ out.old.items ++ changed_text rows commit }
    ensures len { vec_len out.new ≤ vec_len out.old + 31 }
    ensures capacity { vec_capacity out.old ≤ vec_capacity out.new }
{
    match commit {
        None => add_named(out, b"ok ", rows),
        Some(number) => {
            add_named(out, b"ok ", rows);
            add_named(out, b" commit ", number);
        }
    }
}

fn add_value_or_none(out: &mut Vec<u8>, name: &[u8], value: &Option<Value>)
    requires room { vec_len out.old + (value_or_none_room value.now + length name.now + 4) ≤ vec_capacity out.old }
    ensures text { out.new.items ≡ out.old.items ++ name.now ++ value_or_none value.now }
    ensures len { vec_len out.new ≤ vec_len out.old + (value_or_none_room value.now + length name.now + 4) }
    ensures capacity { vec_capacity out.old ≤ vec_capacity out.new }
{
    add(out, name);
    match value {
        None => add(out, b"none"),
        Some(value) => add_value(out, value),
    }
}

fn add_shape(out: &mut Vec<u8>, shape: &Shape)
    requires room { vec_len out.old + (11 * length shape.now.parts + 80) ≤ vec_capacity out.old }
    ensures text { out.new.items ≡ out.old.items ++ shape_text shape.now }
    ensures len { vec_len out.new ≤ vec_len out.old + (11 * length shape.now.parts + 80) }
    ensures capacity { vec_capacity out.old ≤ vec_capacity out.new }
{
    add_named(out, b"shape l1 ", shape.l1);
    add_named(out, b" l2 ", shape.l2);
    add(out, b" closed ");
    add_number_or_none(out, shape.closed);
    add(out, b" parts");
    add_parts_or_none(out, shape.parts.as_slice());
}

fn add_number_or_none(out: &mut Vec<u8>, number: Option<u32>)
    requires room { vec_len out.old + 10 ≤ vec_capacity out.old }
    ensures text { out.new.items ≡ out.old.items ++ number_or_none number }
    ensures len { vec_len out.new ≤ vec_len out.old + 10 }
    ensures capacity { vec_capacity out.old ≤ vec_capacity out.new }
{
    match number {
        None => add(out, b"none"),
        Some(number) => add_number(out, number),
    }
}

fn add_parts_or_none(out: &mut Vec<u8>, parts: &[u32])
    requires room { vec_len out.old + (11 * length parts.now + 5) ≤ vec_capacity out.old }
    ensures text { out.new.items ≡ out.old.items ++ parts_text parts.now }
    ensures len { vec_len out.new ≤ vec_len out.old + (11 * length parts.now + 5) }
    ensures capacity { vec_capacity out.old ≤ vec_capacity out.new }
{
    match parts {
        [] => add(out, b" none"),
        [_, ..] => add_parts(out, parts),
    }
}

fn add_refusal(out: &mut Vec<u8>, why: Refusal)
    requires room { vec_len out.old + 20 ≤ vec_capacity out.old }
    ensures text { out.new.items ≡ out.old.items ++ refusal_text why }
    ensures len { vec_len out.new ≤ vec_len out.old + 20 }
    ensures capacity { vec_capacity out.old ≤ vec_capacity out.new }
{
    match why {
        Refusal::Syntax => add(out, b"syntax"),
        Refusal::Name => add(out, b"name"),
        Refusal::Kind => add(out, b"type"),
        Refusal::State(why) => add_why(out, why),
        Refusal::Full => add(out, b"full"),
        Refusal::Conflict(id) => add_named(out, b"conflict ", id),
        Refusal::Memory => add(out, b"memory"),
    }
}

fn add_why(out: &mut Vec<u8>, why: Why)
    requires room { vec_len out.old + 20 ≤ vec_capacity out.old }
    ensures text { out.new.items ≡ out.old.items ++ why_text why }
    ensures len { vec_len out.new ≤ vec_len out.old + 20 }
    ensures capacity { vec_capacity out.old ≤ vec_capacity out.new }
{
    match why {
        Why::TxnOpen => add(out, b"open"),
        Why::TxnClosed => add(out, b"closed"),
        Why::Busy(number) => add_named(out, b"busy ", number),
        Why::Nothing => add(out, b"none"),
        Why::Saving => add(out, b"saving"),
        Why::Written => add(out, b"written"),
        Why::Unwritten => add(out, b"unwritten"),
        Why::Sealed => add(out, b"sealed"),
        Why::Unsealed => add(out, b"unsealed"),
    }
}
