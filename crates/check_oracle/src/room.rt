//! The limits that a statement keeps to.
ghost use Rattle.std.specs.Prelude.{◌≡◌, ◌+◌, ◌<◌, ◌++◌, ◌||◌, length, nat_eq, nat_le, nat_lt, IfSome, IfNone};
ghost use Rattle.std.specs.List.{sum_by};
ghost use Rattle.ut_value.specs.declared.entry.Op.{Op};
ghost use Rattle.ut_value.specs.declared.entry.Entry.TheVariants.{Txn};
ghost use Rattle.ut_value.specs.Spelling.{value_len, op_len, ops_len, entry_len};
ghost use Rattle.ut_plain.specs.Journal.{journal_len};
ghost use Rattle.ut_plain.specs.View.{view, own_ops};
ghost use Rattle.ut_plain.specs.Limits.{has_ops_room};
ghost use Rattle.ut_plain.specs.Reached.{IsPlain};
ghost use Rattle.check_oracle.specs.Store.{plain_of};

use crate::held::Held;
use check_rows::inserts_of;
use ut_plain::OpenTransaction;
use ut_value::{ENTRIES_LIMIT, ENTRY_LIMIT, Op, Value};

/// The most entries, but for the last end of a merge.
const MAX_ENTRIES: usize = ENTRIES_LIMIT as usize;

/// The most pages.
const MAX_PAGES: u64 = 4294967295;

/// The most bytes of the operations of one entry, which stand behind five others.
const MAX_OPS_LEN: u32 = ENTRY_LIMIT - 5;

/// Whether the journal may have one more entry.
pub(crate) fn has_journal_room(held: &Held) -> bool
    requires { IsPlain (plain_of held.now) }
    ensures { result ≡ nat_lt (journal_len (plain_of held.now).journal) 1073741823 }
{
    held.journal_len() < MAX_ENTRIES
}

/// Whether the pages that are told have numbers, with the first three and those that the selected root reaches.
pub(crate) fn has_page_room(held: &Held) -> bool
    ensures { result ≡ nat_le (3 + held.now.told + held.now.root_pages) 4294967295 }
{
    let told = held.told;
    let root_pages = held.root_pages;
    3 + u64::from(told) + u64::from(root_pages) <= MAX_PAGES
}

/// Whether there are ids for so many rows.
pub(crate) fn has_ids(held: &Held, rows: usize) -> bool
    ensures { result ≡ (nat_eq rows 0 || nat_le (held.now.next_id + rows) (held.now.rows_limit + 1)) }
{
    let end = u64::from(held.rows_limit) + 1;
    let next = u64::from(held.next_id);
    let fits = next <= end && rows as u64 <= end - next;
    rows == 0 || fits
}

fn value_len(value: &Value) -> u32
    ensures { result ≡ value_len value.now }
{
    match value {
        Value::Int(_) => 9,
        Value::Text(text) => text.as_slice().len() as u32 + 2,
    }
}

// What is left of a room behind values, none where they need more.
fn left_by_values(room: u32, values: &[Value]) -> Option<u32>
    ensures left { IfSome result (λ left. left + sum_by value_len values.now ≡ room) }
    ensures more { IfNone result (room < sum_by value_len values.now) }
{
    let mut left = room;
    for value in values {
        let bytes = value_len(value);
        if bytes > left {
            return None;
        }
        left -= bytes;
    }
    Some(left)
}

fn left_by_op(room: u32, op: &Op) -> Option<u32>
    ensures left { IfSome result (λ left. left + op_len op.now ≡ room) }
    ensures more { IfNone result (room < op_len op.now) }
{
    match op {
        Op::Insert { values, .. } => {
            if room < 8 {
                return None;
            }
            left_by_values(room - 8, values.as_slice())
        }
        Op::Delete { .. } => {
            if room < 7 {
                return None;
            }
            Some(room - 7)
        }
    }
}

// What is left of a room behind operations, none where they need more.
fn left_by_ops(room: u32, ops: &[Op]) -> Option<u32>
    ensures left { IfSome result (λ left. left + ops_len ops.now ≡ room) }
    ensures more { IfNone result (room < ops_len ops.now) }
{
    let mut left = room;
    for op in ops {
        match left_by_op(left, op) {
            None => return None,
            Some(rest) => left = rest,
        }
    }
    Some(left)
}

// Whether own operations and these have the bytes of one entry.
fn has_bytes(own: &[Op], ops: &[Op]) -> bool
    ensures { result ≡ nat_le (entry_len (Txn (own.now ++ ops.now))) 1073741824 }
{
    match left_by_ops(MAX_OPS_LEN, own) {
        None => false,
        Some(left) => left_by_ops(left, ops).is_some(),
    }
}

fn has_entry_room(own: &Option<OpenTransaction>, ops: &[Op]) -> bool
    ensures { result ≡ nat_le (entry_len (Txn (own_ops own.now ++ ops.now))) 1073741824 }
{
    match own {
        None => has_bytes(&[], ops),
        Some(open) => has_bytes(open.ops.as_slice(), ops),
    }
}

/// Whether operations keep to the limits.
pub(crate) fn has_ops_room(held: &Held, session: u8, ops: &[Op]) -> bool
    requires plain { IsPlain (plain_of held.now) }
    requires seat { session < length held.now.sessions.items }
    ensures { result ≡ has_ops_room (view (plain_of held.now) session) ops.now }
{
    if ops.is_empty() {
        return true;
    }
    let own = held.own(session);
    let ids = has_ids(held, inserts_of(ops));
    let bytes = has_entry_room(own, ops);
    let entry = own.is_some() || has_journal_room(held);
    ids && bytes && entry
}
