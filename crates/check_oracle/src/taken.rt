//! Which rows were deleted behind a session's back.
ghost use Rattle.std.specs.Prelude.{◌≡◌, ◌<◌, ◌-◌, drop, length};
ghost use Rattle.std.specs.List.{list_any};
ghost use Rattle.ut_plain.specs.Rows.{deletes, op_deletes};
ghost use Rattle.ut_plain.specs.State.{entry_deletes};
ghost use Rattle.ut_plain.specs.Plain.{open_deletes, others, looks_at, open_at, is_taken};
ghost use Rattle.ut_plain.specs.Refusals.{first_taken};
ghost use Rattle.check_oracle.specs.Store.{plain_of};

use crate::held::Held;
use ut_plain::{OpenTransaction, Stored};
use ut_value::{Entry, Op};

fn op_deletes(op: &Op, id: u32) -> bool
    ensures { result ≡ op_deletes id op.now }
{
    match op {
        Op::Insert { .. } => false,
        Op::Delete { id: other, .. } => id == *other,
    }
}

fn deletes(ops: &[Op], id: u32) -> bool
    ensures { result ≡ deletes id ops.now }
{
    ops.iter().any(|op| op_deletes(op, id))
}

fn entry_deletes(entry: &Entry, id: u32) -> bool
    ensures { result ≡ entry_deletes id entry.now }
{
    match entry {
        Entry::Txn { ops } => deletes(ops.as_slice(), id),
        Entry::Create { .. } => false,
        Entry::Begun { .. } => false,
        Entry::Ended { .. } => false,
    }
}

fn deleted_from(entries: &[Entry], id: u32) -> bool
    ensures { result ≡ list_any (entry_deletes id) entries.now }
{
    entries.iter().any(|entry| entry_deletes(entry, id))
}

// Whether one of the entries from a place on deletes a row.
fn deleted_after(entries: &[Entry], from: usize, id: u32) -> bool
    ensures { result ≡ list_any (entry_deletes id) (drop from entries.now) }
{
    if from >= entries.len() {
        return false;
    }
    deleted_from(&entries[from..], id)
}

fn open_deletes(transaction: &Option<OpenTransaction>, id: u32) -> bool
    ensures { result ≡ open_deletes id transaction.now }
{
    match transaction {
        None => false,
        Some(open) => deletes(open.ops.as_slice(), id),
    }
}

fn any_deletes(sessions: &[Option<OpenTransaction>], id: u32) -> bool
    ensures { result ≡ list_any (open_deletes id) sessions.now }
{
    sessions
        .iter()
        .any(|transaction| open_deletes(transaction, id))
}

// Whether a session but this one deletes a row.
fn others_delete(sessions: &[Option<OpenTransaction>], session: usize, id: u32) -> bool
    requires { session < length sessions.now }
    ensures { result ≡ list_any (open_deletes id) (others sessions.now session) }
{
    let before = any_deletes(&sessions[..session], id);
    let behind = any_deletes(&sessions[session + 1..], id);
    before || behind
}

// How many entries behind the base a session looks at.
fn looks_at(held: &Held, session: u8) -> usize
    requires { session < length held.now.sessions.items }
    ensures { result ≡ looks_at (plain_of held.now).journal (open_at held.now.sessions.items session) - (plain_of held.now).journal.base.length }
{
    match held.own(session) {
        None => held.entries.len(),
        Some(own) => (own.snapshot as usize).saturating_sub(held.first.len()),
    }
}

// Whether a row was deleted by an entry behind a session's snapshot, or by another session.
fn is_taken(held: &Held, session: u8, id: u32) -> bool
    requires { session < length held.now.sessions.items }
    ensures { result ≡ is_taken (plain_of held.now) session id }
{
    let from = looks_at(held, session);
    let by_entry = deleted_after(held.entries.as_slice(), from, id);
    let by_others = others_delete(held.sessions.as_slice(), usize::from(session), id);
    by_entry || by_others
}

/// The first of these rows that was taken.
pub(crate) fn first_taken(held: &Held, session: u8, rows: &[(u32, Stored)]) -> Option<u32>
    requires { session < length held.now.sessions.items }
    ensures { result ≡ first_taken (is_taken (plain_of held.now) session) rows.now }
{
    for row in rows {
        if is_taken(held, session, row.0) {
            return Some(row.0);
        }
    }
    None
}
