//! Statements that change rows.
ghost use Rattle.std.specs.Prelude.{◌≡◌, ◌≤◌, ◌<◌, ◌+◌, ◌++◌, length, IsTrue, IfOk};
ghost use Rattle.ut_plain.specs.Rows.{inserts_of};
ghost use Rattle.ut_plain.specs.Stages.{with_inserts};
ghost use Rattle.ut_plain.specs.Journal.{current};
ghost use Rattle.ut_plain.specs.Plain.{open_at, with_session};
ghost use Rattle.ut_plain.specs.View.{view};
ghost use Rattle.ut_plain.specs.Limits.{has_ops_room};
ghost use Rattle.ut_plain.specs.Reached.{IsPlain};
ghost use Rattle.ut_plain.specs.Step.{with_txn, with_made, said_changed, said_alone};
ghost use Rattle.check_oracle.specs.Store.{plain_of, Gives, change_step, changed_by};

use crate::held::Held;
use crate::outcome::{Outcome, refused};
use crate::room::has_ops_room;
use check_rows::inserts_of;
use check_stages::{place_all, stages_copied};
use std::alloc::{AllocError, Global};
use ut_plain::{OpenTransaction, Refusal, Reply, TableStages};
use ut_value::{Duplicate, Entry, Op, Seq};

/// A change that a statement comes to: its operations, how many rows it changes, and the first of them that was taken.
#[derive(Drop)]
pub(crate) struct Change {
    pub bulk: bool,
    pub ops: Seq<Op>,
    pub rows: u32,
    pub taken: Option<u32>,
}

/// Makes a change, or refuses it.
pub(crate) fn make(
    alloc: Global,
    held: &Held,
    commits: u32,
    session: u8,
    change: Change,
) -> Result<Outcome, AllocError>
    requires plain { IsPlain (plain_of held.now) }
    requires seat { session < 17 }
    requires commits { commits ≡ (current (plain_of held.now).journal).commits }
    requires counted { commits ≤ 1073741824 }
    ensures { IfOk result (λ out. Gives (change_step (plain_of held.now) session change.bulk change.ops change.rows change.taken) out.reply (plain_of out.held)) }
{
    if !has_ops_room(held, session, change.ops.as_slice()) {
        return refused(alloc, held, Refusal::Full);
    }
    match change.taken {
        Some(id) => refused(alloc, held, Refusal::Conflict(id)),
        None => {
            let reply = said_changed(held.own(session), commits, change.rows);
            let held = made(alloc, held, session, change)?;
            Ok(Outcome { reply, held })
        }
    }
}

fn made(alloc: Global, held: &Held, session: u8, change: Change) -> Result<Held, AllocError>
    requires plain { IsPlain (plain_of held.now) }
    requires seat { session < 17 }
    requires room { IsTrue (has_ops_room (view (plain_of held.now) session) change.ops) }
    ensures { IfOk result (λ next. plain_of next ≡ changed_by (plain_of held.now) session change.bulk change.ops) }
{
    let stages = stages_after(alloc, held, change.bulk, change.ops.as_slice())?;
    let next_id = next_after(held, session, change.ops.as_slice());
    let mut next = with_made(alloc, held, session, change.ops)?;
    next.next_id = next_id;
    next.stages = stages;
    Ok(next)
}

fn stages_after(
    alloc: Global,
    held: &Held,
    bulk: bool,
    ops: &[Op],
) -> Result<Vec<TableStages>, AllocError>
    ensures { IfOk result (λ stages. stages.items ≡ with_inserts bulk held.now.stages.items ops.now) }
{
    let mut stages = stages_copied(alloc, held.stages.as_slice())?;
    place_all(alloc, &mut stages, bulk, ops)?;
    Ok(stages)
}

fn next_after(held: &Held, session: u8, ops: &[Op]) -> u32
    requires plain { IsPlain (plain_of held.now) }
    requires room { IsTrue (has_ops_room (view (plain_of held.now) session) ops.now) }
    ensures { result ≡ held.now.next_id + inserts_of ops.now }
{
    let _session = session;
    held.next_id + inserts_of(ops) as u32
}

// The answer to a change of rows.
fn said_changed(own: &Option<OpenTransaction>, commits: u32, rows: u32) -> Reply
    requires { commits ≤ 1073741824 }
    ensures { result ≡ said_changed own.now commits rows }
{
    match own {
        Some(_) => Reply::Changed { rows, commit: None },
        None => said_alone(commits, rows),
    }
}

fn said_alone(commits: u32, rows: u32) -> Reply
    requires { commits ≤ 1073741824 }
    ensures { result ≡ said_alone commits rows }
{
    let commit = if rows == 0 { None } else { Some(commits + 1) };
    Reply::Changed { rows, commit }
}

// What is held once operations joined the session's own, or were a transaction by themselves.
fn with_made(alloc: Global, held: &Held, session: u8, ops: Seq<Op>) -> Result<Held, AllocError>
    requires { session < length held.now.sessions.items }
    ensures { IfOk result (λ next. plain_of next ≡ with_made (plain_of held.now) session (open_at held.now.sessions.items session) ops) }
{
    match held.own(session) {
        None => with_txn(alloc, held, ops),
        Some(own) => with_own(alloc, held, session, own, ops),
    }
}

fn with_txn(alloc: Global, held: &Held, ops: Seq<Op>) -> Result<Held, AllocError>
    ensures { IfOk result (λ next. plain_of next ≡ with_txn (plain_of held.now) ops) }
{
    if ops.len() == 0 {
        return held.copy(alloc);
    }
    held.with_entry(alloc, Entry::Txn { ops })
}

fn with_own(
    alloc: Global,
    held: &Held,
    session: u8,
    own: &OpenTransaction,
    ops: Seq<Op>,
) -> Result<Held, AllocError>
    requires { session < length held.now.sessions.items }
    ensures { IfOk result (λ next. plain_of next ≡ with_session (plain_of held.now) session (Some (record own.now { ops = own.now.ops ++ ops }))) }
{
    let mut all = own.ops.duplicate(alloc)?;
    all.append(ops)?;
    let transaction = OpenTransaction {
        snapshot: own.snapshot,
        ops: all,
    };
    held.with_session(alloc, session, Some(transaction))
}
