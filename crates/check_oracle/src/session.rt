//! Transactions, and new tables.
ghost use Rattle.std.specs.Prelude.{◌≡◌, ◌≤◌, ◌<◌, length, IfOk};
ghost use Rattle.ut_plain.specs.Step.{step, created, committed_by};
ghost use Rattle.ut_plain.specs.Journal.{current};
ghost use Rattle.check_oracle.specs.Store.{plain_of, Allowed, Gives};

use crate::held::Held;
use crate::outcome::{Outcome, refused, stays};
use crate::room::has_journal_room;
use check_rows::Known;
use check_stages::no_stages;
use std::alloc::{AllocError, Global};
use ut_plain::{OpenTransaction, Refusal, Reply, Statement};
use ut_value::{Column, Duplicate, Entry, Name, Op, Seq, TABLES_LIMIT};

/// The most tables.
const MAX_TABLES: usize = TABLES_LIMIT as usize;

/// `create`
pub(crate) fn create(
    alloc: Global,
    held: &Held,
    sight: &Known,
    session: u8,
    table: &Name,
    columns: &Seq<Column>,
) -> Result<Outcome, AllocError>
    requires { Allowed (plain_of held.now) sight.now session (Statement.Create table.now columns.now) }
    ensures { IfOk result (λ out. Gives (step (plain_of held.now) session (Statement.Create table.now columns.now)) out.reply (plain_of out.held)) }
{
    if sight.tables.len() >= MAX_TABLES || !has_journal_room(held) {
        return refused(alloc, held, Refusal::Full);
    }
    created(alloc, held, sight.commits, table, columns)
}

fn created(
    alloc: Global,
    held: &Held,
    commits: u32,
    table: &Name,
    columns: &Seq<Column>,
) -> Result<Outcome, AllocError>
    requires commits { commits ≡ (current (plain_of held.now).journal).commits }
    requires counted { commits ≤ 1073741824 }
    ensures { IfOk result (λ out. Gives (created (plain_of held.now) table.now columns.now) out.reply (plain_of out.held)) }
{
    let name = table.duplicate(alloc)?;
    let columns = columns.duplicate(alloc)?;
    let mut next = held.with_entry(alloc, Entry::Create { name, columns })?;
    next.stages.push(no_stages(alloc))?;
    Ok(Outcome {
        reply: Reply::Committed(commits + 1),
        held: next,
    })
}

/// `begin`
pub(crate) fn begin(
    alloc: Global,
    held: &Held,
    sight: &Known,
    session: u8,
) -> Result<Outcome, AllocError>
    requires { Allowed (plain_of held.now) sight.now session Statement.Begin }
    ensures { IfOk result (λ out. Gives (step (plain_of held.now) session Statement.Begin) out.reply (plain_of out.held)) }
{
    let _sight = sight;
    let transaction = OpenTransaction {
        snapshot: held.journal_len() as u32,
        ops: Seq::new(alloc),
    };
    let held = held.with_session(alloc, session, Some(transaction))?;
    Ok(Outcome {
        reply: Reply::Done,
        held,
    })
}

/// `abort`
pub(crate) fn abort(
    alloc: Global,
    held: &Held,
    sight: &Known,
    session: u8,
) -> Result<Outcome, AllocError>
    requires { Allowed (plain_of held.now) sight.now session Statement.Abort }
    ensures { IfOk result (λ out. Gives (step (plain_of held.now) session Statement.Abort) out.reply (plain_of out.held)) }
{
    let _sight = sight;
    let held = held.with_session(alloc, session, None)?;
    Ok(Outcome {
        reply: Reply::Done,
        held,
    })
}

/// `commit`
pub(crate) fn commit(
    alloc: Global,
    held: &Held,
    sight: &Known,
    session: u8,
) -> Result<Outcome, AllocError>
    requires { Allowed (plain_of held.now) sight.now session Statement.Commit }
    ensures { IfOk result (λ out. Gives (step (plain_of held.now) session Statement.Commit) out.reply (plain_of out.held)) }
{
    match held.own(session) {
        None => stays(alloc, held, Reply::Done),
        Some(own) => {
            if own.ops.len() > 0 && !has_journal_room(held) {
                return refused(alloc, held, Refusal::Full);
            }
            committed_by(alloc, held, sight.commits, session, &own.ops)
        }
    }
}

fn committed_by(
    alloc: Global,
    held: &Held,
    commits: u32,
    session: u8,
    ops: &Seq<Op>,
) -> Result<Outcome, AllocError>
    requires seat { session < length held.now.sessions.items }
    requires commits { commits ≡ (current (plain_of held.now).journal).commits }
    requires counted { commits ≤ 1073741824 }
    ensures { IfOk result (λ out. Gives (committed_by (plain_of held.now) session ops.now) out.reply (plain_of out.held)) }
{
    if ops.len() == 0 {
        let held = held.with_session(alloc, session, None)?;
        return Ok(Outcome {
            reply: Reply::Done,
            held,
        });
    }
    let ops = ops.duplicate(alloc)?;
    let next = held.with_session(alloc, session, None)?;
    let held = next.with_entry(alloc, Entry::Txn { ops })?;
    Ok(Outcome {
        reply: Reply::Committed(commits + 1),
        held,
    })
}
