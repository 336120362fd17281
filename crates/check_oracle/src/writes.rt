//! The statements that change rows, each as the change that it comes to.
ghost use Rattle.std.specs.Prelude.{false, ◌≡◌, ◌≤◌, ◌<◌, length, IfOk};
ghost use Rattle.ut_plain.specs.Condition.{found};
ghost use Rattle.ut_plain.specs.Journal.{current};
ghost use Rattle.ut_plain.specs.Plain.{is_taken};
ghost use Rattle.ut_plain.specs.Reached.{IsPlain};
ghost use Rattle.ut_plain.specs.Refusals.{first_taken};
ghost use Rattle.ut_plain.specs.Tables.{place_in};
ghost use Rattle.ut_plain.specs.Step.{step};
ghost use Rattle.check_oracle.specs.Store.{plain_of, Allowed, Gives, change_step};

use crate::change::{Change, make};
use crate::held::Held;
use crate::outcome::{Outcome, refused};
use crate::room::has_ids;
use crate::taken::first_taken;
use check_rows::{Known, found, made};
use std::alloc::{AllocError, Global};
use ut_plain::{Pred, Refusal, Statement, Stored, Table, columns_in, place_of};
use ut_value::{Name, Op, Seq, Value};

/// The place of a table that is there.
pub(crate) fn place_in(tables: &[Table], name: &[u8]) -> u16
    requires { length tables.now ≤ 256 }
    ensures { result ≡ place_in tables.now name.now }
{
    match place_of(tables, name) {
        None => 0,
        Some(place) => place as u16,
    }
}

/// `insert`
pub(crate) fn insert(
    alloc: Global,
    held: &Held,
    sight: &Known,
    session: u8,
    table: &Name,
    values: &Seq<Value>,
) -> Result<Outcome, AllocError>
    requires { Allowed (plain_of held.now) sight.now session (Statement.Insert table.now values.now) }
    ensures { IfOk result (λ out. Gives (step (plain_of held.now) session (Statement.Insert table.now values.now)) out.reply (plain_of out.held)) }
{
    let place = place_in(sight.tables.as_slice(), table.as_slice());
    let ops = made::insert(alloc, place, held.next_id, values)?;
    let change = Change {
        bulk: false,
        ops,
        rows: 1,
        taken: None,
    };
    let out = make(alloc, held, sight.commits, session, change)?;
    Ok(out)
}

/// `bulk`
pub(crate) fn bulk(
    alloc: Global,
    held: &Held,
    sight: &Known,
    session: u8,
    table: &Name,
    values: &Seq<Value>,
) -> Result<Outcome, AllocError>
    requires { Allowed (plain_of held.now) sight.now session (Statement.Bulk table.now values.now) }
    ensures { IfOk result (λ out. Gives (step (plain_of held.now) session (Statement.Bulk table.now values.now)) out.reply (plain_of out.held)) }
{
    let width = columns_in(sight.tables.as_slice(), table.as_slice()).len();
    let rows = made::row_count(width, values.as_slice());
    if !has_ids(held, rows) {
        let out = refused(alloc, held, Refusal::Full)?;
        return Ok(out);
    }
    let place = place_in(sight.tables.as_slice(), table.as_slice());
    let ops = made::load(alloc, place, held.next_id, width, values.as_slice())?;
    let change = Change {
        bulk: true,
        ops,
        rows: rows as u32,
        taken: None,
    };
    let out = make(alloc, held, sight.commits, session, change)?;
    Ok(out)
}

// The rows of a table that meet conditions.
fn hits_of(
    alloc: Global,
    sight: &Known,
    table: &Name,
    preds: &Seq<Pred>,
) -> Result<Vec<(u32, Stored)>, AllocError>
    ensures { IfOk result (λ hits. hits.items ≡ found sight.now.tables.items sight.now.rows.items table.now preds.now) }
{
    let tables = sight.tables.as_slice();
    let rows = sight.rows.as_slice();
    let hits = found(alloc, tables, rows, table.as_slice(), preds.as_slice())?;
    Ok(hits)
}

// Makes a change to rows that were found, or refuses it.
fn change_rows(
    alloc: Global,
    held: &Held,
    commits: u32,
    session: u8,
    ops: Seq<Op>,
    hits: &[(u32, Stored)],
) -> Result<Outcome, AllocError>
    requires plain { IsPlain (plain_of held.now) }
    requires seat { session < 17 }
    requires commits { commits ≡ (current (plain_of held.now).journal).commits }
    requires counted { commits ≤ 1073741824 }
    requires few { length hits.now < 4294967296 }
    ensures { IfOk result (λ out. Gives (change_step (plain_of held.now) session false ops (length hits.now) (first_taken (is_taken (plain_of held.now) session) hits.now)) out.reply (plain_of out.held)) }
{
    let taken = first_taken(held, session, hits);
    let change = Change {
        bulk: false,
        ops,
        rows: hits.len() as u32,
        taken,
    };
    let out = make(alloc, held, commits, session, change)?;
    Ok(out)
}

/// `update`
pub(crate) fn update(
    alloc: Global,
    held: &Held,
    sight: &Known,
    session: u8,
    table: &Name,
    column: &Name,
    value: &Value,
    preds: &Seq<Pred>,
) -> Result<Outcome, AllocError>
    requires { Allowed (plain_of held.now) sight.now session (Statement.Update table.now column.now value.now preds.now) }
    ensures { IfOk result (λ out. Gives (step (plain_of held.now) session (Statement.Update table.now column.now value.now preds.now)) out.reply (plain_of out.held)) }
{
    let hits = hits_of(alloc, sight, table, preds)?;
    if !has_ids(held, hits.len()) {
        let out = refused(alloc, held, Refusal::Full)?;
        return Ok(out);
    }
    let tables = sight.tables.as_slice();
    let place = place_in(tables, table.as_slice());
    let columns = columns_in(tables, table.as_slice());
    let ops = made::update(
        alloc,
        place,
        held.next_id,
        columns,
        column.as_slice(),
        value,
        hits.as_slice(),
    )?;
    let out = change_rows(alloc, held, sight.commits, session, ops, hits.as_slice())?;
    Ok(out)
}

/// `delete`
pub(crate) fn delete(
    alloc: Global,
    held: &Held,
    sight: &Known,
    session: u8,
    table: &Name,
    preds: &Seq<Pred>,
) -> Result<Outcome, AllocError>
    requires { Allowed (plain_of held.now) sight.now session (Statement.Delete table.now preds.now) }
    ensures { IfOk result (λ out. Gives (step (plain_of held.now) session (Statement.Delete table.now preds.now)) out.reply (plain_of out.held)) }
{
    let hits = hits_of(alloc, sight, table, preds)?;
    let place = place_in(sight.tables.as_slice(), table.as_slice());
    let ops = made::delete(alloc, place, hits.as_slice())?;
    let out = change_rows(alloc, held, sight.commits, session, ops, hits.as_slice())?;
    Ok(out)
}
