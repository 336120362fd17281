//! Which rows somebody needs: those that are there, and those that an open transaction looks at or has as its own.
ghost use Rattle.std.specs.Prelude.{◌≡◌, ◌≤◌, ◌||◌, ◌++◌, ℕ, nat_eq, map, Some, IfOk, OnOk};
ghost use Rattle.std.specs.List.{list_any};
ghost use Rattle.ut_plain.specs.Journal.{journal_len};
ghost use Rattle.ut_plain.specs.Merges.{open_needs};
ghost use Rattle.ut_plain.specs.Reached.{IsPlain};
ghost use Rattle.check_stages.specs.Needed.{AreNeeded};
ghost use Rattle.check_oracle.specs.Store.{plain_of};

use crate::held::Held;
use crate::sight::state_at;
use check_rows::{apply_all, state_after};
use std::alloc::{AllocError, Global};
use ut_plain::{OpenTransaction, Stored};

/// Adds the ids of rows.
pub(crate) fn add_ids(ids: &mut Vec<u32>, rows: &[(u32, Stored)]) -> Result<(), AllocError>
    ensures { OnOk result (ids.new.items ≡ ids.old.items ++ map (λ e. e.0) rows.now) }
{
    for row in rows {
        ids.push(row.0)?;
    }
    Ok(())
}

// Adds the rows that an open transaction looks at, and those that it has as its own.
fn add_needed(
    alloc: Global,
    ids: &mut Vec<u32>,
    held: &Held,
    own: &OpenTransaction,
) -> Result<(), AllocError>
    requires plain { IsPlain (plain_of held.now) }
    requires since { (plain_of held.now).journal.base.length ≤ own.now.snapshot }
    requires until { own.now.snapshot ≤ journal_len (plain_of held.now).journal }
    ensures { OnOk result ((id : ℕ) → list_any (nat_eq id) ids.new.items ≡ (list_any (nat_eq id) ids.old.items || open_needs (plain_of held.now).journal id (Some own.now))) }
{
    let then = state_at(alloc, held, own.snapshot)?;
    add_ids(ids, then.rows.as_slice())?;
    let mut rows = Vec::new(alloc);
    apply_all(alloc, &mut rows, own.ops.as_slice())?;
    add_ids(ids, rows.as_slice())?;
    Ok(())
}

/// The ids of the rows that somebody needs.
pub(crate) fn needed(alloc: Global, held: &Held) -> Result<Vec<u32>, AllocError>
    requires { IsPlain (plain_of held.now) }
    ensures { IfOk result (λ ids. AreNeeded ids.items (plain_of held.now).journal (plain_of held.now).sessions) }
{
    let now = state_after(alloc, held.first.as_slice(), held.entries.as_slice())?;
    let mut ids = Vec::new(alloc);
    add_ids(&mut ids, now.rows.as_slice())?;
    for transaction in &held.sessions {
        if let Some(own) = transaction {
            add_needed(alloc, &mut ids, held, own)?;
        }
    }
    Ok(ids)
}
