//! The state of a journal, worked out from its entries.
ghost use Rattle.std.specs.Prelude.{◌≤◌, ◌<◌, ◌+◌, [], ◌∷◌, length, IfOk};
ghost use Rattle.ut_plain.specs.State.{empty_state};
ghost use Rattle.ut_plain.specs.Journal.{after_all};
ghost use Rattle.check_rows.specs.Known.{IsKnown, Follows};

use crate::rows::apply_all;
use std::alloc::{AllocError, Global};
use ut_plain::{Stored, Table};
use ut_value::{Duplicate, Entry};

/// The tables in order of creation, rows by ascending id, and the numbers of commits and of merges.
#[derive(Drop)]
pub struct Known {
    pub tables: Vec<Table>,
    pub rows: Vec<(u32, Stored)>,
    pub commits: u32,
    pub merges: u32,
}

/// The state after the first entries, and then those behind them.
pub fn state_after(alloc: Global, first: &[Entry], behind: &[Entry]) -> Result<Known, AllocError>
    requires { length first.now + length behind.now ≤ 1073741824 }
    ensures state { IfOk result (λ known. IsKnown known (after_all (after_all empty_state first.now) behind.now)) }
    ensures commits { IfOk result (λ known. known.commits ≤ length first.now + length behind.now) }
    ensures merges { IfOk result (λ known. known.merges ≤ length first.now + length behind.now) }
{
    let mut known = Known {
        tables: Vec::new(alloc),
        rows: Vec::new(alloc),
        commits: 0,
        merges: 0,
    };
    follow_all(alloc, &mut known, first)?;
    follow_all(alloc, &mut known, behind)?;
    Ok(known)
}

fn follow_all(alloc: Global, known: &mut Known, entries: &[Entry]) -> Result<(), AllocError>
    requires commits { known.old.commits + length entries.now ≤ 1073741824 }
    requires merges { known.old.merges + length entries.now ≤ 1073741824 }
    ensures state { IfOk result (λ _. Follows known.old entries.now known.new) }
    ensures commits { IfOk result (λ _. known.new.commits ≤ known.old.commits + length entries.now) }
    ensures merges { IfOk result (λ _. known.new.merges ≤ known.old.merges + length entries.now) }
{
    for entry in entries {
        follow(alloc, known, entry)?;
    }
    Ok(())
}

fn follow(alloc: Global, known: &mut Known, entry: &Entry) -> Result<(), AllocError>
    requires commits { known.old.commits < 1073741824 }
    requires merges { known.old.merges < 1073741824 }
    ensures state { IfOk result (λ _. Follows known.old (entry.now ∷ []) known.new) }
    ensures commits { IfOk result (λ _. known.new.commits ≤ known.old.commits + 1) }
    ensures merges { IfOk result (λ _. known.new.merges ≤ known.old.merges + 1) }
{
    match entry {
        Entry::Create { name, columns } => {
            let name = name.duplicate(alloc)?;
            let columns = columns.duplicate(alloc)?;
            known.tables.push(Table { name, columns })?;
            known.commits += 1;
        }
        Entry::Txn { ops } => {
            apply_all(alloc, &mut known.rows, ops.as_slice())?;
            known.commits += 1;
        }
        Entry::Begun { .. } => known.merges += 1,
        Entry::Ended { .. } => {}
    }
    Ok(())
}
