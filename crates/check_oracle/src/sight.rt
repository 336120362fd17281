//! What a session sees.
ghost use Rattle.std.specs.Prelude.{◌≡◌, ◌≤◌, ◌<◌, Some, IfOk};
ghost use Rattle.std.specs.FinMap as finmap;
ghost use Rattle.ut_plain.specs.Journal.{journal_len, state_at};
ghost use Rattle.ut_plain.specs.Plain.{seen_by};
ghost use Rattle.ut_plain.specs.Reached.{IsPlain};
ghost use Rattle.check_rows.specs.Known.{IsKnown};
ghost use Rattle.check_oracle.specs.Store.{plain_of, IsSight};

use crate::held::Held;
use check_rows::{Known, apply_all, state_after};
use std::alloc::{AllocError, Global};
use ut_plain::OpenTransaction;

/// The state behind the first entries, so many.
pub(crate) fn state_at(alloc: Global, held: &Held, count: u32) -> Result<Known, AllocError>
    requires plain { IsPlain (plain_of held.now) }
    requires since { (plain_of held.now).journal.base.length ≤ count }
    requires until { count ≤ journal_len (plain_of held.now).journal }
    ensures { IfOk result (λ known. IsKnown known (state_at (plain_of held.now).journal count)) }
{
    let behind = count as usize - held.first.len();
    let (before, _) = held.entries.as_slice().split_at(behind);
    state_after(alloc, held.first.as_slice(), before)
}

/// The tables, commits and merges of the journal, and the rows that a session sees.
pub(crate) fn sight_of(alloc: Global, held: &Held, session: u8) -> Result<Known, AllocError>
    requires plain { IsPlain (plain_of held.now) }
    requires seat { session < 17 }
    ensures { IfOk result (λ sight. IsSight sight (plain_of held.now) session) }
{
    let now = state_after(alloc, held.first.as_slice(), held.entries.as_slice())?;
    match held.own(session) {
        None => Ok(now),
        Some(own) => {
            let sight = seen_inside(alloc, held, now, own)?;
            Ok(sight)
        }
    }
}

fn seen_inside(
    alloc: Global,
    held: &Held,
    now: Known,
    own: &OpenTransaction,
) -> Result<Known, AllocError>
    requires plain { IsPlain (plain_of held.now) }
    requires since { (plain_of held.now).journal.base.length ≤ own.now.snapshot }
    requires until { own.now.snapshot ≤ journal_len (plain_of held.now).journal }
    ensures tables { IfOk result (λ sight. sight.tables.items ≡ now.tables.items) }
    ensures commits { IfOk result (λ sight. sight.commits ≡ now.commits) }
    ensures merges { IfOk result (λ sight. sight.merges ≡ now.merges) }
    ensures rows { IfOk result (λ sight. sight.rows.items ≡ finmap.entries (seen_by (plain_of held.now).journal (Some own.now))) }
{
    let then = state_at(alloc, held, own.snapshot)?;
    let mut rows = then.rows;
    apply_all(alloc, &mut rows, own.ops.as_slice())?;
    Ok(Known {
        tables: now.tables,
        rows,
        commits: now.commits,
        merges: now.merges,
    })
}
