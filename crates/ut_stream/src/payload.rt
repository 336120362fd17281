//! The entries of a payload.
ghost use Rattle.std.specs.Prelude.{List, IfOk, IfSome, IfNone};
ghost use Rattle.ut_value.specs.declared.entry.Entry.{Entry};
ghost use Rattle.ut_redo.specs.Frames.{IsPayload};

use std::alloc::{AllocError, Global};
use ut_entry::entry_from;
use ut_value::{Entry, Seq};

/// The entries that fill a payload, or none where it isn't whole entries.
pub(crate) fn entries_in(alloc: Global, payload: &[u8]) -> Result<Option<Seq<Entry>>, AllocError>
    ensures some { IfOk result (λ o. IfSome o (λ items. IsPayload items payload.now)) }
    ensures none { IfOk result (λ o. IfNone o ((items : List Entry) → IsPayload items payload.now → ⊥)) }
{
    let mut entries = Vec::new(alloc);
    let mut rest = payload;
    while !rest.is_empty() {
        let Some((entry, n)) = entry_from(alloc, rest)? else {
            return Ok(None);
        };
        entries.push(entry)?;
        rest = rest.split_at(n).1;
    }
    Ok(Some(Seq::from_vec(entries)))
}
