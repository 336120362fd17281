//! Reads entries.
ghost use Rattle.std.specs.Prelude.{◌≡◌, ◌≤◌, ◌∷◌, length, take, IfOk, IfSome, IfNone};
ghost use Rattle.ut_value.specs.declared.entry.MergeKind.{MergeKind};
ghost use Rattle.ut_value.specs.Spelling.{spelling, has_spelling, is_entry, merge_kind_byte, Spells};
ghost use Rattle.ut_value.specs.Reading.{Begins, BeginsNone};

use crate::parts::{read_columns, read_name};
use crate::read::{first_byte, read_list, read_u16, read_u32};
use std::alloc::{AllocError, Global};
use ut_value::{ENTRY_LIMIT, Entry, MergeKind};

/// No entry has more bytes.
const MAX_ENTRY_LEN: usize = ENTRY_LIMIT as usize;

/// No transaction has fewer operations.
const LEAST_OPS: u32 = 1;

/// The entry that begins the bytes, and its length.
pub fn entry_from(alloc: Global, bytes: &[u8]) -> Result<Option<(Entry, usize)>, AllocError>
    ensures found { IfOk result (λ o. IfSome o (λ r. (r.1 ≤ length bytes.now) × Spells (take r.1 bytes.now) r.0)) }
    ensures none { IfOk result (λ o. IfNone o (BeginsNone spelling has_spelling bytes.now)) }
{
    let front = &bytes[..bytes.len().min(MAX_ENTRY_LEN)];
    match read_entry(alloc, front)? {
        Some((entry, rest)) => Ok(Some((entry, front.len() - rest.len()))),
        None => Ok(None),
    }
}

fn read_entry(alloc: Global, bytes: &[u8]) -> Result<Option<(Entry, &[u8])>, AllocError>
    ensures found { IfOk result (λ o. IfSome o (λ r. Begins spelling is_entry bytes.now r.0 r.1.now)) }
    ensures none { IfOk result (λ o. IfNone o (BeginsNone spelling has_spelling bytes.now)) }
{
    let Some((tag, rest)) = first_byte(bytes) else {
        return Ok(None);
    };
    match tag {
        1 => read_create(alloc, rest),
        2 => read_txn(alloc, rest),
        3 => Ok(read_begun(rest)),
        4 => Ok(read_ended(rest)),
        _ => Ok(None),
    }
}

fn read_create(alloc: Global, bytes: &[u8]) -> Result<Option<(Entry, &[u8])>, AllocError>
    ensures found { IfOk result (λ o. IfSome o (λ r. Begins spelling is_entry (1 ∷ bytes.now) r.0 r.1.now)) }
    ensures none { IfOk result (λ o. IfNone o (BeginsNone spelling has_spelling (1 ∷ bytes.now))) }
{
    let Some((name, rest)) = read_name(alloc, bytes)? else {
        return Ok(None);
    };
    let Some((columns, behind)) = read_columns(alloc, rest)? else {
        return Ok(None);
    };
    Ok(Some((Entry::Create { name, columns }, behind)))
}

fn read_txn(alloc: Global, bytes: &[u8]) -> Result<Option<(Entry, &[u8])>, AllocError>
    ensures found { IfOk result (λ o. IfSome o (λ r. Begins spelling is_entry (2 ∷ bytes.now) r.0 r.1.now)) }
    ensures none { IfOk result (λ o. IfNone o (BeginsNone spelling has_spelling (2 ∷ bytes.now))) }
{
    let Some((count, rest)) = read_u32(bytes) else {
        return Ok(None);
    };
    if count < LEAST_OPS {
        return Ok(None);
    }
    let Some((ops, behind)) = read_list(alloc, &(), count as usize, rest)? else {
        return Ok(None);
    };
    Ok(Some((Entry::Txn { ops }, behind)))
}

fn merge_kind_of(byte: u8) -> Option<MergeKind>
    ensures found { IfSome result (λ kind. byte ≡ merge_kind_byte kind) }
    ensures none { IfNone result ((kind : MergeKind) → byte ≡ merge_kind_byte kind → ⊥) }
{
    match byte {
        0 => Some(MergeKind::Classic),
        1 => Some(MergeKind::Resort),
        2 => Some(MergeKind::Partial),
        3 => Some(MergeKind::Extend),
        _ => None,
    }
}

fn read_begun(bytes: &[u8]) -> Option<(Entry, &[u8])>
    ensures found { IfSome result (λ r. Begins spelling is_entry (3 ∷ bytes.now) r.0 r.1.now) }
    ensures none { IfNone result (BeginsNone spelling has_spelling (3 ∷ bytes.now)) }
{
    let (n, rest) = read_u32(bytes)?;
    let (table, rest) = read_u16(rest)?;
    let (byte, rest) = first_byte(rest)?;
    let kind = merge_kind_of(byte)?;
    Some((Entry::Begun { n, table, kind }, rest))
}

fn read_ended(bytes: &[u8]) -> Option<(Entry, &[u8])>
    ensures found { IfSome result (λ r. Begins spelling is_entry (4 ∷ bytes.now) r.0 r.1.now) }
    ensures none { IfNone result (BeginsNone spelling has_spelling (4 ∷ bytes.now)) }
{
    let (n, rest) = read_u32(bytes)?;
    Some((Entry::Ended { n }, rest))
}
