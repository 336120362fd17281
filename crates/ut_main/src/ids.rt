//! The head of a part's bytes: the number of rows and their ids.
//!
//! head: rows: u32, id: u32[rows]
ghost use Rattle.std.specs.Prelude.{◌≡◌, ◌≢◌, ℕ, List, ◌*◌, ◌+◌, ◌≤◌, ◌++◌, length, take, drop, IfOk, IfSome, IfNone, OnOk, OnErr};
ghost use Rattle.std.specs.List.{flat_map};
ghost use Rattle.ut_bits.specs.Words.{word_bytes};
ghost use Rattle.ut_main.specs.Spelling.{id_bytes, AreIds};
ghost use Rattle.ut_main.specs.Reading.{MayBeIds};

use std::alloc::{AllocError, Global};
use ut_bits::{append_word, read_word};
use ut_value::ROWS_LIMIT;

/// How many bytes a number has.
const WORD_LEN: usize = 4;

/// The greatest row id.
const LAST_ID: u32 = ROWS_LIMIT;

/// How many rows the parts of a main have at most.
const MOST_ROWS: u32 = ROWS_LIMIT - 1;

/// Appends the number of ids and the ids. At a refusal some may have been added.
pub(crate) fn append_ids(ids: &[u32], out: &mut Vec<u8>) -> Result<(), AllocError>
    requires { length ids.now ≤ 2147483647 }
    ensures ok { OnOk result (out.new.items ≡ out.old.items ++ id_bytes ids.now) }
    ensures err { OnErr result (take (length out.old.items) out.new.items ≡ out.old.items) }
{
    append_word(ids.len() as u32, out)?;
    for id in ids {
        append_word(*id, out)?;
    }
    Ok(())
}

// The ids that begin the bytes.
fn read_ids(alloc: Global, bytes: &[u8], rows: usize) -> Result<Option<Vec<u32>>, AllocError>
    requires { rows * 4 ≤ length bytes.now }
    ensures some { IfOk result (λ found. IfSome found (λ ids.
        AreIds ids.items × (length ids.items ≡ rows)
        × (bytes.now ≡ flat_map word_bytes ids.items ++ drop (rows * 4) bytes.now))) }
    ensures none { IfOk result (λ found. IfNone found (
        (ids rest : List ℕ) → length ids ≡ rows → AreIds ids → bytes.now ≢ flat_map word_bytes ids ++ rest)) }
{
    let mut ids = Vec::with_capacity(alloc, rows)?;
    for i in 0..rows {
        let rest = &bytes[i * WORD_LEN..];
        let id = read_word(rest);
        if id == 0 || LAST_ID < id {
            return Ok(None);
        }
        ids.push(id)?;
    }
    Ok(Some(ids))
}

/// The ids of a part behind so many rows, and what stands behind them. Room is made for as many
/// as the bytes hold, whatever their number says.
pub(crate) fn ids_from(
    alloc: Global,
    bytes: &[u8],
    earlier: u32,
) -> Result<Option<(Vec<u32>, &[u8])>, AllocError>
    requires { earlier ≤ 2147483647 }
    ensures some { IfOk result (λ found. IfSome found (λ r.
        MayBeIds earlier r.0.items × (bytes.now ≡ id_bytes r.0.items ++ r.1.now))) }
    ensures none { IfOk result (λ found. IfNone found (
        (ids rest : List ℕ) → MayBeIds earlier ids → bytes.now ≢ id_bytes ids ++ rest)) }
{
    if bytes.len() < WORD_LEN {
        return Ok(None);
    }
    let rows = read_word(bytes);
    let behind = &bytes[WORD_LEN..];
    if MOST_ROWS - earlier < rows || behind.len() / WORD_LEN < rows as usize {
        return Ok(None);
    }
    let rows = rows as usize;
    match read_ids(alloc, behind, rows)? {
        Some(ids) => Ok(Some((ids, &behind[rows * WORD_LEN..]))),
        None => Ok(None),
    }
}
