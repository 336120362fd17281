//! Runs out of their bytes.
ghost use Rattle.std.specs.Prelude.{◌≡◌, ◌^◌, ◌≤◌, ◌/◌, length, IfOk, IfSome, IfNone, ◌≢◌, drop};
ghost use Rattle.ut_bits.specs.Words.{word_in};
ghost use Rattle.ut_rle.specs.Runs.{AreRuns, is_last_code, entries_in, rows_of};
ghost use Rattle.ut_rle.specs.Ends.{lengths_from, end_from};

use crate::run::Run;
use std::alloc::{AllocError, Global};
use ut_bits::read_word;

/// A run as it stands in the bytes.
#[derive(Clone, Copy)]
struct Entry {
    code: u32,
    length: u32,
}

// The entry that begins the bytes.
fn read_entry(bytes: &[u8]) -> Entry
    requires { 8 ≤ length bytes.now }
    ensures code { result.code ≡ word_in bytes.now }
    ensures length { result.length ≡ word_in (drop 4 bytes.now) }
{
    let rest = &bytes[4..];
    Entry {
        code: read_word(bytes),
        length: read_word(rest),
    }
}

// Whether the last run is of a code.
fn is_last_code(runs: &[Run], code: u32) -> bool
    ensures { result ≡ is_last_code (lengths_from 0 runs.now) code }
{
    match runs.last() {
        Some(run) => run.code == code,
        None => false,
    }
}

/// The runs of `rows` codes below `2 ^ width` that `count` entries spell, if they are such runs.
pub(crate) fn read_runs(
    alloc: Global,
    entries: &[u8],
    count: usize,
    rows: u32,
    width: u8,
) -> Result<Option<Vec<Run>>, AllocError>
    requires width { width ≤ 32 }
    requires there { count ≤ length entries.now / 8 }
    ensures runs { IfOk result (λ found. IfSome found (λ runs. lengths_from 0 runs.items ≡ entries_in count entries.now)) }
    ensures proper { IfOk result (λ found. IfSome found (λ runs. AreRuns (2 ^ width) (lengths_from 0 runs.items))) }
    ensures rows { IfOk result (λ found. IfSome found (λ runs. end_from 0 runs.items ≡ rows)) }
    ensures none { IfOk result (λ found. IfNone found (AreRuns (2 ^ width) (entries_in count entries.now) → rows_of (entries_in count entries.now) ≢ rows)) }
{
    let mut runs = Vec::with_capacity(alloc, count)?;
    let mut end = 0;
    for k in 0..count {
        let entry = read_entry(&entries[8 * k..]);
        if entry.length == 0 {
            return Ok(None);
        }
        if entry.length > rows - end {
            return Ok(None);
        }
        if u64::from(entry.code) >> width != 0 {
            return Ok(None);
        }
        if is_last_code(runs.as_slice(), entry.code) {
            return Ok(None);
        }
        end += entry.length;
        runs.push(Run {
            code: entry.code,
            end,
        })?;
    }
    if end != rows {
        return Ok(None);
    }
    Ok(Some(runs))
}
