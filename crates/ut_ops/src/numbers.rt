//! The numbers of a column, read by their codes.
ghost use Rattle.std.specs.Prelude.{◌≡◌, ◌+◌, ◌<◌, ◌^◌, ℕ, length, slice_get, option_map, Some, IsTrue, IfOk};
ghost use Rattle.ut_value.specs.declared.value.Column.{Column};
ghost use Rattle.ut_value.specs.declared.value.Value.TheVariants as values;
ghost use Rattle.ut_scan.specs.Coded.{keys_in};
ghost use Rattle.ut_staged.specs.Staged.{Staged, row_at};
ghost use Rattle.ut_table.specs.Coded.{keyed_main};
ghost use Rattle.ut_ops.specs.Fit.{is_row, cell};
ghost use Rattle.ut_ops.specs.Noted.{IsNoted, AreNoted};

use crate::cell::number_at;
use std::alloc::{AllocError, Global};
use ut_scan::Found;
use ut_table::Table;
use ut_value::{Kind, int_of};

/// The number of a code that was read. The mark is one more than the code, or 0 where none was.
#[derive(Clone, Copy)]
pub(crate) struct Noted {
    pub mark: usize,
    pub number: i64,
}

/// No code was read.
pub(crate) const NONE: Noted = Noted { mark: 0, number: 0 };

/// Room for the numbers of the codes of a column, where these are not more than the rows.
pub(crate) fn notes(
    alloc: Global,
    table: &Table,
    column: usize,
    rows: usize,
) -> Result<Vec<Noted>, AllocError>
    requires column { column < length table.now.stages.columns }
    ensures { IfOk result (λ notes. AreNoted table.now.stages column notes.items) }
{
    let n = table.codes(column).min(rows);
    let mut notes = Vec::with_capacity(alloc, n)?;
    for _ in 0..n {
        notes.push(NONE)?;
    }
    Ok(notes)
}

/// The numbers of all of main's codes, by one walk over its dictionaries.
pub(crate) fn main_notes(
    alloc: Global,
    table: &Table,
    column: usize,
) -> Result<Vec<Noted>, AllocError>
    requires { option_map (λ (c : Column). c.kind) (slice_get table.now.stages.columns column) ≡ Some Kind.Int }
    ensures { IfOk result (λ notes. AreNoted table.now.stages column notes.items) }
{
    let keys = table.main_keys(alloc, column)?;
    let mut notes = Vec::with_capacity(alloc, keys.len())?;
    for code in 0..keys.len() {
        notes.push(noted_key(code, keys.key(code)))?;
    }
    Ok(notes)
}

/// What is noted of one of main's codes by its key.
fn noted_key(code: usize, key: &[u8]) -> Noted
    requires { code + 1 < 2 ^ 64 }
    ensures { (s : Staged) (column : ℕ) → option_map (λ (c : Column). c.kind) (slice_get s.columns column) ≡ Some Kind.Int → slice_get (keys_in (keyed_main s) column) code ≡ Some key.now → IsNoted s column result }
{
    match int_of(key) {
        Some(number) => Noted {
            mark: code + 1,
            number,
        },
        None => NONE,
    }
}

/// A row's number in a column of numbers: a code that was noted is not read again.
pub(crate) fn noted_number(table: &Table, hit: Found, column: usize, notes: &mut [Noted]) -> i64
    requires row { IsTrue (is_row table.now.stages.columns (row_at table.now.stages hit.place)) }
    requires column { option_map (λ (c : Column). c.kind) (slice_get table.now.stages.columns column) ≡ Some Kind.Int }
    requires noted { AreNoted table.now.stages column notes.old }
    ensures number { cell table.now.stages column hit ≡ values.Int result }
    ensures noted { AreNoted table.now.stages column notes.new }
{
    let Some(code) = table.code(hit.place, column) else {
        return number_at(table, hit, column);
    };
    let room = notes.len();
    if room == 0 {
        return number_at(table, hit, column);
    }
    let at = if code < room { code } else { code % room };
    let note = notes[at];
    if note.mark == code + 1 {
        return note.number;
    }
    let number = number_at(table, hit, column);
    notes[at] = Noted {
        mark: code + 1,
        number,
    };
    number
}
