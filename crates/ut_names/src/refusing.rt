//! Why a statement that was not resolved is refused. It is looked up once more, without memory.
ghost use Rattle.std.specs.Prelude.{◌≡◌, Bool};
ghost use Rattle.ut_plain.specs.Names.{preds_known};
ghost use Rattle.ut_plain.specs.Kinds.{has_kind, preds_fit};
ghost use Rattle.ut_names.specs.Resolved.{Hinders, IsWrong, rows_known, rows_fit, target_known, target_fits};

use ut_plain::{Pred, Refusal, Table, columns_in, columns_of, has_column, is_of_kind, kind_in};
use ut_value::{Column, Kind, Value};

/// Where the names are there, the kinds don't fit.
pub(crate) fn wrong(known: bool) -> Refusal
    ensures { (fits : Bool) → IsWrong known fits → Hinders known fits result }
{
    if known { Refusal::Kind } else { Refusal::Name }
}

/// Where the names are there and the kinds fit, memory was refused.
pub(crate) fn why(known: bool, fits: bool) -> Refusal
    ensures { Hinders known fits result }
{
    if !known {
        return Refusal::Name;
    }
    if !fits {
        return Refusal::Kind;
    }
    Refusal::Memory
}

/// Whether a table is there, and has the columns of comparisons.
pub(crate) fn rows_known(tables: &[Table], name: &[u8], preds: &[Pred]) -> bool
    ensures { result ≡ rows_known tables.now name.now preds.now }
{
    match columns_of(tables, name) {
        None => false,
        Some(columns) => preds_known(columns, preds),
    }
}

/// Whether the values of comparisons are of their columns' kinds.
pub(crate) fn rows_fit(tables: &[Table], name: &[u8], preds: &[Pred]) -> bool
    ensures { result ≡ rows_fit tables.now name.now preds.now }
{
    preds_fit(columns_in(tables, name), preds)
}

/// Whether what an update names is there.
pub(crate) fn target_known(tables: &[Table], name: &[u8], column: &[u8], preds: &[Pred]) -> bool
    ensures { result ≡ target_known tables.now name.now column.now preds.now }
{
    match columns_of(tables, name) {
        None => false,
        Some(columns) => {
            let known = preds_known(columns, preds);
            has_column(columns, column) && known
        }
    }
}

/// Whether the values of an update are of their columns' kinds.
pub(crate) fn target_fits(
    tables: &[Table],
    name: &[u8],
    column: &[u8],
    value: &Value,
    preds: &[Pred],
) -> bool
    ensures { result ≡ target_fits tables.now name.now column.now value.now preds.now }
{
    let columns = columns_in(tables, name);
    let fit = preds_fit(columns, preds);
    has_kind(value, kind_in(columns, column)) && fit
}

fn preds_known(columns: &[Column], preds: &[Pred]) -> bool
    ensures { result ≡ preds_known preds.now columns.now }
{
    preds
        .iter()
        .all(|pred| has_column(columns, pred.column.as_slice()))
}

fn preds_fit(columns: &[Column], preds: &[Pred]) -> bool
    ensures { result ≡ preds_fit columns.now preds.now }
{
    preds.iter().all(|pred| has_kind(&pred.value, kind_in(columns, pred.column.as_slice())))
}

fn has_kind(value: &Value, kind: Option<Kind>) -> bool
    ensures { result ≡ has_kind value.now kind }
{
    match kind {
        None => false,
        Some(kind) => is_of_kind(kind, value),
    }
}
