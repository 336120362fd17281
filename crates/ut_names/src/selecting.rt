//! The rows that comparisons choose, and those that an update changes.
ghost use Rattle.std.specs.Prelude.{◌≡◌, ◌≤◌, [], length, IsErr, IsErrOf, IfOk, IfErr, IfSome, IfNone};
ghost use Rattle.ut_plain.specs.Names.{preds_known};
ghost use Rattle.ut_plain.specs.Kinds.{preds_fit};
ghost use Rattle.ut_plain.specs.Compiled.{Compiles};
ghost use Rattle.ut_names.specs.Resolved.{AreNarrow, IsSelection, IsTarget, Hinders, IsWrong, rows_known, rows_fit, target_known, target_fits};

use crate::comparing::compiled;
use crate::places::{TableAt, column_at, table_at};
use crate::refusing::{rows_fit, rows_known, target_fits, target_known, why, wrong};
use crate::{Selection, Target};
use std::alloc::{AllocError, Global};
use ut_plain::{Pred, Refusal, Table, is_of_kind};
use ut_value::Value;

/// The rows of a table that meet comparisons.
pub fn selection(
    alloc: Global,
    tables: &[Table],
    name: &[u8],
    preds: &[Pred],
) -> Result<Selection, Refusal>
    requires narrow { AreNarrow tables.now }
    ensures ok { IfOk result (IsSelection tables.now name.now preds.now) }
    ensures err { IfErr result (Hinders (rows_known tables.now name.now preds.now)
        (rows_fit tables.now name.now preds.now)) }
    // Without comparisons it takes no memory.
    ensures room { preds.now ≡ [] → IsErrOf result Refusal.Memory → ⊥ }
{
    match selected(alloc, tables, name, preds) {
        Ok(Some(rows)) => Ok(rows),
        Ok(None) => Err(wrong(rows_known(tables, name, preds))),
        Err(_) => Err(why(
            rows_known(tables, name, preds),
            rows_fit(tables, name, preds),
        )),
    }
}

/// The rows that an update changes, and the column that gets its value.
pub fn target(
    alloc: Global,
    tables: &[Table],
    name: &[u8],
    column: &[u8],
    value: &Value,
    preds: &[Pred],
) -> Result<Target, Refusal>
    requires narrow { AreNarrow tables.now }
    ensures ok { IfOk result (IsTarget tables.now name.now column.now value.now preds.now) }
    ensures err { IfErr result (Hinders (target_known tables.now name.now column.now preds.now)
        (target_fits tables.now name.now column.now value.now preds.now)) }
    ensures room { preds.now ≡ [] → IsErrOf result Refusal.Memory → ⊥ }
{
    match targeted(alloc, tables, name, column, value, preds) {
        Ok(Some(target)) => Ok(target),
        Ok(None) => Err(wrong(target_known(tables, name, column, preds))),
        Err(_) => Err(why(
            target_known(tables, name, column, preds),
            target_fits(tables, name, column, value, preds),
        )),
    }
}

/// The rows of a table that is there.
pub(crate) fn rows(
    alloc: Global,
    table: &TableAt<'_>,
    preds: &[Pred],
) -> Result<Option<Selection>, AllocError>
    requires { length table.now.columns.now ≤ 64 }
    ensures table { IfOk result (λ o. IfSome o (λ rows. rows.table ≡ table.now.place)) }
    ensures preds { IfOk result (λ o. IfSome o (λ rows. Compiles table.now.columns.now preds.now rows.preds.items)) }
    ensures none { IfOk result (λ o. IfNone o (IsWrong (preds_known preds.now table.now.columns.now) (preds_fit table.now.columns.now preds.now))) }
    ensures room { preds.now ≡ [] → IsErr result → ⊥ }
{
    let Some(preds) = compiled(alloc, table.columns, preds)? else {
        return Ok(None);
    };
    Ok(Some(Selection {
        table: table.place,
        preds,
    }))
}

fn selected(
    alloc: Global,
    tables: &[Table],
    name: &[u8],
    preds: &[Pred],
) -> Result<Option<Selection>, AllocError>
    requires { AreNarrow tables.now }
    ensures some { IfOk result (λ o. IfSome o (IsSelection tables.now name.now preds.now)) }
    ensures none { IfOk result (λ o. IfNone o (IsWrong (rows_known tables.now name.now preds.now) (rows_fit tables.now name.now preds.now))) }
    ensures room { preds.now ≡ [] → IsErr result → ⊥ }
{
    let Some(table) = table_at(tables, name) else {
        return Ok(None);
    };
    rows(alloc, &table, preds)
}

fn targeted(
    alloc: Global,
    tables: &[Table],
    name: &[u8],
    column: &[u8],
    value: &Value,
    preds: &[Pred],
) -> Result<Option<Target>, AllocError>
    requires { AreNarrow tables.now }
    ensures some { IfOk result (λ o. IfSome o (IsTarget tables.now name.now column.now value.now preds.now)) }
    ensures none { IfOk result (λ o. IfNone o (IsWrong (target_known tables.now name.now column.now preds.now)
        (target_fits tables.now name.now column.now value.now preds.now))) }
    ensures room { preds.now ≡ [] → IsErr result → ⊥ }
{
    let Some(table) = table_at(tables, name) else {
        return Ok(None);
    };
    let Some(column) = column_at(table.columns, column) else {
        return Ok(None);
    };
    if !is_of_kind(column.kind, value) {
        return Ok(None);
    }
    let Some(rows) = rows(alloc, &table, preds)? else {
        return Ok(None);
    };
    Ok(Some(Target {
        rows,
        column: column.place,
    }))
}
