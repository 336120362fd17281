//! Comparisons of named columns as comparisons of keys at places.
ghost use Rattle.std.specs.Prelude.{◌≡◌, ◌≤◌, [], length, IsErr, IfOk, IfSome, IfNone, IsTrue};
ghost use Rattle.ut_value.specs.KeyBytes.{is_value};
ghost use Rattle.ut_value.specs.Spelling.{has_column};
ghost use Rattle.ut_plain.specs.Names.{preds_known};
ghost use Rattle.ut_plain.specs.Kinds.{kind_in, has_kind, preds_fit};
ghost use Rattle.ut_plain.specs.Compiled.{column_pred, Compiles};
ghost use Rattle.ut_names.specs.Resolved.{IsWrong};

use crate::places::column_at;
use std::alloc::{AllocError, Global};
use ut_key::ColumnPred;
use ut_plain::{Pred, is_of_kind};
use ut_value::{Column, key_of, value_keeps_rule};

/// The comparisons. None where one names no column of its value's kind.
pub(crate) fn compiled(
    alloc: Global,
    columns: &[Column],
    preds: &[Pred],
) -> Result<Option<Vec<ColumnPred>>, AllocError>
    requires { length columns.now ≤ 64 }
    ensures some { IfOk result (λ o. IfSome o (λ list. Compiles columns.now preds.now list.items)) }
    ensures none { IfOk result (λ o. IfNone o (IsWrong (preds_known preds.now columns.now) (preds_fit columns.now preds.now))) }
    ensures room { preds.now ≡ [] → IsErr result → ⊥ }
{
    if preds.is_empty() {
        return Ok(Some(Vec::new(alloc)));
    }
    let mut list = Vec::with_capacity(alloc, preds.len())?;
    for pred in preds {
        let Some(one) = column_pred(columns, pred) else {
            return Ok(None);
        };
        list.push(one)?;
    }
    Ok(Some(list))
}

fn column_pred(columns: &[Column], pred: &Pred) -> Option<ColumnPred>
    requires { length columns.now ≤ 64 }
    ensures is { IfSome result (λ p. p ≡ column_pred columns.now pred.now) }
    ensures known { IfSome result (λ p. IsTrue (has_column columns.now pred.now.column)) }
    ensures fits { IfSome result (λ p. IsTrue (has_kind pred.now.value (kind_in columns.now pred.now.column))) }
    ensures rule { IsTrue (is_value pred.now.value) }
    ensures none { IfNone result (IsWrong (has_column columns.now pred.now.column) (has_kind pred.now.value (kind_in columns.now pred.now.column))) }
{
    value_keeps_rule(&pred.value);
    let column = column_at(columns, pred.column.as_slice())?;
    if !is_of_kind(column.kind, &pred.value) {
        return None;
    }
    Some(ColumnPred {
        column: column.place as u8,
        op: pred.op,
        key: key_of(&pred.value),
    })
}
