//! Numbers compared as they are, without their keys, and the one that a scan of rows seeks.
ghost use Rattle.std.specs.Prelude.{◌≡◌, false, IfSome, IsTrue};
ghost use Rattle.ut_key.specs.Keys.{meets};
ghost use Rattle.ut_value.specs.KeyBytes.{int_key, key_of};
ghost use Rattle.ut_scan.specs.Seeks.{Asks, IsSought};

use crate::place::ColumnPred;
use ut_key::Cmp;
use ut_value::{Value, int_of};

/// A number that each row which meets the comparisons has in a column.
#[derive(Clone, Copy)]
pub struct Sought {
    pub column: u8,
    pub number: i64,
}

/// What the first equality with a number seeks.
pub fn first_sought(preds: &[ColumnPred]) -> Option<Sought>
    ensures { IfSome result (IsSought preds.now) }
{
    for pred in preds {
        if let Some(sought) = sought_by(pred) {
            return Some(sought);
        }
    }
    None
}

fn sought_by(pred: &ColumnPred) -> Option<Sought>
    ensures { IfSome result (Asks pred.now) }
{
    match pred.op {
        Cmp::Eq => match int_of(pred.key.as_slice()) {
            Some(number) => Some(Sought {
                column: pred.column,
                number,
            }),
            None => None,
        },
        _ => None,
    }
}

/// Whether a value is a number other than this one.
pub fn is_other(value: &Value, number: i64) -> bool
    ensures { IsTrue result → meets Cmp.Eq (int_key number) (key_of value.now) ≡ false }
{
    match value {
        Value::Int(held) => !number_meets(Cmp::Eq, *held, number),
        Value::Text(_) => false,
    }
}

/// Whether a number's key meets a comparison with that of another.
pub fn number_meets(op: Cmp, number: i64, with: i64) -> bool
    ensures { result ≡ meets op (int_key with) (int_key number) }
{
    op.allows(number.cmp(&with))
}
