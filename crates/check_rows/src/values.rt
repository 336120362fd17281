//! Lists of values: sums, bests, and those that occur.
ghost use Rattle.std.specs.Prelude.{◌≡◌, ◌≤◌, length, OnOk, IfOk, IfSome, IfNone};
ghost use Rattle.std.specs.List.{insert};
ghost use Rattle.std.specs.Ordering.{is_lt, is_gt};
ghost use Rattle.ut_plain.specs.Query.{number_of, total, best, with_key, distinct};

use std::alloc::{AllocError, Global};
use std::cmp::Ordering;
use ut_plain::value_cmp;
use ut_value::{Duplicate, Value};

fn number_of(value: &Value) -> i64
    ensures { result ≡ number_of value.now }
{
    match value {
        Value::Int(number) => *number,
        Value::Text(_) => 0,
    }
}

/// The sum of the numbers among values.
pub(crate) fn total(values: &[Value]) -> i128
    ensures { result ≡ total values.now }
{
    let mut sum: i128 = 0;
    for value in values {
        sum += i128::from(number_of(value));
    }
    sum
}

/// The least value, the first one on a tie.
pub(crate) fn least(alloc: Global, values: &[Value]) -> Result<Option<Value>, AllocError>
    ensures { IfOk result (λ value. value ≡ best is_lt values.now) }
{
    let [first, rest @ ..] = values else {
        return Ok(None);
    };
    let mut best = first;
    for value in rest {
        if value_cmp(value, best).is_lt() {
            best = value;
        }
    }
    Ok(Some(best.copy(alloc)?))
}

/// The greatest value, the first one on a tie.
pub(crate) fn greatest(alloc: Global, values: &[Value]) -> Result<Option<Value>, AllocError>
    ensures { IfOk result (λ value. value ≡ best is_gt values.now) }
{
    let [first, rest @ ..] = values else {
        return Ok(None);
    };
    let mut best = first;
    for value in rest {
        if value_cmp(value, best).is_gt() {
            best = value;
        }
    }
    Ok(Some(best.copy(alloc)?))
}

/// The values that occur, ascending, each once.
pub(crate) fn distinct(alloc: Global, values: &[Value]) -> Result<Vec<Value>, AllocError>
    ensures { IfOk result (λ keys. keys.items ≡ distinct values.now) }
{
    let mut keys = Vec::new(alloc);
    for place in (0..values.len()).rev() {
        let key = values[place].copy(alloc)?;
        add_key(&mut keys, key)?;
    }
    Ok(keys)
}

fn add_key(keys: &mut Vec<Value>, key: Value) -> Result<(), AllocError>
    ensures { OnOk result (keys.new.items ≡ with_key key keys.old.items) }
{
    match place_of_key(keys.as_slice(), &key) {
        None => Ok(()),
        Some(place) => {
            keys.insert(place, key)?;
            Ok(())
        }
    }
}

// Where a key belongs among ascending ones, None where it stands there.
fn place_of_key(keys: &[Value], key: &Value) -> Option<usize>
    ensures within { IfSome result (λ place. place ≤ length keys.now) }
    ensures new { IfSome result (λ place. with_key key.now keys.now ≡ insert keys.now place key.now) }
    ensures there { IfNone result (with_key key.now keys.now ≡ keys.now) }
{
    for (place, other) in keys.iter().enumerate() {
        match value_cmp(key, other) {
            Ordering::Less => return Some(place),
            Ordering::Equal => return None,
            Ordering::Greater => {}
        }
    }
    Some(keys.len())
}
