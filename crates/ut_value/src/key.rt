//! The key bytes of values: in the order of the values of a column, and equal only where the values are.
ghost use Rattle.std.specs.Prelude.{◌≡◌, ◌≢◌, ◌≤◌, length, IfOk, IfSome, IfNone, IsTrue};
ghost use Rattle.ut_value.specs.declared.value.Value.{Value};
ghost use Rattle.ut_value.specs.KeyBytes.{key_of, int_key, is_int, sign_flipped, IsKeyOf};
ghost use Rattle.ut_value.specs.KeyOrder.{KeysInOrder, OneValueEach};

use crate::{Kind, Text, Value, is_text};
use std::alloc::{AllocError, Global};
use ut_key::Key;

/// The bit that a number's sign stands in.
const SIGN: u64 = 1 << 63;

/// The key of a value.
pub fn key_of(value: &Value) -> Key
    ensures { result ≡ key_of value.now }
{
    match value {
        Value::Int(number) => Key::from_slice(&int_key(*number)),
        Value::Text(text) => Key::from_slice(text.as_slice()),
    }
}

/// The bytes of a value's key without a copy of a text: those of a number are written into `room`.
pub fn key_bytes<'a>(value: &'a Value, room: &'a mut [u8; 8]) -> &'a [u8]
    ensures key { result.now ≡ key_of value.now }
    ensures short { length result.now ≤ 255 }
{
    match value {
        Value::Int(number) => {
            *room = int_key(*number);
            room.as_slice()
        }
        Value::Text(text) => text.as_slice(),
    }
}

/// The key bytes of a number.
pub fn int_key(number: i64) -> [u8; 8]
    ensures { result ≡ int_key number }
{
    sign_flipped(number).to_be_bytes()
}

fn sign_flipped(number: i64) -> u64
    ensures { result ≡ sign_flipped number }
{
    number.abs_diff(i64::MIN)
}

/// The value of a kind whose key these bytes are.
pub fn value_of(alloc: Global, kind: Kind, key: &[u8]) -> Result<Option<Value>, AllocError>
    ensures found { IfOk result (λ o. IfSome o (λ v. IsKeyOf kind key.now v)) }
    ensures none { IfOk result (λ o. IfNone o ((v : Value) → IsKeyOf kind key.now v → ⊥)) }
{
    match kind {
        Kind::Int => match int_of(key) {
            Some(number) => Ok(Some(Value::Int(number))),
            None => Ok(None),
        },
        Kind::Text => {
            if !is_text(key) {
                return Ok(None);
            }
            Ok(Some(Value::Text(Text::from_slice(alloc, key)?)))
        }
    }
}

/// The number whose key these bytes are.
pub fn int_of(key: &[u8]) -> Option<i64>
    ensures found { IfSome result (λ x. IsTrue (is_int x) × (key.now ≡ int_key x)) }
    ensures none { IfNone result (length key.now ≢ 8) }
{
    match key {
        [a, b, c, d, e, f, g, h] => Some(sign_restored(u64::from_be_bytes([
            *a, *b, *c, *d, *e, *f, *g, *h,
        ]))),
        _ => None,
    }
}

fn sign_restored(bits: u64) -> i64
    ensures { (bits ≡ sign_flipped result) × IsTrue (is_int result) }
{
    bits.wrapping_add(SIGN).cast_signed()
}

/// The keys of the values of a kind stand in the order of the values, and tell them apart.
pub fn key_laws()
    ensures order { KeysInOrder }
    ensures once { OneValueEach }
{}
