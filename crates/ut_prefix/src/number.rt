//! Keys as numbers.
ghost use Rattle.std.specs.Prelude.{◌≡◌, ◌<◌, ◌^◌, length};
ghost use Rattle.ut_prefix.specs.Totals.{key_number, IsTotal, IsWithin};

use ut_key::KeyList;

/// What the bits of a number's key are above the number.
const SHIFT: i128 = 1 << 63;

/// The number whose key these bytes are, and 0 of those that are no number's.
#[inline(always)]
pub(crate) fn number_of(key: &[u8]) -> i64
    ensures value { result ≡ key_number key.now }
    ensures within { IsWithin 9223372036854775808 1 result }
{
    match key {
        [a, b, c, d, e, f, g, h] => {
            let bits = u64::from_be_bytes([*a, *b, *c, *d, *e, *f, *g, *h]);
            (i128::from(bits) - SHIFT) as i64
        }
        _ => 0,
    }
}

/// The sum of the numbers of keys.
pub(crate) fn total_of(keys: &KeyList) -> i128
    requires { length keys.now < 2 ^ 31 }
    ensures { IsTotal keys.now result }
{
    let mut total: i128 = 0;
    for i in 0..keys.len() {
        total += i128::from(number_of(keys.key(i)));
    }
    total
}
