//! How many rows a bulk's values are cut into.
ghost use Rattle.std.specs.Prelude.{◌≡◌, ◌<◌, length};
ghost use Rattle.ut_plain.specs.Made.{rows_of};

use ut_value::Value;

/// How many rows of `width` values each these values are cut into; the last one may be shorter.
pub fn rows_in(width: usize, values: &[Value]) -> usize
    requires { 0 < width }
    ensures { result ≡ length (rows_of width values.now) }
{
    let mut count = 0;
    let mut rest = values;
    while rest.len() > 0 {
        let (_, others) = rest.split_at(width.min(rest.len()));
        count += 1;
        rest = others;
    }
    count
}
