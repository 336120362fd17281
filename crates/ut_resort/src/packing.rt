//! The first codes of each row as one number, which orders the rows as these codes do.
ghost use Rattle.std.specs.Prelude.{◌≡◌, ℕ, ◌+◌, ◌*◌, ◌^◌, ◌<◌, ◌≤◌, length, get_or, take, All, map};
ghost use Rattle.ut_resort.specs.Sorting.{lists_now, ArePacked};

// More than each code of a list.
fn radix_of(codes: &[u32]) -> u64
    ensures some { 0 < result }
    ensures more { (i : ℕ) → get_or codes.now i 0 < result }
{
    let mut radix = 1;
    for code in codes {
        radix = radix.max(u64::from(*code) + 1);
    }
    radix
}

// Makes each code the last digit of its row's key.
fn widen(keys: &mut [u64], codes: &[u32], radix: u64)
    requires length { length codes.now ≡ length keys.old }
    requires fits { (i : ℕ) → i < length keys.old → get_or keys.old i 0 * radix + get_or codes.now i 0 < 2 ^ 64 }
    ensures length { length keys.new ≡ length keys.old }
    ensures keys { (i : ℕ) → i < length keys.old → get_or keys.new i 0 ≡ get_or keys.old i 0 * radix + get_or codes.now i 0 }
{
    for i in 0..keys.len() {
        keys[i] = keys[i] * radix + u64::from(codes[i]);
    }
}

/// Puts the codes of as many lists into the keys as 64 bits hold, and gives their number.
pub(crate) fn pack(keys: &mut [u64], lists: &[&[u32]]) -> usize
    requires lengths { All (λ l. length l.now ≡ length keys.old) lists.now }
    requires zero { (i : ℕ) → get_or keys.old i 0 ≡ 0 }
    ensures within { result ≤ length lists.now }
    ensures length { length keys.new ≡ length keys.old }
    ensures packed { ArePacked (take result (lists_now lists.now)) keys.new }
{
    let mut limit = 1u64;
    for i in 0..lists.len() {
        let codes = lists[i];
        let radix = radix_of(codes);
        match limit.checked_mul(radix) {
            Some(next) => {
                widen(keys, codes, radix);
                limit = next;
            }
            None => return i,
        }
    }
    lists.len()
}
