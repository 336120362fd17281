//! The keys that are looked up, ascending.
use std::alloc::{AllocError, Global};
use ut_key::KeyList;

/// The keys of numbers, three apart.
pub(crate) fn int_keys(alloc: Global, count: u32) -> Result<KeyList, AllocError> {
    let mut keys = KeyList::with_capacity(alloc, count as usize, 8 * count as usize)?;
    for i in 0..count {
        let number = (1u64 << 63) + 3 * u64::from(i);
        keys.push(&number.to_be_bytes())?;
    }
    Ok(keys)
}

// The decimal digit of a number at the place whose worth is `unit`.
fn digit(number: u32, unit: u32) -> u8 {
    match unit {
        0 => b'0',
        _ => b'0' + (number / unit % 10) as u8,
    }
}

/// The keys of texts: a word and nine digits.
pub(crate) fn text_keys(alloc: Global, count: u32) -> Result<KeyList, AllocError> {
    let mut keys = KeyList::with_capacity(alloc, count as usize, 18 * count as usize)?;
    for i in 0..count {
        let mut text = *b"Customer#000000000";
        let mut unit = 100_000_000;
        for place in 9..18usize {
            text[place] = digit(i, unit);
            unit /= 10;
        }
        keys.push(&text)?;
    }
    Ok(keys)
}
