//! Numbers and bytes as words.

/// The number that a word spells.
pub fn number_in(word: &str) -> Option<u64> {
    word.parse::<u64>().ok()
}

// The number that fits a length.
pub(crate) fn len_in(word: &str) -> Option<usize> {
    word.parse::<usize>().ok()
}

/// The byte at a place of a text of bytes, each of which is two digits of base sixteen.
pub fn byte_in(hex: &str, place: usize) -> Option<u8> {
    let at = place.saturating_mul(2);
    let high = digit_in(hex, at)?;
    let low = digit_in(hex, at.saturating_add(1))?;
    Some(high << 4 | low)
}

fn digit_in(hex: &str, at: usize) -> Option<u8> {
    digit_of(*hex.as_bytes().get(at)?)
}

fn digit_of(letter: u8) -> Option<u8> {
    match letter {
        b'0'..=b'9' => Some(letter & 15),
        b'A'..=b'F' => Some((letter & 7) + 9),
        _ => None,
    }
}

/// Whether a word is a text of bytes.
pub(crate) fn are_bytes(word: &str) -> bool {
    word.len() % 2 == 0 && word.bytes().all(|letter| digit_of(letter).is_some())
}

/// A text of bytes. The word `nothing` is that of none.
pub(crate) fn hex_in(word: &str) -> Option<&str> {
    if word == "nothing" {
        return Some("");
    }
    if are_bytes(word) && !word.is_empty() {
        return Some(word);
    }
    None
}
