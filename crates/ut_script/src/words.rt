//! The words of a line: a space parts words where no quote is open.
ghost use Rattle.std.specs.Prelude.{◌≡◌, ◌+◌, ◌<◌, ◌≤◌, ◌∷◌, [], false, true, drop, length, IfSome, IfNone};
ghost use Rattle.ut_script.specs.Words.{words_of, piece_len, BeginsWord};

use memchr::memchr;
use ut_reply::QUOTE;

const SPACE: u8 = b' ';

/// The first word of a line, and what stands behind it.
pub(crate) fn next_word(line: &[u8]) -> Option<(&[u8], &[u8])>
    ensures found { IfSome result (λ r. words_of line.now ≡ r.0.now ∷ words_of r.1.now) }
    ensures shorter { IfSome result (λ r. length r.1.now < length line.now) }
    ensures none { IfNone result (words_of line.now ≡ []) }
{
    let rest = after_spaces(line);
    if rest.is_empty() {
        return None;
    }
    let count = piece_len(rest);
    let (word, behind) = rest.split_at(count);
    match behind {
        [] => Some((word, behind)),
        [_, others @ ..] => Some((word, others)),
    }
}

// What stands behind the spaces at the front.
fn after_spaces(line: &[u8]) -> &[u8]
    ensures same { words_of result.now ≡ words_of line.now }
    ensures shorter { length result.now ≤ length line.now }
    ensures begins { BeginsWord result.now }
{
    let mut rest = line;
    while let [SPACE, others @ ..] = rest {
        rest = others;
    }
    rest
}

// How long the piece at the front is.
fn piece_len(bytes: &[u8]) -> usize
    ensures value { result ≡ piece_len false bytes.now }
    ensures within { result ≤ length bytes.now }
{
    let mut at = 0;
    while at < bytes.len() {
        let b = bytes[at];
        if b == SPACE {
            return at;
        }
        at += 1;
        if b == QUOTE {
            at += quoted_len(&bytes[at..]);
        }
    }
    at
}

// How many bytes behind a quote are inside of it, the next quote included.
fn quoted_len(bytes: &[u8]) -> usize
    ensures value { piece_len true bytes.now ≡ result + piece_len false (drop result bytes.now) }
    ensures within { result ≤ length bytes.now }
{
    match memchr(QUOTE, bytes) {
        Some(quote) => quote + 1,
        None => bytes.len(),
    }
}
