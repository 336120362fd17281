//! Numbers and the literals of values, each as one word spells it.
ghost use Rattle.std.specs.Prelude.{◌≡◌, ◌≤◌, ◌<◌, ◌+◌, ◌*◌, ◌-◌, length, IfOk, IfSome, Some, None, pos, negsuc, false, true, option_and_then, is_some};
ghost use Rattle.std.specs.Option.{option_map};
ghost use Rattle.std.specs.List.{list_all};
ghost use Rattle.ut_value.specs.Text.{is_digit, is_text, is_text_byte};
ghost use Rattle.ut_script.specs.Literals.{number_from, number_of, within, int_of, unquoted, text_of};
ghost use Rattle.ut_script.specs.Unquoted.{is_plain};

use std::alloc::{AllocError, Global};
use ut_reply::QUOTE;
use ut_value::{Text, is_digit};

const MINUS: u8 = b'-';

const ZERO: u8 = b'0';

/// The digits of the greatest numbers.
const MAX_DIGITS: usize = 19;

/// The bytes of the longest text.
const MAX_TEXT: usize = 255;

/// A number in decimal digits without leading zeros.
pub(crate) fn number_of(word: &[u8]) -> Option<u64>
    ensures { result ≡ number_of word.now }
{
    match word {
        [] => None,
        [first, others @ ..] => {
            let leads = *first == ZERO && others.len() > 0;
            if are_digits(word) && others.len() < MAX_DIGITS && !leads {
                Some(number_from(word))
            } else {
                None
            }
        }
    }
}

fn are_digits(word: &[u8]) -> bool
    ensures { result ≡ list_all is_digit word.now }
{
    word.iter().all(|b| is_digit(*b))
}

#[tactic(auto, using(crate::proofs::Powers::powers))]
fn number_from(digits: &[u8]) -> u64
    requires few { length digits.now ≤ 19 }
    requires digits { list_all is_digit digits.now ≡ true }
    ensures { result ≡ number_from 0 digits.now }
{
    let mut number = 0u64;
    for d in digits {
        number = with_digit(number, *d);
    }
    number
}

fn with_digit(number: u64, digit: u8) -> u64
    requires low { number < 1000000000000000000 }
    requires digit { is_digit digit ≡ true }
    ensures { result ≡ 10 * number + (digit - 48) }
{
    number * 10 + (digit as u64 - 48)
}

/// The number, where it lies in a range.
pub(crate) fn within(least: u64, most: u64, number: Option<u64>) -> Option<u64>
    ensures { result ≡ within least most number }
{
    match number {
        None => None,
        Some(n) => {
            if least <= n && n <= most {
                Some(n)
            } else {
                None
            }
        }
    }
}

/// An INT.
#[tactic(auto, unfolding(crate::specs::Literals::int_of))]
pub(crate) fn int_of(word: &[u8]) -> Option<i64>
    ensures { result ≡ int_of word.now }
{
    match word {
        [] => None,
        [first, others @ ..] => {
            if *first == MINUS {
                negative(within(1, 9223372036854775808, number_of(others)))
            } else {
                not_negative(within(0, 9223372036854775807, number_of(word)))
            }
        }
    }
}

fn not_negative(number: Option<u64>) -> Option<i64>
    requires { IfSome number (λ n. n ≤ 9223372036854775807) }
    ensures { result ≡ option_map pos number }
{
    match number {
        None => None,
        Some(n) => Some(n as i64),
    }
}

fn negative(number: Option<u64>) -> Option<i64>
    requires { IfSome number (λ n. (1 ≤ n) × (n ≤ 9223372036854775808)) }
    ensures { result ≡ option_map (λ n. negsuc (n - 1)) number }
{
    match number {
        None => None,
        Some(n) => Some(-((n - 1) as i64) - 1),
    }
}

/// Whether the bytes behind a quote are the rest of a text literal.
pub(crate) fn is_text_literal(bytes: &[u8]) -> bool
    ensures { result ≡ is_some (text_of bytes.now) }
{
    let mut count = 0usize;
    let mut pending = false;
    for b in bytes {
        if *b != QUOTE {
            if pending {
                return false;
            }
            if !is_text_byte(*b) {
                return false;
            }
            count += 1;
            continue;
        }
        if pending {
            count += 1;
            pending = false;
            continue;
        }
        pending = true;
    }
    pending && count <= MAX_TEXT
}

fn is_text_byte(b: u8) -> bool
    ensures { result ≡ is_text_byte b }
{
    b >= 32 && b != 127
}

/// The text of a literal whose first quote was read.
fn read_text(alloc: Global, bytes: &[u8]) -> Result<Text, AllocError>
    requires { is_some (text_of bytes.now) ≡ true }
    ensures { IfOk result (λ text. text_of bytes.now ≡ Some text) }
{
    let bytes = unquoted(alloc, bytes)?;
    let text = Text::from_slice(alloc, &bytes)?;
    Ok(text)
}

/// The text of a literal whose first quote was read, where these bytes are one.
#[tactic(auto, using(crate::proofs::StatementLemmas::statements))]
pub(crate) fn text_of(alloc: Global, bytes: &[u8]) -> Result<Option<Text>, AllocError>
    ensures { IfOk result (λ o. o ≡ text_of bytes.now) }
{
    if let Some(text) = plain_text(bytes) {
        return Ok(Some(Text::from_slice(alloc, text)?));
    }
    if !is_text_literal(bytes) {
        return Ok(None);
    }
    Ok(Some(read_text(alloc, bytes)?))
}

// The text of a literal that ends at its first quote.
#[tactic(auto, using(crate::proofs::UnquotedLemmas::plain))]
fn plain_text(bytes: &[u8]) -> Option<&[u8]>
    ensures text { IfSome result (λ text. text_of bytes.now ≡ Some text.now) }
    ensures rule { IfSome result (λ text. is_text text.now ≡ true) }
{
    match bytes.split_last() {
        None => None,
        Some((last, text)) => {
            if *last == QUOTE && text.len() <= MAX_TEXT && are_plain(text) {
                Some(text)
            } else {
                None
            }
        }
    }
}

fn are_plain(bytes: &[u8]) -> bool
    ensures { result ≡ list_all is_plain bytes.now }
{
    bytes.iter().all(|b| is_plain(*b))
}

// Whether a byte stands for itself in a literal.
fn is_plain(b: u8) -> bool
    ensures { result ≡ is_plain b }
{
    is_text_byte(b) && b != QUOTE
}

// The bytes of a literal, each doubled quote once.
fn unquoted(alloc: Global, bytes: &[u8]) -> Result<Vec<u8>, AllocError>
    requires { is_some (unquoted false bytes.now) ≡ true }
    ensures { IfOk result (λ text. unquoted false bytes.now ≡ Some text.items) }
{
    let mut text = Vec::with_capacity(alloc, bytes.len())?;
    let mut pending = false;
    for b in bytes {
        if *b != QUOTE {
            text.push_reserved(*b);
            continue;
        }
        if pending {
            text.push_reserved(QUOTE);
            pending = false;
            continue;
        }
        pending = true;
    }
    Ok(text)
}
