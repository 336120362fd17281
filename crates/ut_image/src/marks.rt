//! Live marks: eight in a byte, the first as the lowest bit.
ghost use Rattle.std.specs.Prelude.{◌≡◌, ◌+◌, ◌*◌, ◌/◌, ◌%◌, ◌<◌, ◌≤◌, ◌^◌, ◌↔◌, ◌++◌, List, Bool, ℕ, nat_eq, slice_index, IsTrue, length, take, drop, map, cond, IfOk, IfSome, IfNone, vec_len, vec_capacity};
ghost use Rattle.ut_image.specs.Bytes.{mark_byte, mark_bytes, marks_len};
ghost use Rattle.ut_image.specs.Steps.{bit_in, first_bits};

use std::alloc::{AllocError, Global};
use ut_value::Seq;

/// How many bytes have so many marks.
pub(crate) fn marks_len(count: usize) -> usize
    ensures { result ≡ marks_len count }
{
    count / 8 + usize::from(count % 8 > 0)
}

// A byte of marks.
fn mark_byte(marks: &[bool]) -> u8
    requires { length marks.now ≤ 8 }
    ensures byte { result ≡ mark_byte marks.now }
    ensures small { result < 2 ^ length marks.now }
{
    match marks {
        [] => 0,
        [first, others @ ..] => u8::from(*first) + 2 * mark_byte(others),
    }
}

// The byte number `k` of these marks.
fn byte_at(marks: &[bool], k: usize) -> u8
    requires { k < marks_len (length marks.now) }
    ensures { result ≡ mark_byte (take 8 (drop (8 * k) marks.now)) }
{
    let others = &marks[8 * k..];
    mark_byte(&others[..others.len().min(8)])
}

/// Puts the bytes of marks where there is room.
pub(crate) fn put_marks(marks: &[bool], out: &mut Vec<u8>)
    requires { vec_len out.old + marks_len (length marks.now) ≤ vec_capacity out.old }
    ensures items { out.new.items ≡ out.old.items ++ mark_bytes marks.now }
    ensures len { vec_len out.new ≡ vec_len out.old + marks_len (length marks.now) }
    ensures room { vec_capacity out.old ≤ vec_capacity out.new }
{
    for k in 0..marks_len(marks.len()) {
        out.push_reserved(byte_at(marks, k));
    }
}

/// So many marks, and what stands behind their bytes.
pub(crate) fn read_marks(
    alloc: Global,
    count: u32,
    bytes: &[u8],
) -> Result<Option<(Seq<bool>, &[u8])>, AllocError>
    ensures found { IfOk result (λ o. IfSome o (λ r. (length r.0 ≡ count) × (bytes.now ≡ mark_bytes r.0 ++ r.1.now))) }
    ensures none { IfOk result (λ o. IfNone o ((marks : List Bool) (rest : List ℕ) → length marks ≡ count → bytes.now ≡ mark_bytes marks ++ rest → ⊥)) }
{
    let len = marks_len(count as usize);
    if bytes.len() < len {
        return Ok(None);
    }
    let (front, rest) = bytes.split_at(len);
    let marks = marks_in(alloc, count as usize, front)?;
    if !are_spelled(&marks, front) {
        return Ok(None);
    }
    Ok(Some((Seq::from_vec(marks), rest)))
}

// Whether bit number i is set.
fn bit_at(bytes: &[u8], i: usize) -> bool
    requires { i / 8 < length bytes.now }
    ensures { result ≡ bit_in bytes.now i }
{
    (bytes[i / 8] >> (i % 8)) % 2 == 1
}

// The first bits of the bytes.
fn marks_in(alloc: Global, count: usize, bytes: &[u8]) -> Result<Vec<bool>, AllocError>
    requires { count ≤ 8 * length bytes.now }
    ensures { IfOk result (λ v. v.items ≡ first_bits count bytes.now) }
{
    let mut marks = Vec::with_capacity(alloc, count)?;
    for i in 0..count {
        marks.push(bit_at(bytes, i))?;
    }
    Ok(marks)
}

// Whether these are the bytes of the marks.
fn are_spelled(marks: &[bool], bytes: &[u8]) -> bool
    requires { length bytes.now ≡ marks_len (length marks.now) }
    ensures { IsTrue result ↔ (bytes.now ≡ mark_bytes marks.now) }
{
    for (k, byte) in bytes.iter().enumerate() {
        if byte_at(marks, k) != *byte {
            return false;
        }
    }
    true
}
