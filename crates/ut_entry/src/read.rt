//! Reads numbers, counted bytes and lists. A length is never trusted for more than the bytes that are there.
ghost use Rattle.std.specs.Prelude.{◌≡◌, ◌<◌, ◌++◌, ◌∷◌, ℕ, List, Bool, length, IsTrue, IfOk, IfSome, IfNone};
ghost use Rattle.std.specs.Int.{w16, w32, to_le_bytes};
ghost use Rattle.std.specs.List.{flat_map, list_all};
ghost use Rattle.ut_value.specs.KeyBytes.{is_int, int_key};
ghost use Rattle.ut_value.specs.Spelling.{text_spelling, place_spelling, spelling};
ghost use Rattle.ut_value.specs.Reading.{Begins, BeginsNone, BeginsOnce};

use std::alloc::{AllocError, Global};
use ut_value::{Seq, int_of};

/// A thing that has a spelling, with the reader of it. The context says which things may be.
pub trait Spelled<C>: Drop {
    ghost spelling: { Self → List ℕ };

    ghost keeps: { C → Self → Bool };

    /// The thing whose spelling begins the bytes, and what stands behind it.
    fn read<'a>(
        alloc: Global,
        context: &C,
        bytes: &'a [u8],
    ) -> Result<Option<(Self, &'a [u8])>, AllocError>
        ensures found { IfOk result (λ o. IfSome o (λ r. Begins spelling (keeps context.now) bytes.now r.0 r.1.now)) }
        ensures none { IfOk result (λ o. IfNone o (BeginsNone spelling (keeps context.now) bytes.now)) };
}

/// At most so many places are taken for a list before its items are read.
const FIRST_ROOM: usize = 64;

/// A list of so many things, and what stands behind them.
pub fn read_list<'a, C, T: Spelled<C>>(
    alloc: Global,
    context: &C,
    count: usize,
    bytes: &'a [u8],
) -> Result<Option<(Seq<T>, &'a [u8])>, AllocError>
    requires { BeginsOnce T.spelling (T.keeps context.now) }
    ensures found { IfOk result (λ o. IfSome o (λ r. (length r.0 ≡ count) × IsTrue (list_all (T.keeps context.now) r.0) × (bytes.now ≡ flat_map T.spelling r.0 ++ r.1.now))) }
    ensures none { IfOk result (λ o. IfNone o ((xs : List T) (rest : List ℕ) → length xs ≡ count → IsTrue (list_all (T.keeps context.now) xs) → bytes.now ≡ flat_map T.spelling xs ++ rest → ⊥)) }
{
    let mut items = Vec::with_capacity(alloc, count.min(FIRST_ROOM).min(bytes.len()))?;
    let mut rest = bytes;
    for _ in 0..count {
        let Some((item, behind)) = T::read(alloc, context, rest)? else {
            return Ok(None);
        };
        items.push(item)?;
        rest = behind;
    }
    Ok(Some((Seq::from_vec(items), rest)))
}

/// The first byte, and what stands behind it.
pub fn first_byte(bytes: &[u8]) -> Option<(u8, &[u8])>
    ensures found { IfSome result (λ r. bytes.now ≡ r.0 ∷ r.1.now) }
    ensures none { IfNone result ((byte : ℕ) (rest : List ℕ) → bytes.now ≡ byte ∷ rest → ⊥) }
{
    match bytes {
        [first, rest @ ..] => Some((*first, rest)),
        [] => None,
    }
}

/// The bytes whose length stands before them, and what stands behind these.
pub fn counted(bytes: &[u8]) -> Option<(&[u8], &[u8])>
    ensures found { IfSome result (λ r. bytes.now ≡ text_spelling r.0.now ++ r.1.now) }
    ensures none { IfNone result ((text rest : List ℕ) → bytes.now ≡ text_spelling text ++ rest → ⊥) }
{
    let (len, rest) = first_byte(bytes)?;
    let len = usize::from(len);
    if rest.len() < len {
        return None;
    }
    Some(rest.split_at(len))
}

/// A number's eight key bytes, and what stands behind these.
pub fn read_int(bytes: &[u8]) -> Option<(i64, &[u8])>
    ensures found { IfSome result (λ r. IsTrue (is_int r.0) × (bytes.now ≡ int_key r.0 ++ r.1.now)) }
    ensures none { IfNone result (length bytes.now < 8) }
{
    if bytes.len() < 8 {
        return None;
    }
    let (key, rest) = bytes.split_at(8);
    match int_of(key) {
        Some(number) => Some((number, rest)),
        None => None,
    }
}

/// Two bytes of a number, the lowest first, and what stands behind these.
pub(crate) fn read_u16(bytes: &[u8]) -> Option<(u16, &[u8])>
    ensures found { IfSome result (λ r. bytes.now ≡ to_le_bytes w16 r.0 ++ r.1.now) }
    ensures none { IfNone result (length bytes.now < 2) }
{
    match bytes {
        [a, b, rest @ ..] => Some((u16::from_le_bytes([*a, *b]), rest)),
        _ => None,
    }
}

/// Four bytes of a number, the lowest first, and what stands behind these.
pub fn read_u32(bytes: &[u8]) -> Option<(u32, &[u8])>
    ensures found { IfSome result (λ r. bytes.now ≡ to_le_bytes w32 r.0 ++ r.1.now) }
    ensures none { IfNone result (length bytes.now < 4) }
{
    match bytes {
        [a, b, c, d, rest @ ..] => Some((u32::from_le_bytes([*a, *b, *c, *d]), rest)),
        _ => None,
    }
}

/// The place of a row: its table and its id.
#[derive(Clone, Copy)]
pub(crate) struct Place {
    pub table: u16,
    pub id: u32,
}

/// A place, and what stands behind it.
pub(crate) fn read_place(bytes: &[u8]) -> Option<(Place, &[u8])>
    ensures found { IfSome result (λ r. bytes.now ≡ place_spelling r.0.table r.0.id ++ r.1.now) }
    ensures none { IfNone result (length bytes.now < 6) }
{
    let (table, rest) = read_u16(bytes)?;
    let (id, rest) = read_u32(rest)?;
    Some((Place { table, id }, rest))
}
