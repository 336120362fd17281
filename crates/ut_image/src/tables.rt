//! Reads parts and tables.
ghost use Rattle.std.specs.Prelude.{◌≡◌, ◌<◌, ◌++◌, length, IfOk, IfSome, IfNone};
ghost use Rattle.std.specs.Int.{w32, w64, to_le_bytes};
ghost use Rattle.ut_value.specs.Reading.{Begins, BeginsNone};
ghost use Rattle.ut_image.specs.Bytes.{part_bytes, parts_bytes, drawn_bytes};
ghost use Rattle.ut_image.specs.Rules.{is_part, are_parts, is_drawn};

use crate::fields::{read_head, read_rows};
use crate::marks::read_marks;
use crate::{Drawn, PartRef};
use std::alloc::{AllocError, Global};
use ut_entry::{Spelled, first_byte, read_list, read_u32};
use ut_value::{PARTS_LIMIT, Seq};

/// Where the bytes of a part begin, and how many bytes and rows it has.
#[derive(Clone, Copy)]
struct Span {
    first: u32,
    length: u64,
    rows: u32,
}

// Eight bytes of a number, the lowest first, and what stands behind these.
fn read_u64(bytes: &[u8]) -> Option<(u64, &[u8])>
    ensures found { IfSome result (λ r. bytes.now ≡ to_le_bytes w64 r.0 ++ r.1.now) }
    ensures none { IfNone result (length bytes.now < 8) }
{
    match bytes {
        [a, b, c, d, e, f, g, h, rest @ ..] => {
            let number = u64::from_le_bytes([*a, *b, *c, *d, *e, *f, *g, *h]);
            Some((number, rest))
        }
        _ => None,
    }
}

fn read_span(bytes: &[u8]) -> Option<(Span, &[u8])>
    ensures found { IfSome result (λ r. bytes.now ≡ to_le_bytes w32 r.0.first ++ (to_le_bytes w64 r.0.length ++ (to_le_bytes w32 r.0.rows ++ r.1.now))) }
    ensures none { IfNone result (length bytes.now < 16) }
{
    let (first, rest) = read_u32(bytes)?;
    let (length, rest) = read_u64(rest)?;
    let (rows, rest) = read_u32(rest)?;
    let span = Span {
        first,
        length,
        rows,
    };
    Some((span, rest))
}

impl Spelled<()> for PartRef {
    ghost spelling = { part_bytes };

    ghost keeps = { λ _. is_part };

    fn read<'a>(
        alloc: Global,
        _context: &(),
        bytes: &'a [u8],
    ) -> Result<Option<(Self, &'a [u8])>, AllocError> {
        let Some((span, rest)) = read_span(bytes) else {
            return Ok(None);
        };
        let Some((live, behind)) = read_marks(alloc, span.rows, rest)? else {
            return Ok(None);
        };
        let part = PartRef {
            first: span.first,
            length: span.length,
            rows: span.rows,
            live,
        };
        Ok(Some((part, behind)))
    }
}

// A table's parts: their number, then each.
fn read_parts(alloc: Global, bytes: &[u8]) -> Result<Option<(Seq<PartRef>, &[u8])>, AllocError>
    ensures found { IfOk result (λ o. IfSome o (λ r. Begins parts_bytes are_parts bytes.now r.0 r.1.now)) }
    ensures none { IfOk result (λ o. IfNone o (BeginsNone parts_bytes are_parts bytes.now)) }
{
    let Some((count, rest)) = first_byte(bytes) else {
        return Ok(None);
    };
    if count > PARTS_LIMIT {
        return Ok(None);
    }
    read_list(alloc, &(), usize::from(count), rest)
}

impl Spelled<()> for Drawn {
    ghost spelling = { drawn_bytes };

    ghost keeps = { λ _. is_drawn };

    fn read<'a>(
        alloc: Global,
        _context: &(),
        bytes: &'a [u8],
    ) -> Result<Option<(Self, &'a [u8])>, AllocError> {
        let Some((table, rest)) = read_head(alloc, bytes)? else {
            return Ok(None);
        };
        let Some((parts, rest)) = read_parts(alloc, rest)? else {
            return Ok(None);
        };
        let Some((l2, rest)) = read_rows(alloc, &table.columns, rest)? else {
            return Ok(None);
        };
        let Some((l1, rest)) = read_rows(alloc, &table.columns, rest)? else {
            return Ok(None);
        };
        let drawn = Drawn {
            table,
            parts,
            l2,
            l1,
        };
        Ok(Some((drawn, rest)))
    }
}
