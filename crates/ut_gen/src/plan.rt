//! Which line stands where in the script, and how many draws are made before it.
ghost use Rattle.std.specs.Prelude.{◌≡◌, ◌<◌, ◌≤◌, ◌+◌, ◌*◌, IfSome};
ghost use Rattle.ut_gen.specs.Lines.{IsLineAt, IsShort, draws_of, drawn};

use crate::fixed::{
    CLOSING, FIRST_MERGE, OPENING, PARTIAL, closing_line, first_merge_line, move_line,
    opening_line, partial_line,
};
use crate::rows::BULK_ROWS;

/// What a line says.
#[derive(Clone, Copy)]
pub enum Line {
    /// A line that is the same for each seed.
    Fixed(&'static [u8]),
    /// A bulk, by the number of its first row.
    Bulk(u32),
    /// An insert, by the number of its row.
    Insert(u32),
    /// An update, by the number of rows that there are.
    Update(u32),
}

/// Line i of a script of that size.
pub(crate) fn line_at(size: u32, i: u32) -> Option<Line>
    requires { size ≤ 500 }
    ensures line { IsLineAt size i result }
    ensures short { IfSome result IsShort }
    ensures draws { IfSome result (λ line. drawn size (i + 1) ≡ drawn size i + draws_of line) }
{
    let first_merge = OPENING + size;
    let inserts = first_merge + FIRST_MERGE;
    let moved = inserts + 10 * size;
    let more = moved + 1;
    let partial = more + 10 * size;
    let updates = partial + PARTIAL;
    let closing = updates + 3 * size;
    if i < OPENING {
        Some(Line::Fixed(opening_line(i)))
    } else if i < first_merge {
        Some(Line::Bulk(BULK_ROWS * (i - OPENING)))
    } else if i < inserts {
        Some(Line::Fixed(first_merge_line(i - first_merge)))
    } else if i < moved {
        Some(Line::Insert(BULK_ROWS * size + (i - inserts)))
    } else if i == moved {
        Some(Line::Fixed(move_line()))
    } else if i < partial {
        Some(Line::Insert(210 * size + (i - more)))
    } else if i < updates {
        Some(Line::Fixed(partial_line(i - partial)))
    } else if i < closing {
        Some(Line::Update(220 * size))
    } else if i < closing + CLOSING {
        Some(Line::Fixed(closing_line(i - closing)))
    } else {
        None
    }
}

/// How many draws are made before line i.
pub(crate) fn draws_before(size: u32, i: u32) -> u32
    requires { size ≤ 500 }
    ensures { result ≡ drawn size i }
{
    1200 * i.saturating_sub(3).min(size)
        + 6 * i.saturating_sub(9 + size).min(10 * size)
        + 6 * i.saturating_sub(10 + 11 * size).min(10 * size)
        + 2 * i.saturating_sub(12 + 21 * size).min(3 * size)
}
