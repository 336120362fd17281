//! The text of a book.
ghost use Rattle.std.specs.Prelude.{◌≡◌, ◌∷◌, ◌++◌, OnOk, decimal};
ghost use Rattle.ut_crowd.specs.Texts.{asked_text, book_text, kind_text, store_text, turn_text};

use crate::book::{Asked, Turn};
use itoa::Buffer;
use std::alloc::AllocError;
use ut_plain::Statement;
use ut_reply::put_reply;
use ut_value::{MergeKind, Name};

/// Puts the turns at the end, each as the line that was asked behind an arrow, and its reply.
pub fn put_book(out: &mut Vec<u8>, book: &[Turn]) -> Result<(), AllocError>
    ensures { OnOk result (out.new.items ≡ out.old.items ++ book_text book.now) }
{
    for turn in book {
        put_turn(out, turn)?;
    }
    Ok(())
}

fn put_turn(out: &mut Vec<u8>, turn: &Turn) -> Result<(), AllocError>
    ensures { OnOk result (out.new.items ≡ out.old.items ++ turn_text turn.now) }
{
    out.extend_from_slice(b"> ")?;
    put_asked(out, &turn.asked)?;
    out.extend_from_slice(b"\n")?;
    put_reply(out, turn.session, &turn.reply)
}

fn put_asked(out: &mut Vec<u8>, asked: &Asked) -> Result<(), AllocError>
    ensures { OnOk result (out.new.items ≡ out.old.items ++ asked_text asked.now) }
{
    match asked {
        Asked::Line(line) => out.extend_from_slice(line.as_slice()),
        Asked::Store(st) => {
            out.extend_from_slice(b"0 ")?;
            put_statement(out, st)
        }
    }
}

// A statement of the store, and nothing for any other.
fn put_statement(out: &mut Vec<u8>, st: &Statement) -> Result<(), AllocError>
    ensures { OnOk result (out.new.items ≡ out.old.items ++ store_text st.now) }
{
    match st {
        Statement::MergeL1 { table, n } => {
            put_table(out, b"merge l1 ", table)?;
            put_number(out, b" ", *n)
        }
        Statement::MergeBegin { table, kind } => {
            put_table(out, b"merge begin ", table)?;
            put_kind(out, b" ", *kind)
        }
        Statement::MergeEnd => out.extend_from_slice(b"merge end"),
        Statement::SaveBegin => out.extend_from_slice(b"save begin"),
        Statement::SaveStep { n } => put_number(out, b"save step ", *n),
        Statement::SaveSeal => out.extend_from_slice(b"save seal"),
        Statement::SaveFlip => out.extend_from_slice(b"save flip"),
        Statement::SaveDrop => out.extend_from_slice(b"save drop"),
        Statement::Shape { table } => put_table(out, b"shape ", table),
        _ => Ok(()),
    }
}

fn put_table(out: &mut Vec<u8>, verb: &[u8], table: &Name) -> Result<(), AllocError>
    ensures { OnOk result (out.new.items ≡ out.old.items ++ (verb.now ++ table.now)) }
{
    out.extend_from_slice(verb)?;
    out.extend_from_slice(table.as_slice())
}

fn put_number(out: &mut Vec<u8>, verb: &[u8], number: u32) -> Result<(), AllocError>
    ensures { OnOk result (out.new.items ≡ out.old.items ++ (verb.now ++ decimal number)) }
{
    let mut buffer = Buffer::new();
    out.extend_from_slice(verb)?;
    out.extend_from_slice(buffer.format(number).as_bytes())
}

fn put_kind(out: &mut Vec<u8>, verb: &[u8], kind: MergeKind) -> Result<(), AllocError>
    ensures { OnOk result (out.new.items ≡ out.old.items ++ (verb.now ++ kind_text kind)) }
{
    out.extend_from_slice(verb)?;
    out.extend_from_slice(kind_word(kind))
}

fn kind_word(kind: MergeKind) -> &'static [u8]
    ensures { result.now ≡ kind_text kind }
{
    match kind {
        MergeKind::Classic => b"classic",
        MergeKind::Resort => b"resort",
        MergeKind::Partial => b"partial",
        MergeKind::Extend => b"extend",
    }
}
