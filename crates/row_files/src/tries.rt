//! What is tried with a row, as a line says it.
//!
//!     try:    "crash each" | "crash in " LINE " -> " WANTED | "crash " PLACE " " TEAR " -> " WANTED
//!           | "fault each" [" and " CALLS] | "fault " CALL " and " CALLS | "fault " PLACE " " TEAR " -> " WANTED
//!           | "source each" | "sink " CALL " replies " NUMBER | "pieces " BYTES | "comment " BYTES " -> " ("done" | "too long")
//!           | "entries" (" " NUMBER)* | "replies " NUMBER
//!           | FILE " holds " HEX [" at " NUMBER] | FILE " has " NUMBER " bytes"
//!           | PATCH [" and " PATCH] " -> " WANTED | FILE " cut each -> " WANTED | FILE " byte each -> " WANTED
//!     place:  LINE [" - " CALLS]
//!     tear:   "old" | "new" | HEX
//!     patch:  FILE (" is " HEX | " at " NUMBER " " HEX | " cut " NUMBER | " end " HEX)
//!     file:   "redo" | "redo2" | "pages"
//!     wanted: "opened" | "damaged" | "opened or damaged" | "no store" | "left " NUMBER [" saved"]
use crate::words::{byte_in, hex_in, len_in, number_in};
use ut_outside::{Tear, Which};

/// What a store has to be that is opened.
#[derive(Clone, Copy)]
pub enum Wanted {
    Opened,
    Damaged,
    OpenedOrDamaged,
    NoStore,
    /// It has just so many entries of its journal, read from the log alone.
    Left(u64),
    /// The same, read from the image of a savepoint.
    Saved(u64),
}

/// A change of a file's bytes.
#[derive(Clone, Copy)]
pub enum Change<'a> {
    Is(&'a str),
    At(usize, &'a str),
    Byte(usize, u8),
    Cut(usize),
    End(&'a str),
}

#[derive(Clone, Copy)]
pub struct Patch<'a> {
    pub file: Which,
    pub change: Change<'a>,
}

/// So many calls of the disk before the reply to a line of the script begins, of which 0 is the first.
#[derive(Clone, Copy)]
pub struct Place {
    pub line: usize,
    pub before: u64,
}

/// What is tried with the run of a row, or with the files that it leaves.
#[derive(Clone, Copy)]
pub enum Try<'a> {
    CrashEach,
    CrashIn(usize, Wanted),
    CrashAt(Place, Tear, Wanted),
    FaultEach,
    FaultEachAnd(u64),
    FaultAnd(u64, u64),
    FaultAt(Place, Tear, Wanted),
    SourceEach,
    Sink(u64, usize),
    Pieces(usize),
    CommentDone(usize),
    CommentTooLong(usize),
    Entries(&'a str),
    Replies(usize),
    Holds(Which, usize, &'a str),
    IsAll(Which, &'a str),
    Has(Which, usize),
    Patched(Patch<'a>, Wanted),
    PatchedTwice(Patch<'a>, Patch<'a>, Wanted),
    CutEach(Which, Wanted),
    ByteEach(Which, Wanted),
}

pub(crate) fn file_in(word: &str) -> Option<Which> {
    match word {
        "redo" => Some(Which::Redo),
        "redo2" => Some(Which::Redo2),
        "pages" => Some(Which::Pages),
        _ => None,
    }
}

fn tear_in(word: &str) -> Option<Tear> {
    match word {
        "old" => Some(Tear::Old),
        "new" => Some(Tear::New),
        _ if word.len() == 2 => Some(Tear::Fill(byte_in(word, 0)?)),
        _ => None,
    }
}

fn line_in(word: &str) -> Option<usize> {
    len_in(word)?.checked_sub(1)
}

fn place_in(line: &str, before: &str) -> Option<Place> {
    Some(Place {
        line: line_in(line)?,
        before: number_in(before)?,
    })
}

/// What a store has to be, of the words behind the arrow.
pub(crate) fn wanted_in(words: &str) -> Option<Wanted> {
    match words {
        "opened" => Some(Wanted::Opened),
        "damaged" => Some(Wanted::Damaged),
        "opened or damaged" => Some(Wanted::OpenedOrDamaged),
        "no store" => Some(Wanted::NoStore),
        _ => left_in(words.strip_prefix("left ")?),
    }
}

fn left_in(words: &str) -> Option<Wanted> {
    match words.strip_suffix(" saved") {
        Some(number) => Some(Wanted::Saved(number_in(number)?)),
        None => Some(Wanted::Left(number_in(words)?)),
    }
}

/// The change that these words say.
pub(crate) fn patch_in<'a>(words: &[&'a str]) -> Option<Patch<'a>> {
    match words {
        [file, change @ ..] => Some(Patch {
            file: file_in(file)?,
            change: change_in(change)?,
        }),
        _ => None,
    }
}

fn change_in<'a>(words: &[&'a str]) -> Option<Change<'a>> {
    match words {
        ["is", bytes] => Some(Change::Is(hex_in(bytes)?)),
        ["at", place, bytes] => Some(Change::At(len_in(place)?, hex_in(bytes)?)),
        ["cut", len] => Some(Change::Cut(len_in(len)?)),
        ["end", bytes] => Some(Change::End(hex_in(bytes)?)),
        _ => None,
    }
}

/// What is tried, of the words of a line without an arrow.
pub(crate) fn try_in<'a>(words: &[&'a str]) -> Option<Try<'a>> {
    match words {
        ["crash", "each"] => Some(Try::CrashEach),
        ["fault", "each"] => Some(Try::FaultEach),
        ["fault", "each", "and", more] => Some(Try::FaultEachAnd(number_in(more)?)),
        ["fault", call, "and", more] => Some(Try::FaultAnd(number_in(call)?, number_in(more)?)),
        _ => told_in(words),
    }
}

// What is tried with the streams, or looked for in what was told and in the files.
fn told_in<'a>(words: &[&'a str]) -> Option<Try<'a>> {
    match words {
        ["source", "each"] => Some(Try::SourceEach),
        ["sink", call, "replies", count] => Some(Try::Sink(number_in(call)?, len_in(count)?)),
        ["pieces", len] => Some(Try::Pieces(len_in(len)?)),
        ["replies", count] => Some(Try::Replies(len_in(count)?)),
        [file, "holds", bytes] => Some(Try::IsAll(file_in(file)?, hex_in(bytes)?)),
        [file, "holds", bytes, "at", place] => {
            Some(Try::Holds(file_in(file)?, len_in(place)?, hex_in(bytes)?))
        }
        [file, "has", len, "bytes"] => Some(Try::Has(file_in(file)?, len_in(len)?)),
        _ => None,
    }
}

/// What is tried, of the words before an arrow, where this is wanted.
pub(crate) fn try_for<'a>(words: &[&'a str], wanted: Wanted) -> Option<Try<'a>> {
    match words {
        ["crash", ..] => crash_for(words, wanted),
        ["fault", line, tear] => {
            Some(Try::FaultAt(place_in(line, "0")?, tear_in(tear)?, wanted))
        }
        ["fault", line, "-", calls, tear] => {
            Some(Try::FaultAt(place_in(line, calls)?, tear_in(tear)?, wanted))
        }
        [file, "cut", "each"] => Some(Try::CutEach(file_in(file)?, wanted)),
        [file, "byte", "each"] => Some(Try::ByteEach(file_in(file)?, wanted)),
        _ => patched_for(words, wanted),
    }
}

fn crash_for<'a>(words: &[&'a str], wanted: Wanted) -> Option<Try<'a>> {
    match words {
        [_, "in", line] => Some(Try::CrashIn(line_in(line)?, wanted)),
        [_, line, tear] => Some(Try::CrashAt(place_in(line, "0")?, tear_in(tear)?, wanted)),
        [_, line, "-", calls, tear] => {
            Some(Try::CrashAt(place_in(line, calls)?, tear_in(tear)?, wanted))
        }
        _ => None,
    }
}

fn patched_for<'a>(words: &[&'a str], wanted: Wanted) -> Option<Try<'a>> {
    match words.iter().position(|word| *word == "and") {
        None => Some(Try::Patched(patch_in(words)?, wanted)),
        Some(place) => {
            let (first, behind) = words.split_at_checked(place)?;
            let (_, second) = behind.split_first()?;
            Some(Try::PatchedTwice(patch_in(first)?, patch_in(second)?, wanted))
        }
    }
}
