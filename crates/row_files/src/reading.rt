//! Files of rows.
//!
//!     file:   line*
//!     line:   "" | "#" TEXT | head | setup | ">" | "> " LINE | ANSWER | "?> " LINE | state | "! " try
//!     head:   "row " NAME [" behind " NAME] [" ids " NUMBER]
//!     setup:  "words" (" " WORD)* | "with " patch | "source " CALL
//!     state:  "= " NUMBER [" saved"]
//!
//! In this order: what is set up before the script, the lines of the script, each with its answer below, the lines of a question, the
//! states in which it is answered, each with its answer below, and what is tried.
use crate::row::{Ids, MOST_IDS, Numbered, Row, State};
use crate::tries::{Try, patch_in, try_for, try_in, wanted_in};
use crate::words::{len_in, number_in};
use crate::wrong::{Damage, Wrong};
use std::alloc::{AllocError, Global};

/// The rows of a file.
pub fn rows_of<'a>(alloc: Global, text: &'a str) -> Result<Vec<Row<'a>>, Damage> {
    let mut rows = Vec::new(alloc);
    let mut line: usize = 0;
    for text in text.lines() {
        line = line.saturating_add(1);
        if let Err(wrong) = take(alloc, &mut rows, line, text) {
            return Err(Damage { line, wrong });
        }
    }
    match finish(rows.as_slice()) {
        Ok(()) => Ok(rows),
        Err(wrong) => Err(Damage { line, wrong }),
    }
}

// A file has a row, and the last of them has a script.
fn finish(rows: &[Row<'_>]) -> Result<(), Wrong> {
    match rows.last() {
        None => Err(Wrong::NoRow),
        Some(row) if row.asked.is_empty() => Err(Wrong::NoScript),
        Some(_) => Ok(()),
    }
}

fn take<'a>(
    alloc: Global,
    rows: &mut Vec<Row<'a>>,
    number: usize,
    line: &'a str,
) -> Result<(), Wrong> {
    if line.is_empty() || line.starts_with('#') {
        return Ok(());
    }
    if let Some(head) = line.strip_prefix("row ") {
        let row = row_of(alloc, rows.as_slice(), head)?;
        push(rows, row)?;
        return Ok(());
    }
    match rows.last_mut() {
        None => Err(Wrong::NoHead),
        Some(row) => add(alloc, row, number, line),
    }
}

// A row without a script as yet. The row above it has one.
fn row_of<'a>(alloc: Global, rows: &[Row<'a>], head: &'a str) -> Result<Row<'a>, Wrong> {
    if !rows.is_empty() {
        finish(rows)?;
    }
    let (front, ids) = ids_in(head)?;
    let (name, behind) = behind_in(rows, front)?;
    if !is_name(name) {
        return Err(Wrong::Head);
    }
    if place_of(rows, name).is_some() {
        return Err(Wrong::Twice);
    }
    Ok(Row {
        name,
        behind,
        ids,
        is_plain: is_plain(rows, behind),
        calls: Vec::new(alloc),
        patches: Vec::new(alloc),
        source: None,
        asked: Vec::new(alloc),
        starts: Vec::new(alloc),
        answers: Vec::new(alloc),
        flip: None,
        question: Vec::new(alloc),
        states: Vec::new(alloc),
        tries: Vec::new(alloc),
    })
}

// Whether a row behind this one is plain as far as that goes.
fn is_plain(rows: &[Row<'_>], behind: Option<usize>) -> bool {
    match behind {
        None => true,
        Some(place) => rows.get(place).is_some_and(|row| row.is_plain),
    }
}

// What stands before the number of ids, and the number, if there is one.
fn ids_in<'a>(head: &'a str) -> Result<(&'a str, Option<Ids<'a>>), Wrong> {
    let Some((front, word)) = head.split_once(" ids ") else {
        return Ok((head, None));
    };
    match word.parse::<u32>() {
        Ok(number) if number <= MOST_IDS => Ok((front, Some(Ids { word, number }))),
        _ => Err(Wrong::Ids),
    }
}

// The name, and the place of the row behind which it stands, if there is one.
fn behind_in<'a>(rows: &[Row<'a>], head: &'a str) -> Result<(&'a str, Option<usize>), Wrong> {
    let Some((name, other)) = head.split_once(" behind ") else {
        return Ok((head, None));
    };
    match place_of(rows, other) {
        Some(place) => Ok((name, Some(place))),
        None => Err(Wrong::Behind),
    }
}

fn place_of(rows: &[Row<'_>], name: &str) -> Option<usize> {
    rows.iter().position(|row| row.name == name)
}

// A name has small letters, digits and lines below.
fn is_name(name: &str) -> bool {
    !name.is_empty()
        && name.bytes().all(|byte| byte.is_ascii_lowercase()
            || byte.is_ascii_digit()
            || byte == b'_')
}

// Adds a line to a row, if it stands where such a line may stand.
fn add<'a>(alloc: Global, row: &mut Row<'a>, number: usize, line: &'a str) -> Result<(), Wrong> {
    if let Some(tried) = line.strip_prefix("! ") {
        return add_try(alloc, row, number, tried);
    }
    if !row.tries.is_empty() {
        return Err(Wrong::Order);
    }
    if let Some(asked) = asked_in(line) {
        return add_asked(row, asked);
    }
    if row.asked.is_empty() {
        return add_setup(alloc, row, line);
    }
    if let Some(asked) = line.strip_prefix("?> ") {
        return add_question(row, asked);
    }
    match line.strip_prefix("= ") {
        Some(state) => add_state(alloc, row, state),
        None => add_answer(row, line),
    }
}

// The line of a script. An arrow alone is an empty line, and a script that has no other line is empty.
fn asked_in(line: &str) -> Option<&str> {
    if line == ">" {
        return Some("");
    }
    line.strip_prefix("> ")
}

fn add_asked<'a>(row: &mut Row<'a>, line: &'a str) -> Result<(), Wrong> {
    if !row.question.is_empty() {
        return Err(Wrong::Order);
    }
    push(&mut row.starts, row.answers.len())?;
    push(&mut row.asked, line)?;
    Ok(())
}

fn add_setup<'a>(alloc: Global, row: &mut Row<'a>, line: &'a str) -> Result<(), Wrong> {
    row.is_plain = false;
    if let Some(words) = words_of(line) {
        push(&mut row.calls, words)?;
        return Ok(());
    }
    if let Some(call) = line.strip_prefix("source ") {
        row.source = Some(number_in(call).ok_or(Wrong::Setup)?);
        return Ok(());
    }
    let patch = line.strip_prefix("with ").ok_or(Wrong::Setup)?;
    let words = words_in(alloc, patch)?;
    let patch = patch_in(words.as_slice()).ok_or(Wrong::Setup)?;
    push(&mut row.patches, patch)?;
    Ok(())
}

// The words of a line of words.
fn words_of(line: &str) -> Option<&str> {
    if line == "words" {
        return Some("");
    }
    line.strip_prefix("words ")
}

fn add_question<'a>(row: &mut Row<'a>, line: &'a str) -> Result<(), Wrong> {
    if !row.states.is_empty() {
        return Err(Wrong::Order);
    }
    push(&mut row.question, line)?;
    Ok(())
}

fn add_state(alloc: Global, row: &mut Row<'_>, words: &str) -> Result<(), Wrong> {
    if row.question.is_empty() {
        return Err(Wrong::Order);
    }
    let (number, is_saved) = match words.strip_suffix(" saved") {
        Some(number) => (number, true),
        None => (words, false),
    };
    let entries = number_in(number).ok_or(Wrong::State)?;
    let answer = Vec::new(alloc);
    let state = State {
        entries,
        is_saved,
        answer,
    };
    push(&mut row.states, state)?;
    Ok(())
}

// The line belongs to the answer of the last line of the script, or of the last state.
fn add_answer(row: &mut Row<'_>, line: &str) -> Result<(), Wrong> {
    if row.question.is_empty() {
        if line.starts_with("0 ok root ") {
            row.flip = row.asked.len().checked_sub(1);
        }
        put(&mut row.answers, line)?;
        return Ok(());
    }
    match row.states.last_mut() {
        None => Err(Wrong::Order),
        Some(state) => {
            put(&mut state.answer, line)?;
            Ok(())
        }
    }
}

fn add_try<'a>(alloc: Global, row: &mut Row<'a>, line: usize, text: &'a str) -> Result<(), Wrong> {
    if row.asked.is_empty() {
        return Err(Wrong::Order);
    }
    let one = tried(alloc, text)?.ok_or(Wrong::Try)?;
    push(&mut row.tries, Numbered { line, one })?;
    Ok(())
}

fn tried<'a>(alloc: Global, text: &'a str) -> Result<Option<Try<'a>>, AllocError> {
    if let Some(numbers) = text.strip_prefix("entries ") {
        return Ok(entries_in(numbers));
    }
    if let Some(comment) = text.strip_prefix("comment ") {
        return Ok(comment_in(comment));
    }
    match text.split_once(" -> ") {
        Some((front, wanted)) => tried_for(alloc, front, wanted),
        None => {
            let words = words_in(alloc, text)?;
            Ok(try_in(words.as_slice()))
        }
    }
}

fn tried_for<'a>(
    alloc: Global,
    front: &'a str,
    wanted: &str,
) -> Result<Option<Try<'a>>, AllocError> {
    let Some(wanted) = wanted_in(wanted) else {
        return Ok(None);
    };
    let words = words_in(alloc, front)?;
    Ok(try_for(words.as_slice(), wanted))
}

fn entries_in<'a>(numbers: &'a str) -> Option<Try<'a>> {
    if numbers.split(' ').any(|number| number_in(number).is_none()) {
        return None;
    }
    Some(Try::Entries(numbers))
}

fn comment_in(comment: &str) -> Option<Try<'_>> {
    if let Some(len) = comment.strip_suffix(" -> too long") {
        return Some(Try::CommentTooLong(len_in(len)?));
    }
    Some(Try::CommentDone(len_in(comment.strip_suffix(" -> done")?)?))
}

fn words_in<'a>(alloc: Global, line: &'a str) -> Result<Vec<&'a str>, AllocError> {
    let mut words = Vec::new(alloc);
    for word in line.split(' ') {
        words.push(word)?;
    }
    Ok(words)
}

fn push<T: Drop>(list: &mut Vec<T>, item: T) -> Result<(), AllocError> {
    list.push(item)?;
    Ok(())
}

fn put(out: &mut Vec<u8>, line: &str) -> Result<(), AllocError> {
    out.extend_from_slice(line.as_bytes())?;
    out.push(b'\n')?;
    Ok(())
}
