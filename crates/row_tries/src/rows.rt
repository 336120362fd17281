//! Rows on a program, and what they try.
ghost use Rattle.std.specs.Prelude.{◌≡◌, ◌↔◌, IsTrue};

use crate::files::patched;
use crate::scene::Scene;
use crate::tries::{Trouble, tried};
use check_run::run::{Ran, copy_of};
use row_files::{Patch, Row};
use std::alloc::{AllocError, Global};
use std::sync::Wait;
use std::thread::Threads;
use ut_app::Status;
use ut_outside::{MemDisk, Which};

/// What a row comes to.
#[derive(Drop)]
pub enum Found {
    Right,
    /// A file that is changed before it hasn't the place of the change.
    NoSuchPlace,
    /// It is told something else.
    Told(Vec<u8>),
    /// What a line of the file tries isn't as it must be.
    Tried { line: usize, trouble: Trouble },
}

/// Runs a row on a disk, and tries what it says.
pub fn check_row(
    rt: &(impl Threads + Wait + Sync),
    alloc: Global,
    row: &Row<'_>,
    disk: &mut MemDisk,
) -> Result<Found, AllocError> {
    if !all_patched(alloc, disk, row.patches.as_slice())? {
        return Ok(Found::NoSuchPlace);
    }
    let lines = Lines::of(alloc, row)?;
    checked_calls(rt, alloc, row, &lines, disk)
}

// Changes the files, if the places of the changes are there.
fn all_patched(
    alloc: Global,
    disk: &mut MemDisk,
    patches: &[Patch<'_>],
) -> Result<bool, AllocError> {
    for patch in patches {
        match patched(alloc, disk, *patch)? {
            Some(other) => *disk = other,
            None => return Ok(false),
        }
    }
    Ok(true)
}

/// The script of a row and its question, as they are read.
#[derive(Drop)]
struct Lines {
    script: Vec<u8>,
    question: Vec<u8>,
}

impl Lines {
    fn of(alloc: Global, row: &Row<'_>) -> Result<Lines, AllocError> {
        Ok(Lines {
            script: joined(alloc, script_of(row))?,
            question: joined(alloc, row.question.as_slice())?,
        })
    }
}

// The lines of a script. One of a line that is empty has none.
fn script_of<'r, 'a>(row: &'r Row<'a>) -> &'r [&'a str] {
    match row.asked.as_slice() {
        [one] if one.is_empty() => &[],
        lines => lines,
    }
}

fn joined(alloc: Global, lines: &[&str]) -> Result<Vec<u8>, AllocError> {
    let mut joined = Vec::new(alloc);
    for line in lines {
        joined.extend_from_slice(line.as_bytes())?;
        joined.push(b'\n')?;
    }
    Ok(joined)
}

// Runs a row with its words, or with each of its words on a disk of its own, of which the last is left.
fn checked_calls(
    rt: &(impl Threads + Wait + Sync),
    alloc: Global,
    row: &Row<'_>,
    lines: &Lines,
    disk: &mut MemDisk,
) -> Result<Found, AllocError> {
    let before = copy_of(alloc, disk)?;
    if row.calls.is_empty() {
        checked_usual(rt, alloc, row, lines, &before, disk)
    } else {
        checked_each(rt, alloc, row, lines, &before, disk)
    }
}

fn checked_each(
    rt: &(impl Threads + Wait + Sync),
    alloc: Global,
    row: &Row<'_>,
    lines: &Lines,
    before: &MemDisk,
    disk: &mut MemDisk,
) -> Result<Found, AllocError> {
    for call in &row.calls {
        *disk = copy_of(alloc, before)?;
        let found = checked_call(rt, alloc, row, lines, call, before, disk)?;
        if !matches!(found, Found::Right) {
            return Ok(found);
        }
    }
    Ok(Found::Right)
}

fn checked_usual(
    rt: &(impl Threads + Wait + Sync),
    alloc: Global,
    row: &Row<'_>,
    lines: &Lines,
    before: &MemDisk,
    disk: &mut MemDisk,
) -> Result<Found, AllocError> {
    let words = usual_words(alloc, row)?;
    checked(
        rt,
        alloc,
        scene_of(row, lines, words.as_slice(), before),
        disk,
    )
}

fn checked_call(
    rt: &(impl Threads + Wait + Sync),
    alloc: Global,
    row: &Row<'_>,
    lines: &Lines,
    call: &str,
    before: &MemDisk,
    disk: &mut MemDisk,
) -> Result<Found, AllocError> {
    let words = words_in(alloc, call)?;
    checked(
        rt,
        alloc,
        scene_of(row, lines, words.as_slice(), before),
        disk,
    )
}

fn scene_of<'r, 'a>(
    row: &'r Row<'a>,
    lines: &'r Lines,
    words: &'r [&'r str],
    before: &'r MemDisk,
) -> Scene<'r, 'a> {
    Scene {
        row,
        words,
        script: lines.script.as_slice(),
        question: lines.question.as_slice(),
        before,
    }
}

// The words that make a store, or open the one that is there.
fn usual_words<'a>(alloc: Global, row: &Row<'a>) -> Result<Vec<&'a str>, AllocError> {
    let mut words = Vec::new(alloc);
    words.push("ut")?;
    words.push("run")?;
    if row.behind.is_none() {
        words.push("--new")?;
    }
    if let Some(ids) = row.ids {
        words.push("--rows")?;
        words.push(ids.word)?;
    }
    Ok(words)
}

// The words of a call, with a blank between them. Two quotes are the empty word.
fn words_in<'a>(alloc: Global, call: &'a str) -> Result<Vec<&'a str>, AllocError> {
    let mut words = Vec::new(alloc);
    if call.is_empty() {
        return Ok(words);
    }
    for word in call.split(' ') {
        words.push(if word == "''" { "" } else { word })?;
    }
    Ok(words)
}

// Runs a row on a disk, and tries what it says.
fn checked(
    rt: &(impl Threads + Wait + Sync),
    alloc: Global,
    scene: Scene<'_, '_>,
    disk: &mut MemDisk,
) -> Result<Found, AllocError> {
    let ran = scene.run_on(rt, alloc, disk)?;
    let told = told_in(alloc, &ran, are_alike(scene.before, disk))?;
    if !is_right(told.as_slice(), scene.row.answers.as_slice()) {
        return Ok(Found::Told(told));
    }
    all_tried(rt, alloc, scene, &ran, disk)
}

/// Whether what was told is what has to be.
fn is_right(told: &[u8], wanted: &[u8]) -> bool
    ensures { IsTrue result ↔ told.now ≡ wanted.now }
{
    told == wanted
}

fn all_tried(
    rt: &(impl Threads + Wait + Sync),
    alloc: Global,
    scene: Scene<'_, '_>,
    ran: &Ran,
    disk: &MemDisk,
) -> Result<Found, AllocError> {
    let acks = ran.acks.as_slice();
    for it in &scene.row.tries {
        if let Some(trouble) = tried(rt, alloc, scene, acks, disk, it.one)? {
            let line = it.line;
            return Ok(Found::Tried { line, trouble });
        }
    }
    Ok(Found::Right)
}

fn are_alike(one: &MemDisk, other: &MemDisk) -> bool {
    one.bytes(Which::Redo) == other.bytes(Which::Redo)
        && one.bytes(Which::Redo2) == other.bytes(Which::Redo2)
        && one.bytes(Which::Pages) == other.bytes(Which::Pages)
}

// What a run replies. Where it doesn't end with Done a line says how it ends, and where it has no store to answer, but changes the
// files, another one says so.
fn told_in(alloc: Global, ran: &Ran, is_kept: bool) -> Result<Vec<u8>, AllocError> {
    let mut told = Vec::from_slice(alloc, ran.replies.as_slice())?;
    let status = ran.status;
    if status != Status::Done {
        let line = format!(in alloc; "status {status:?}\n")?;
        told.extend_from_slice(line.as_bytes())?;
    }
    if has_no_store(status) && !is_kept {
        told.extend_from_slice(b"and the files changed\n")?;
    }
    Ok(told)
}

// Whether a run ends so before its first line, where it leaves the files as they are.
fn has_no_store(status: Status) -> bool {
    matches!(
        status,
        Status::Usage | Status::NoStore | Status::Exists | Status::Damaged
    )
}
