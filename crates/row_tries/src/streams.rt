//! Sources that give a row's script in pieces, comments behind it, and streams that fail.
use crate::scene::Scene;
use crate::tries::Trouble;
use check_run::run::{Ran, run_between};
use row_files::Row;
use std::alloc::{AllocError, Global};
use std::sync::Wait;
use std::thread::Threads;
use ut_app::Status;
use ut_outside::{Ask, MemSink, MemSource};

/// The script and the script without its last line end, given in pieces of so many bytes: the answers are the same, and each is given
/// before more is asked for.
pub(crate) fn in_pieces(
    rt: &(impl Threads + Wait + Sync),
    alloc: Global,
    scene: Scene<'_, '_>,
    len: usize,
) -> Result<Option<Trouble>, AllocError> {
    if let Some(trouble) = given_in(rt, alloc, scene, scene.script, len)? {
        return Ok(Some(trouble));
    }
    let unended = scene.script.strip_suffix(b"\n").unwrap_or(b"");
    given_in(rt, alloc, scene, unended, len)
}

fn given_in(
    rt: &(impl Threads + Wait + Sync),
    alloc: Global,
    scene: Scene<'_, '_>,
    script: &[u8],
    len: usize,
) -> Result<Option<Trouble>, AllocError> {
    if len == 0 {
        return Ok(Some(Trouble::at(0)));
    }
    let mut source = MemSource::new(alloc, script, len, None)?;
    given_by(rt, alloc, scene, script, len, &mut source)
}

fn given_by(
    rt: &(impl Threads + Wait + Sync),
    alloc: Global,
    scene: Scene<'_, '_>,
    script: &[u8],
    len: usize,
    source: &mut MemSource,
) -> Result<Option<Trouble>, AllocError> {
    let ran = run_from(rt, alloc, scene, source)?;
    let is_told = ends(scene.row, &ran, Status::Done);
    if is_told
        && source
            .asks()
            .iter()
            .all(|ask| is_in_time(scene.row, script, ask))
    {
        return Ok(None);
    }
    Ok(Some(Trouble::of(len as u64, &ran)))
}

// Whether a run ended so, with all answers of the row.
fn ends(row: &Row<'_>, ran: &Ran, end: Status) -> bool {
    ran.status == end && ran.replies.as_slice() == row.answers.as_slice()
}

// Whether the sink had taken the answers to the lines that were given, where a source was asked. A last line without its end is
// answered once the source has said that nothing follows.
fn is_in_time(row: &Row<'_>, script: &[u8], ask: &Ask) -> bool {
    let given = script.len().saturating_sub(ask.left as usize);
    let lines = script
        .iter()
        .take(given)
        .filter(|byte| **byte == b'\n')
        .count();
    let taken = row.starts.get(lines).copied().unwrap_or(row.answers.len());
    let is_all = ask.taken == row.answers.len() as u64;
    ask.taken == taken as u64 || (is_all && ask.left == 0)
}

fn run_from(
    rt: &(impl Threads + Wait + Sync),
    alloc: Global,
    scene: Scene<'_, '_>,
    source: &mut MemSource,
) -> Result<Ran, AllocError> {
    let mut disk = scene.disk(alloc)?;
    let sink = MemSink::new(alloc, None);
    run_between(rt, alloc, scene.words, source, sink, &mut disk)
}

/// A source that gives a byte at a time, and fails at each call: what is told is a front.
pub(crate) fn each_unread(
    rt: &(impl Threads + Wait + Sync),
    alloc: Global,
    scene: Scene<'_, '_>,
) -> Result<Option<Trouble>, AllocError> {
    for call in 0..=scene.script.len() {
        if let Some(trouble) = unread(rt, alloc, scene, call as u64)? {
            return Ok(Some(trouble));
        }
    }
    Ok(None)
}

fn unread(
    rt: &(impl Threads + Wait + Sync),
    alloc: Global,
    scene: Scene<'_, '_>,
    call: u64,
) -> Result<Option<Trouble>, AllocError> {
    let mut source = MemSource::new(alloc, scene.script, 1, Some(call))?;
    let ran = run_from(rt, alloc, scene, &mut source)?;
    if ran.status == Status::ReadFault && scene.row.answers.starts_with(&ran.replies) {
        return Ok(None);
    }
    Ok(Some(Trouble::of(call, &ran)))
}

/// A sink whose call of a number fails: the answers before it are told, and so many replies had begun.
pub(crate) fn unwritten(
    rt: &(impl Threads + Wait + Sync),
    alloc: Global,
    scene: Scene<'_, '_>,
    call: u64,
    replies: usize,
) -> Result<Option<Trouble>, AllocError> {
    let ran = run_unwritten(rt, alloc, scene, call)?;
    if ran.status == Status::WriteFault
        && is_front(scene.row, &ran, call)
        && ran.acks.len() == replies
    {
        return Ok(None);
    }
    Ok(Some(Trouble::of(call, &ran)))
}

fn run_unwritten(
    rt: &(impl Threads + Wait + Sync),
    alloc: Global,
    scene: Scene<'_, '_>,
    call: u64,
) -> Result<Ran, AllocError> {
    let mut disk = scene.disk(alloc)?;
    scene.run_into(rt, alloc, MemSink::new(alloc, Some(call)), &mut disk)
}

// Whether what was told are the answers to so many lines.
fn is_front(row: &Row<'_>, ran: &Ran, lines: u64) -> bool {
    let told = ran.replies.as_slice();
    match row.starts.get(lines as usize) {
        Some(start) => told.len() == *start && row.answers.starts_with(told),
        None => false,
    }
}

/// A comment of so many bytes behind the script: the answers are the same, and the run ends so.
pub(crate) fn commented(
    rt: &(impl Threads + Wait + Sync),
    alloc: Global,
    scene: Scene<'_, '_>,
    len: usize,
    end: Status,
) -> Result<Option<Trouble>, AllocError> {
    let script = with_comment(alloc, scene.script, len)?;
    let ran = ran_with(rt, alloc, scene, &script)?;
    if ends(scene.row, &ran, end) {
        return Ok(None);
    }
    Ok(Some(Trouble::of(len as u64, &ran)))
}

fn with_comment(alloc: Global, script: &[u8], len: usize) -> Result<Vec<u8>, AllocError> {
    let mut commented = Vec::from_slice(alloc, script)?;
    commented.resize(script.len().saturating_add(len), b'#')?;
    Ok(commented)
}

fn ran_with(
    rt: &(impl Threads + Wait + Sync),
    alloc: Global,
    scene: Scene<'_, '_>,
    script: &[u8],
) -> Result<Ran, AllocError> {
    let mut disk = scene.disk(alloc)?;
    let other = Scene { script, ..scene };
    other.run_on(rt, alloc, &mut disk)
}
