//! Where two outputs part.
ghost use Rattle.std.specs.Prelude.{◌≡◌, ◌↔◌, IfOk, IsNone};
ghost use Rattle.ut_run.specs.declared.report.Status.TheVariants.{Done};

use crate::told::Script;
use check_run::run::Ran;
use check_run::verdict::has_told;
use std::alloc::{AllocError, Global};
use ut_app::Status;

/// A line of a script, and the first lines of the two outputs that differ.
pub(crate) struct Apart {
    pub line: String,
    pub wanted: String,
    pub told: String,
}

// One step of a proof, wherever one is dropped.
impl Drop for Apart {
    fn drop(self) {
        let Apart {
            line: _,
            wanted: _,
            told: _,
        } = self;
    }
}

impl Apart {
    /// The same, with a line that says more.
    pub fn at_line(self, line: String) -> Apart {
        let Apart {
            line: _,
            wanted,
            told,
        } = self;
        Apart { line, wanted, told }
    }
}

/// Where a run's output parts from what the slow store answers, if it does, or if the run didn't end well.
pub(crate) fn apart_from(
    alloc: Global,
    script: &Script,
    ran: &Ran,
) -> Result<Option<Apart>, AllocError>
    ensures same { IfOk result (λ apart. IsNone apart ↔ (ran.now.status ≡ Done) × (ran.now.replies.items ≡ script.now.replies.items)) }
{
    if has_told(
        ran.status,
        ran.replies.as_slice(),
        script.replies.as_slice(),
    ) {
        return Ok(None);
    }
    Ok(Some(place_of(alloc, script, ran)?))
}

fn place_of(alloc: Global, script: &Script, ran: &Ran) -> Result<Apart, AllocError> {
    let place = alike(&script.replies, &ran.replies);
    let number = lines_before(&script.ends, place);
    let wanted = text(alloc, line_at(&script.replies, place))?;
    let line = numbered(alloc, number, nth_line(&script.lines, number))?;
    let told = ended(alloc, line_at(&ran.replies, place), ran.status)?;
    Ok(Apart { line, wanted, told })
}

// How many lines end before a place of the replies.
fn lines_before(ends: &[usize], place: usize) -> usize {
    ends.iter().take_while(|end| **end <= place).count()
}

fn numbered(alloc: Global, number: usize, bytes: &[u8]) -> Result<String, AllocError> {
    let line = text(alloc, bytes)?;
    format!(in alloc; "line {number}: {line}")
}

fn ended(alloc: Global, bytes: &[u8], status: Status) -> Result<String, AllocError> {
    let told = text(alloc, bytes)?;
    format!(in alloc; "{told} (it ended with {status:?})")
}

// So many bytes are the same.
fn alike(one: &[u8], other: &[u8]) -> usize {
    one.iter().zip(other).take_while(|(x, y)| x == y).count()
}

fn nth_line(lines: &[u8], number: usize) -> &[u8] {
    lines
        .split(|byte| *byte == b'\n')
        .nth(number)
        .unwrap_or(b"")
}

// The line that a place stands in.
fn line_at(bytes: &[u8], place: usize) -> &[u8] {
    let before = &bytes[..place.min(bytes.len())];
    let start = before.iter().filter(|byte| **byte == b'\n').count();
    nth_line(bytes, start)
}

fn text(alloc: Global, bytes: &[u8]) -> Result<String, AllocError> {
    let mut text = String::new(alloc);
    for byte in bytes {
        text.push(char::from(*byte))?;
    }
    Ok(text)
}
