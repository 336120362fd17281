//! The lines of a run, each in its session's queue; those of strangers are answered at once.
ghost use Rattle.std.specs.Prelude.{◌≡◌, true, IfOk};
ghost use Rattle.ut_script.specs.Grammar.{parsed};
ghost use Rattle.ut_crowd.specs.Sorting.{whose_of, Sorted};

use crate::book::{Asked, Turn};
use crate::queues::{Queue, enqueue, seats};
use std::alloc::{AllocError, Global};
use std::collections::VecDeque;
use ut_plain::{Parsed, Refusal, Reply};
use ut_script::parse_line;
use ut_value::Seq;

/// Whose a line is.
#[derive(Clone, Copy, Debug, PartialEq, Eq)]
pub enum Whose {
    /// A comment, which is left out.
    Nothing,
    /// Its session can't be read.
    Nobodys,
    Of(u8),
}

/// Puts each line into its session's queue, and answers those of strangers.
pub(crate) fn sort(
    alloc: Global,
    lines: VecDeque<Seq<u8>>,
    journal: u32,
    moment: u64,
) -> Result<(Vec<Queue>, Vec<Turn>), AllocError>
    ensures { IfOk result (λ r. Sorted lines.items r.0.items r.1.items journal moment) }
{
    let mut queues = seats(alloc)?;
    let mut book = Vec::new(alloc);
    let mut rest = lines;
    while let Some(line) = rest.pop_front() {
        match owner(alloc, line.as_slice()) {
            Whose::Nothing => {}
            Whose::Nobodys => book.push(Turn {
                session: None,
                asked: Asked::Line(line),
                reply: Reply::Refused(Refusal::Syntax),
                journal,
                moment,
            })?,
            Whose::Of(session) => enqueue(&mut queues, session, line)?,
        }
    }
    Ok((queues, book))
}

// Whose a line is.
fn owner(alloc: Global, line: &[u8]) -> Whose
    ensures { result ≡ whose_of (parsed true line.now) }
{
    match parse_line(alloc, line, true) {
        Ok(parsed) => {
            let whose = owner_of(&parsed);
            drop(parsed);
            whose
        }
        Err(lacks) => Whose::Of(lacks.session),
    }
}

fn owner_of(line: &Parsed) -> Whose
    ensures { result ≡ whose_of line.now }
{
    match line {
        Parsed::Comment => Whose::Nothing,
        Parsed::Stranger => Whose::Nobodys,
        Parsed::Bad(session) => Whose::Of(*session),
        Parsed::Good(session, _) => Whose::Of(*session),
    }
}
