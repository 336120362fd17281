//! The next line, or why the run ends before it.
ghost use Rattle.std.specs.Prelude.{◌≡◌, ◌≤◌, [], None, true, Ok, IfOk, IfErr, OnOk};
ghost use Rattle.ut_script.specs.Lines.{NextLine, StepsLine, AsksFew, Counts};
ghost use Rattle.ut_run.specs.Input.{NoLine, GoesOn};

use crate::report::Status;
use crate::turn::Replies;
use std::alloc::{AllocError, Global};
use ut_outside::{Source, Taken};
use ut_script::{LineError, Lines};

/// A reader of a script's lines, of so many at most.
pub(crate) fn script_lines(alloc: Global, limit: u32) -> Result<Lines, AllocError>
    ensures { IfOk result (λ lines. lines ≡ record { held = []; line = []; number = 0; limit = limit; failed = None }) }
{
    Lines::new(alloc, limit)
}

/// Makes room for one reply more and reads the next line, or says why the run ends.
pub(crate) fn next_line<S: Source<K>, K: Taken>(
    replies: &mut Replies,
    lines: &mut Lines,
    source: &mut S,
    sink: &K,
) -> Result<(), Status>
    requires { lines.old.failed ≡ None }
    ensures room { OnOk result (1 ≤ replies.new.acks.spare) }
    ensures line { OnOk result (NextLine lines.old (S.left source.old) (Ok true) lines.new (S.left source.new)) }
    ensures steps { OnOk result (StepsLine lines.old (S.left source.old) lines.new (S.left source.new)) }
    ensures asks { AsksFew lines.old (S.left source.old) (K.held sink.now) (S.asks source.old) (S.asks source.new) }
    ensures counts { OnOk result (Counts lines.old (Ok true) lines.new) }
    ensures ends { IfErr result (λ status. NoLine status lines.old (S.left source.old) (S.faults source.old) lines.new (S.left source.new) (S.faults source.new)) }
    ensures later { S.faults source.old ≤ S.faults source.new }
    ensures still { OnOk result (S.faults source.new ≡ S.faults source.old) }
    ensures acks { replies.new.acks.items ≡ replies.old.acks.items }
    ensures journal { replies.new.journal ≡ replies.old.journal }
{
    match replies.make_room() {
        Ok(()) => {}
        Err(_) => return Err(Status::Memory),
    }
    outcome(lines.advance(source, sink))
}

// What an answer of the reader says of the run.
fn outcome(read: Result<bool, LineError>) -> Result<(), Status>
    ensures { GoesOn read result }
{
    match read {
        Ok(true) => Ok(()),
        Ok(false) => Err(Status::Done),
        Err(LineError::Read) => Err(Status::ReadFault),
        Err(LineError::TooLong) => Err(Status::TooLong),
    }
}
