//! What a line of a session is answered, and a statement of the store itself.
ghost use Rattle.std.specs.Prelude.{◌≡◌, ◌<◌, ◌≤◌, true, false, Some, IsTrue};
ghost use Rattle.ut_plain.specs.declared.statement.Statement.TheVariants as statements;
ghost use Rattle.ut_plain.specs.Laws.{is_spelled_line};
ghost use Rattle.ut_plain.specs.Spelled.{is_spelled};
ghost use Rattle.ut_store.specs.Jobs.{pending_job};
ghost use Rattle.ut_store.specs.Standing.{is_of_store};
ghost use Rattle.ut_engine.specs.Merging.{EndsMerge};
ghost use Rattle.ut_script.specs.Grammar.{parsed};
ghost use Rattle.ut_course.specs.Coming.{Comes, is_of, session_in, length_after};

use std::alloc::Global;
use ut_engine::{Engine, NoBuilder, end_reply};
use ut_merge::Built;
use ut_outside::Disk;
use ut_plain::{Parsed, Refusal, Reply, Statement};
use ut_script::parse_line;
use ut_value::OPERATOR;

/// What a line of a session is answered. No line is one of the store.
pub fn answer_line<D: Disk>(
    alloc: Global,
    engine: &mut Engine<'_, D>,
    session: u8,
    line: &[u8],
) -> Reply
    requires up { engine.old.store.down ≡ false }
    requires own { IsTrue (is_of session (session_in (parsed true line.now))) }
    ensures comes { Comes engine.old.store (D.view engine.old.disk) (parsed true line.now) (Some session) result engine.new.store (D.view engine.new.disk) }
    ensures loan { engine.new.loan ≡ engine.old.loan }
{
    match parse_line(alloc, line, true) {
        Ok(parsed) => answer_parsed(alloc, engine, session, parsed),
        Err(_) => Reply::Refused(Refusal::Memory),
    }
}

fn answer_parsed<D: Disk>(
    alloc: Global,
    engine: &mut Engine<'_, D>,
    session: u8,
    line: Parsed,
) -> Reply
    requires up { engine.old.store.down ≡ false }
    requires seat { (1 ≤ session) × (session < 17) }
    requires own { IsTrue (is_of session (session_in line)) }
    requires spelled { IsTrue (is_spelled_line line) }
    ensures comes { Comes engine.old.store (D.view engine.old.disk) line (Some session) result engine.new.store (D.view engine.new.disk) }
    ensures loan { engine.new.loan ≡ engine.old.loan }
{
    match line {
        Parsed::Good(_, st) => engine.answer(alloc, &NoBuilder, session, st),
        Parsed::Comment => Reply::Refused(Refusal::Syntax),
        Parsed::Stranger => Reply::Refused(Refusal::Syntax),
        Parsed::Bad(_) => Reply::Refused(Refusal::Syntax),
    }
}

/// What a statement of the store is answered.
pub fn answer_statement<D: Disk>(alloc: Global, engine: &mut Engine<'_, D>, st: &Statement) -> Reply
    requires up { engine.old.store.down ≡ false }
    requires stores { IsTrue (is_of_store st.now) }
    requires spelled { IsTrue (is_spelled st.now) }
    ensures comes { Comes engine.old.store (D.view engine.old.disk) (Parsed.Good 0 st.now) (Some 0) result engine.new.store (D.view engine.new.disk) }
    ensures loan { engine.new.loan ≡ engine.old.loan }
{
    engine.statement(alloc, OPERATOR, st)
}

/// What the end of the pending merge is answered, with what was built of its job. It takes no memory.
pub fn end_merge<D: Disk>(engine: &mut Engine<'_, D>, built: Built) -> Reply
    requires up { engine.old.store.down ≡ false }
    requires built { pending_job engine.old.store.store ≡ Some built }
    ensures comes { Comes engine.old.store (D.view engine.old.disk) (Parsed.Good 0 statements.MergeEnd) (Some 0) result engine.new.store (D.view engine.new.disk) }
    // Its number, or that the disk failed: nothing else is wanting.
    ensures ends { EndsMerge engine.old.store.store.counts.pending result }
    ensures loan { engine.new.loan ≡ engine.old.loan }
{
    end_reply(engine.merge_end(built))
}

/// The length of the journal that an acknowledgement carries: that before the line where the disk failed.
pub fn length_after(reply: &Reply, before: u32, after: u32) -> u32
    ensures { result ≡ length_after reply.now before after }
{
    match reply {
        Reply::DiskFault => before,
        _ => after,
    }
}
