//! What a line is answered.
ghost use Rattle.std.specs.Prelude.{◌≡◌, ◌<◌, ◌≤◌, [], Some, IsTrue, false, vec_capacity};
ghost use Rattle.ut_script.specs.Grammar.{parsed};
ghost use Rattle.ut_reply.specs.Texts.{reply_text};
ghost use Rattle.ut_run.specs.Saying.{Says, IsText, MayFault, said_of};

use std::alloc::Global;
use ut_engine::Engine;
use ut_merge::Build;
use ut_outside::Disk;
use ut_plain::{Parsed, Refusal, Reply};
use ut_reply::{put_reply, put_small};
use ut_script::parse_line;

/// What a line comes to: nothing, a reply, or the reply that the disk failed.
#[derive(Clone, Copy, Debug, PartialEq, Eq)]
pub enum Said {
    Nothing,
    Reply,
    Fault,
}

/// Answers a line, and puts the text of the answer into an empty buffer.
pub(crate) fn say<D: Disk, B: Build>(
    alloc: Global,
    engine: &mut Engine<'_, D>,
    builder: &B,
    line: &[u8],
    text: &mut Vec<u8>,
) -> Said
    requires up { engine.old.store.down ≡ false }
    requires ready { B.ready builder.now }
    requires empty { text.old.items ≡ [] }
    requires room { 96 ≤ vec_capacity text.old }
    ensures says { Says engine.old.store (D.view engine.old.disk) (parsed false line.now) result engine.new.store (D.view engine.new.disk) text.new.items }
    ensures room { 96 ≤ vec_capacity text.new }
    ensures cause { MayFault (D.view engine.old.disk) (D.view engine.new.disk) result }
    ensures loan { engine.new.loan ≡ engine.old.loan }
{
    match parse_line(alloc, line, false) {
        Ok(Parsed::Comment) => Said::Nothing,
        Ok(Parsed::Stranger) => refuse(text, None, Refusal::Syntax),
        Ok(Parsed::Bad(session)) => refuse(text, Some(session), Refusal::Syntax),
        Ok(Parsed::Good(session, st)) => {
            let reply = engine.answer(alloc, builder, session, st);
            put_text(text, session, &reply);
            said_of(&reply)
        }
        Err(lacks) => refuse(text, Some(lacks.session), Refusal::Memory),
    }
}

// Puts a refusal into an empty buffer.
fn refuse(text: &mut Vec<u8>, session: Option<u8>, why: Refusal) -> Said
    requires empty { text.old.items ≡ [] }
    requires room { 96 ≤ vec_capacity text.old }
    ensures text { text.new.items ≡ reply_text session (Reply.Refused why) }
    ensures said { result ≡ Said.Reply }
    ensures room { 96 ≤ vec_capacity text.new }
{
    put_small(text, session, &Reply::Refused(why));
    Said::Reply
}

// Puts a reply into an empty buffer, and where a long one finds no memory, that it was refused.
fn put_text(text: &mut Vec<u8>, session: u8, reply: &Reply)
    requires empty { text.old.items ≡ [] }
    requires room { 96 ≤ vec_capacity text.old }
    ensures text { IsText (vec_capacity text.old) session reply.now text.new.items }
    ensures room { 96 ≤ vec_capacity text.new }
{
    match put_reply(text, Some(session), reply) {
        Ok(()) => {}
        Err(_) => {
            text.clear();
            put_small(text, Some(session), &Reply::Refused(Refusal::Memory));
        }
    }
}

fn said_of(reply: &Reply) -> Said
    ensures { result ≡ said_of reply.now }
{
    match reply {
        Reply::DiskFault => Said::Fault,
        _ => Said::Reply,
    }
}
