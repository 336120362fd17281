//! One line: its answer, the acknowledgement, and the text on its way to the sink.
ghost use Rattle.std.specs.Prelude.{◌≡◌, ◌≤◌, ◌∷◌, ◌++◌, [], false, vec_capacity, IfOk, OnOk};
ghost use Rattle.ut_outside.specs.Faults.{HasCause};
ghost use Rattle.ut_script.specs.Grammar.{parsed};
ghost use Rattle.ut_run.specs.Writing.{Writes};
ghost use Rattle.ut_run.specs.Turning.{Turns, TurnCauses, EndStatus};

use crate::report::{Report, Status};
use crate::say::{Said, say};
use crate::write::write_all;
use std::alloc::{AllocError, Global};
use ut_engine::Engine;
use ut_merge::Build;
use ut_outside::{Ack, AckList, Disk, Failed, Sink};
use ut_reply::SMALL_REPLY;

/// Why a run ends at a line.
#[derive(Clone, Copy, Debug, PartialEq, Eq)]
pub enum TurnEnd {
    Disk,
    Write,
}

/// The text of the reply in hand, what was acknowledged so far, and the length of the journal.
#[derive(Drop)]
pub(crate) struct Replies {
    pub text: Vec<u8>,
    pub acks: AckList,
    pub journal: u32,
    ghost room: { 96 ≤ vec_capacity text },
}

impl Replies {
    pub(crate) fn new(alloc: Global) -> Result<Replies, AllocError>
        ensures { IfOk result (λ r. r.acks.items ≡ []) }
    {
        let text = Vec::with_capacity(alloc, SMALL_REPLY)?;
        Ok(Replies {
            text,
            acks: AckList::new(alloc),
            journal: 0,
        })
    }

    /// Makes room for the acknowledgement of one reply more.
    pub(crate) fn make_room(&mut self) -> Result<(), AllocError>
        ensures ok { OnOk result (1 ≤ self.new.acks.spare) }
        ensures acks { self.new.acks.items ≡ self.old.acks.items }
        ensures journal { self.new.journal ≡ self.old.journal }
    {
        self.acks.make_room()
    }

    /// The store was opened, with a journal of this length.
    pub(crate) fn opened(&mut self, journal: u32)
        ensures acks { self.new.acks.items ≡ self.old.acks.items }
        ensures journal { self.new.journal ≡ journal }
    {
        self.journal = journal;
    }

    /// What the run came to, with so many lines.
    pub(crate) fn report(self, status: Status, lines: u64) -> Report
        ensures { result ≡ record { status = status; lines = lines; acks = self.acks; journal = self.journal } }
    {
        Report {
            status,
            lines,
            acks: self.acks,
            journal: self.journal as u64,
        }
    }

    // Acknowledges the reply in hand, and writes it.
    fn give<K: Sink<D>, D: Disk>(
        &mut self,
        journal: u32,
        engine: &Engine<'_, D>,
        sink: &mut K,
    ) -> Result<(), Failed>
        requires { 1 ≤ self.old.acks.spare }
        ensures acks { self.new.acks.items ≡ self.old.acks.items ++ record { journal = journal; moment = (D.view engine.now.disk).moment } ∷ [] }
        ensures journal { self.new.journal ≡ journal }
        ensures written { Writes (K.held sink.old) (K.moments sink.old) self.old.text.items (D.view engine.now.disk).moment result (K.held sink.new) (K.moments sink.new) }
        ensures cause { HasCause (K.faults sink.old) (K.faults sink.new) result }
    {
        self.acks.add(Ack {
            journal: journal as u64,
            moment: engine.moment(),
        });
        self.journal = journal;
        write_all(sink, engine.disk(), &self.text)
    }
}

/// Answers a line, and writes the answer.
pub(crate) fn turn<K: Sink<D>, D: Disk, B: Build>(
    alloc: Global,
    engine: &mut Engine<'_, D>,
    builder: &B,
    line: &[u8],
    replies: &mut Replies,
    sink: &mut K,
) -> Result<(), TurnEnd>
    requires up { engine.old.store.down ≡ false }
    requires ready { B.ready builder.now }
    requires spare { 1 ≤ replies.old.acks.spare }
    ensures turns { Turns engine.old.store (D.view engine.old.disk) (parsed false line.now) (record { acks = replies.old.acks.items; journal = replies.old.journal }) (record { held = K.held sink.old; marks = K.moments sink.old })
        result engine.new.store (D.view engine.new.disk) (record { acks = replies.new.acks.items; journal = replies.new.journal }) (record { held = K.held sink.new; marks = K.moments sink.new }) }
    ensures causes { TurnCauses (D.view engine.old.disk) (D.view engine.new.disk) (K.faults sink.old) (K.faults sink.new) result }
    ensures loan { engine.new.loan ≡ engine.old.loan }
{
    let before = engine.journal_len();
    replies.text.clear();
    match say(alloc, engine, builder, line, &mut replies.text) {
        Said::Nothing => {
            replies.journal = engine.journal_len();
            Ok(())
        }
        Said::Reply => match replies.give(engine.journal_len(), engine, sink) {
            Ok(()) => Ok(()),
            Err(_) => Err(TurnEnd::Write),
        },
        Said::Fault => match replies.give(before, engine, sink) {
            Ok(()) => Err(TurnEnd::Disk),
            Err(_) => Err(TurnEnd::Write),
        },
    }
}

/// What the program says of a run that ends at a line.
pub(crate) fn status_at(end: TurnEnd) -> Status
    ensures { EndStatus end result }
{
    match end {
        TurnEnd::Disk => Status::DiskFault,
        TurnEnd::Write => Status::WriteFault,
    }
}
