//! Answers lines whose replies aren't written.
ghost use Rattle.std.specs.Prelude.{◌≡◌, ◌≤◌, ◌<◌, ◌-◌, ◌^◌, ◌++◌, ◌∷◌, [], false, None};
ghost use Rattle.ut_script.specs.Grammar.{parsed};
ghost use Rattle.ut_app.specs.Hearing.{Hears, MayHear, noted_by};

use crate::tally::{Heard, Tally, heard_of};
use std::alloc::Global;
use ut_engine::Engine;
use ut_merge::Build;
use ut_outside::{Ack, AckList, Disk};
use ut_plain::Parsed;
use ut_run::{Report, Status};
use ut_script::parse_line;

/// What a run of a script noted so far: how many lines were taken, what was acknowledged, the length of the journal, and what
/// was counted.
#[derive(Drop)]
pub(crate) struct Notes {
    pub lines: u32,
    pub acks: AckList,
    pub journal: u32,
    pub tally: Tally,
}

impl Notes {
    pub(crate) fn new(alloc: Global, journal: u32) -> Notes
        ensures lines { result.lines ≡ 0 }
        ensures acks { result.acks.items ≡ [] }
        ensures journal { result.journal ≡ journal }
        ensures tally { result.tally ≡ record { refused = 0; total = None } }
    {
        Notes {
            lines: 0,
            acks: AckList::new(alloc),
            journal,
            tally: Tally::new(),
        }
    }

    // Notes what was heard of a line: the journal had one length before it, and has another now.
    fn note(&mut self, heard: Heard, was: u32, now: u32, moment: u64)
        requires spare { 1 ≤ self.old.acks.spare }
        requires few { self.old.tally.refused < 2 ^ 32 - 1 }
        ensures noted { record { acks = self.new.acks.items; journal = self.new.journal; tally = self.new.tally } ≡ noted_by heard (record { acks = self.old.acks.items; journal = self.old.journal; tally = self.old.tally }) was now moment }
        ensures lines { self.new.lines ≡ self.old.lines }
    {
        match heard {
            Heard::Nothing => self.journal = now,
            Heard::Fault => self.acknowledge(was, moment),
            _ => {
                self.acknowledge(now, moment);
                self.tally = self.tally.counted(heard);
            }
        }
    }

    fn acknowledge(&mut self, journal: u32, moment: u64)
        requires { 1 ≤ self.old.acks.spare }
        ensures acks { self.new.acks.items ≡ self.old.acks.items ++ record { journal = journal; moment = moment } ∷ [] }
        ensures journal { self.new.journal ≡ journal }
        ensures tally { self.new.tally ≡ self.old.tally }
        ensures lines { self.new.lines ≡ self.old.lines }
    {
        self.acks.add(Ack {
            journal: journal as u64,
            moment,
        });
        self.journal = journal;
    }

    /// What the run came to.
    pub(crate) fn report(self, status: Status) -> Report
        ensures { result ≡ record { status = status; lines = self.lines; acks = self.acks; journal = self.journal } }
    {
        Report {
            status,
            lines: self.lines as u64,
            acks: self.acks,
            journal: self.journal as u64,
        }
    }
}

/// Answers a line, and notes what is heard of the answer.
pub(crate) fn answer_line<D: Disk, B: Build>(
    alloc: Global,
    engine: &mut Engine<'_, D>,
    builder: &B,
    line: &[u8],
    notes: &mut Notes,
) -> Heard
    requires up { engine.old.store.down ≡ false }
    requires ready { B.ready builder.now }
    requires spare { 1 ≤ notes.old.acks.spare }
    requires few { notes.old.tally.refused < 2 ^ 32 - 1 }
    ensures hears { Hears engine.old.store (D.view engine.old.disk) (parsed false line.now) result engine.new.store (D.view engine.new.disk) }
    ensures noted { record { acks = notes.new.acks.items; journal = notes.new.journal; tally = notes.new.tally } ≡ noted_by result (record { acks = notes.old.acks.items; journal = notes.old.journal; tally = notes.old.tally }) engine.old.store.store.counts.entries engine.new.store.store.counts.entries (D.view engine.new.disk).moment }
    ensures lines { notes.new.lines ≡ notes.old.lines }
    ensures cause { MayHear (D.view engine.old.disk) (D.view engine.new.disk) result }
    ensures loan { engine.new.loan ≡ engine.old.loan }
{
    let before = engine.journal_len();
    let heard = hear(alloc, engine, builder, line);
    notes.note(heard, before, engine.journal_len(), engine.moment());
    heard
}

fn hear<D: Disk, B: Build>(
    alloc: Global,
    engine: &mut Engine<'_, D>,
    builder: &B,
    line: &[u8],
) -> Heard
    requires up { engine.old.store.down ≡ false }
    requires ready { B.ready builder.now }
    ensures hears { Hears engine.old.store (D.view engine.old.disk) (parsed false line.now) result engine.new.store (D.view engine.new.disk) }
    ensures cause { MayHear (D.view engine.old.disk) (D.view engine.new.disk) result }
    ensures loan { engine.new.loan ≡ engine.old.loan }
{
    match parse_line(alloc, line, false) {
        Ok(Parsed::Comment) => Heard::Nothing,
        Ok(Parsed::Stranger) => Heard::Refusal,
        Ok(Parsed::Bad(_)) => Heard::Refusal,
        Ok(Parsed::Good(session, st)) => heard_of(&engine.answer(alloc, builder, session, st)),
        Err(_lacks) => Heard::Refusal,
    }
}
