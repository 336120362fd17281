//! What a crowd shares: the store, the lines that are left, and the book.
ghost use Rattle.std.specs.Prelude.{◌≡◌, ◌≤◌, ◌∷◌, ◌++◌, [], false, None, Some, IsTrue, IfOk, IfErr};
ghost use Rattle.ut_plain.specs.Plain.{Plain};
ghost use Rattle.ut_plain.specs.declared.statement.Parsed.TheVariants.{Good};
ghost use Rattle.ut_plain.specs.Spelled.{is_spelled};
ghost use Rattle.ut_store.specs.Standing.{is_of_store};
ghost use Rattle.ut_engine.specs.Runs.{Runs};
ghost use Rattle.ut_gate.specs.Turns.{AddsOne};
ghost use Rattle.ut_course.specs.Coming.{is_of_merge, length_after};
ghost use Rattle.ut_crowd.specs.declared.book.Asked.TheVariants as asks;
ghost use Rattle.ut_crowd.specs.Asking.{StoreAsks, begun_by, is_refusal};
ghost use Rattle.ut_crowd.specs.Keepers.{AsksOnce, IsDated, kept_after, woken};
ghost use Rattle.ut_crowd.specs.Standing.{StandsOn, Starts};
ghost use Rattle.ut_crowd.specs.Queues.{IsOver};

use crate::book::{Asked, Begun, Turn};
use crate::queues::{Queue, waiting};
use crate::sort::sort;
use std::alloc::Global;
use std::collections::VecDeque;
use std::marker::{Brand, PhantomData};
use ut_course::{answer_statement, length_after};
use ut_crew::Kept;
use ut_engine::Engine;
use ut_gate::{Back, Held};
use ut_merge::Job;
use ut_outside::Disk;
use ut_plain::{Reply, Statement};
use ut_value::Seq;

/// Names the ground of one run. It has no calls, and its types have no bytes.
pub trait Opening {
    ghost use Rattle.ut_crowd.specs.Ground.{Ground};

    ghost ground: { Ground };
}

impl Opening for Brand {
    ghost use Rattle.ut_crowd.specs.Ground.{no_ground};

    ghost ground = { no_ground };
}

/// A store that sessions share: their lines that are left, by session, and the book of those that were answered.
#[derive(Drop)]
pub struct Hall<'d, D: Disk, O: Opening> {
    pub(crate) alloc: Global,
    pub engine: Engine<'d, D>,
    pub(crate) queues: Vec<Queue>,
    pub book: Vec<Turn>,
    /// So many rows of a stage at least are merged.
    pub(crate) l1: u32,
    /// A share of the job that a merger builds.
    pub(crate) job: Option<Job>,
    pub(crate) last: Begun,
    /// Whether a savepoint waits for the end of the merge that is pending.
    pub(crate) save_waits: bool,
    /// There was no memory for a turn.
    pub(crate) stopped: bool,
    pub(crate) of: PhantomData<O>,
}

impl<'d, D: Disk + Send, O: Opening + Send> Held for Hall<'d, D, O> {
    ghost use Rattle.ut_crowd.specs.Standing.{StandsOn};

    type Job = Job;

    type Entry = Turn;

    ghost Ground = { Unit {0} };

    ghost ground = { tt };

    ghost stands_on = { λ _ h. StandsOn O.ground h.queues.items h.book.items h.engine.loan (D.view h.engine.disk) h.engine.store h.job h.l1 h.last };

    ghost book = { λ h. h.book.items };

    ghost job = { λ h. h.job };
}

/// A hall in which nothing was answered yet but the lines of strangers. Where there is no memory the store is handed back.
pub fn hall_of<'d, D: Disk, O: Opening>(
    alloc: Global,
    engine: Engine<'d, D>,
    lines: VecDeque<Seq<u8>>,
    l1: u32,
) -> Result<Hall<'d, D, O>, Back<Engine<'d, D>>>
    requires starts { Starts O.ground lines.items engine.loan (D.view engine.disk) engine.store l1 }
    ensures stands { IfOk result (λ h. StandsOn O.ground h.queues.items h.book.items h.engine.loan (D.view h.engine.disk) h.engine.store h.job h.l1 h.last) }
    ensures job { IfOk result (λ h. h.job ≡ None) }
    ensures fresh { IfOk result (λ h. (h.stopped ≡ false) × (h.save_waits ≡ false)) }
    ensures engine { IfOk result (λ h. h.engine ≡ engine.entry) }
    ensures err { IfErr result (λ b. b.value ≡ engine.entry) }
{
    let journal = engine.journal_len();
    let Ok((queues, book)) = sort(alloc, lines, journal, engine.moment()) else {
        return Err(Back { value: engine });
    };
    Ok(Hall {
        alloc,
        engine,
        queues,
        book,
        l1,
        job: None,
        last: Begun {
            entries: journal,
            pages: 0,
        },
        save_waits: false,
        stopped: false,
        of: PhantomData,
    })
}

impl<'d, D: Disk, O: Opening> Hall<'d, D, O> {
    /// Whether it was stopped, the disk failed, or all lines were answered.
    pub(crate) fn is_over(&self) -> bool
        ensures over { IsTrue result → IsOver self.now.stopped self.now.engine.store self.now.queues.items }
        ensures on { result ≡ false → IsOver self.now.stopped self.now.engine.store self.now.queues.items → ⊥ }
        ensures up { result ≡ false → (self.now.stopped ≡ false) × (self.now.engine.store.down ≡ false) }
    {
        if self.stopped || self.engine.down() {
            return true;
        }
        match waiting(&self.queues) {
            Some(_) => false,
            None => true,
        }
    }

    /// The store itself asks what it may, in a turn of its own, and not for a merge into main.
    pub(crate) fn ask(&mut self, st: Statement) -> Kept
        requires up { self.old.engine.store.down ≡ false }
        requires going { self.old.stopped ≡ false }
        requires stores { IsTrue (is_of_store st) }
        requires spelled { IsTrue (is_spelled st) }
        requires no_merge { is_of_merge st ≡ false }
        requires may { (p : Plain) → Runs self.old.engine.store (D.view self.old.engine.disk) p → StoreAsks self.old.l1 self.old.last p st }
        requires stands { StandsOn O.ground self.old.queues.items self.old.book.items self.old.engine.loan (D.view self.old.engine.disk) self.old.engine.store self.old.job self.old.l1 self.old.last }
        ensures stands { StandsOn O.ground self.new.queues.items self.new.book.items self.new.engine.loan (D.view self.new.engine.disk) self.new.engine.store self.new.job self.new.l1 self.new.last }
        ensures book { AddsOne self.old.book.items self.new.book.items }
        ensures kept { AsksOnce st false self.new.stopped self.new.engine.store.down self.old.book.items self.new.book.items result }
        ensures dated { IsDated (D.view self.new.engine.disk).moment self.old.book.items self.new.book.items }

        // What else the hall holds.
        ensures job { self.new.job ≡ self.old.job }
        ensures waits { self.new.save_waits ≡ self.old.save_waits }
    {
        if self.book.reserve(1).is_err() {
            drop(st);
            self.stopped = true;
            return Kept::Over;
        }
        let before = self.engine.journal_len();
        let reply = answer_statement(self.alloc, &mut self.engine, &st);
        let kept = kept_after(&reply, self.engine.down());
        let turn = turn_of(&self.engine, 0, Asked::Store(st), before, reply);
        self.last = begun_by(self.last, &turn);
        self.book.push_reserved(turn);
        kept
    }
}

/// A turn that was answered just now, by a journal of so many entries before.
pub(crate) fn turn_of<D: Disk>(
    engine: &Engine<'_, D>,
    session: u8,
    asked: Asked,
    before: u32,
    reply: Reply,
) -> Turn
    ensures { result ≡ record { session = Some session; asked = asked; reply = reply; journal = length_after reply before engine.now.store.store.counts.entries; moment = (D.view engine.now.disk).moment } }
{
    let journal = length_after(&reply, before, engine.journal_len());
    Turn {
        session: Some(session),
        asked,
        reply,
        journal,
        moment: engine.moment(),
    }
}

/// The last savepoint that began, behind a turn.
pub(crate) fn begun_by(last: Begun, turn: &Turn) -> Begun
    ensures { result ≡ begun_by last turn.now.asked turn.now.reply turn.now.journal }
{
    match &turn.asked {
        Asked::Store(Statement::SaveBegin) => match &turn.reply {
            Reply::Saving { done: _, pages } => Begun {
                entries: turn.journal,
                pages: *pages,
            },
            _ => last,
        },
        _ => last,
    }
}

/// What a keeper's turn came to: there is no more to do where its statement was refused, or the disk failed.
pub(crate) fn kept_after(reply: &Reply, down: bool) -> Kept
    ensures { result ≡ kept_after reply.now down }
{
    if down || is_refusal(reply) {
        Kept::Over
    } else {
        Kept::Did
    }
}

fn is_refusal(reply: &Reply) -> bool
    ensures { result ≡ is_refusal reply.now }
{
    matches!(reply, Reply::Refused(_))
}

/// What was done lets the other keeper go on, where that waited for it.
pub(crate) fn woken(waited: bool, kept: Kept) -> Kept
    ensures { result ≡ woken waited kept }
{
    match kept {
        Kept::Did if waited => Kept::Due,
        _ => kept,
    }
}
