//! A session's turn: the answer to its next line.
ghost use Rattle.std.specs.Prelude.{◌≡◌, false, IsTrue};
ghost use Rattle.ut_gate.specs.Turns.{AddsOne};
ghost use Rattle.ut_crowd.specs.Book.{HasTurn};
ghost use Rattle.ut_crowd.specs.Standing.{StandsOn};
ghost use Rattle.ut_crowd.specs.Queues.{EndsSession, IsDone};
ghost use Rattle.ut_crowd.specs.Going.{goes_on};
ghost use Rattle.ut_crowd.specs.Keepers.{IsDated};
ghost use Rattle.ut_crowd.specs.Waking.{Calls, Wakes, went_of};

use crate::book::Asked;
use crate::hall::{Hall, Opening, turn_of};
use crate::queues::{has_line, take_line};
use ut_course::answer_line;
use ut_crew::{Between, Went};
use ut_gate::{Act, Slip};
use ut_merge::Job;
use ut_outside::{Disk, Hook, Point};

/// Answers the next line of a session. It is over exactly where the hall is, where there was no room for the turn, or where the session
/// has no line left.
#[derive(Drop)]
pub struct Advance<'a, H> {
    pub session: u8,
    pub hook: &'a H,
}

impl<'a, 'd, D: Disk + Send, O: Opening + Send, H: Hook> Act<Hall<'d, D, O>> for Advance<'a, H> {
    ghost use Rattle.ut_crowd.specs.Book.{HasTurn};
    ghost use Rattle.ut_crowd.specs.Queues.{EndsSession, IsDone};
    ghost use Rattle.ut_crowd.specs.Going.{goes_on};
    ghost use Rattle.ut_crowd.specs.Keepers.{IsDated};
    ghost use Rattle.ut_crowd.specs.Waking.{Wakes};
    ghost use Rattle.std.specs.Prelude.{◌≡◌, false, IsTrue};

    type Answer = Went;

    ghost relates = { λ a _ x y _ _ answer.
        (goes_on answer ≡ false → EndsSession a.session x.stopped y.stopped x.engine.store x.queues.items x.book.items y.book.items)
        × (IsTrue (goes_on answer) → (IsDone a.session x.stopped x.engine.store x.queues.items → ⊥) × (y.stopped ≡ false) × HasTurn a.session (λ _. Unit {0}) x.book.items y.book.items)
        × IsDated (D.view y.engine.disk).moment x.book.items y.book.items
        × (y.save_waits ≡ x.save_waits)
        × Wakes y.l1 y.last y.save_waits y.engine.store (D.view y.engine.disk) answer };

    ghost asks = { λ _ _. Unit {0} };

    #[tactic(auto, using(ut_gate::proofs::Jobs::job_stays))]
    fn run(&mut self, value: &mut Hall<'d, D, O>, _slip: &mut Slip<Job>) -> Went {
        let more = value.advance(self.session);
        let due = value.calls_keeper();
        went_of(more, due)
    }
}

// What a turn comes to, where there may be more of them, and where a keeper that sleeps would do something.
fn went_of(more: bool, due: bool) -> Went
    ensures { result ≡ went_of more due }
{
    if !more {
        Went::Over
    } else if due {
        Went::Due
    } else {
        Went::On
    }
}

impl<'a, H: Hook> Between for Advance<'a, H> {
    fn between(&self) {
        self.hook.reach(Point::LineDone);
    }
}

impl<'d, D: Disk, O: Opening> Hall<'d, D, O> {
    /// Answers the next line of a session.
    pub(crate) fn advance(&mut self, session: u8) -> bool
        requires stands { StandsOn O.ground self.old.queues.items self.old.book.items self.old.engine.loan (D.view self.old.engine.disk) self.old.engine.store self.old.job self.old.l1 self.old.last }
        ensures stands { StandsOn O.ground self.new.queues.items self.new.book.items self.new.engine.loan (D.view self.new.engine.disk) self.new.engine.store self.new.job self.new.l1 self.new.last }
        ensures book { AddsOne self.old.book.items self.new.book.items }
        ensures job { self.new.job ≡ self.old.job }
        ensures done { result ≡ false → EndsSession session self.old.stopped self.new.stopped self.old.engine.store self.old.queues.items self.old.book.items self.new.book.items }
        ensures turn { IsTrue result → (IsDone session self.old.stopped self.old.engine.store self.old.queues.items → ⊥) × (self.new.stopped ≡ false) × HasTurn session (λ _. Unit {0}) self.old.book.items self.new.book.items }
        ensures dated { IsDated (D.view self.new.engine.disk).moment self.old.book.items self.new.book.items }
        ensures waits { self.new.save_waits ≡ self.old.save_waits }
    {
        if self.stopped || self.engine.down() || !has_line(&self.queues, session) {
            return false;
        }
        if self.book.reserve(1).is_err() {
            self.stopped = true;
            return false;
        }
        let Some(line) = take_line(&mut self.queues, session) else {
            return false;
        };
        let before = self.engine.journal_len();
        let reply = answer_line(self.alloc, &mut self.engine, session, line.as_slice());
        let turn = turn_of(&self.engine, session, Asked::Line(line), before, reply);
        self.book.push_reserved(turn);
        true
    }

    // Whether a keeper that sleeps would do something at its turn. It looks at the lengths of each table.
    fn calls_keeper(&self) -> bool
        ensures called { self.now.stopped ≡ false → Calls self.now.l1 self.now.last self.now.save_waits self.now.engine.store (D.view self.now.engine.disk) result }
        ensures up { IsTrue result → self.now.engine.store.down ≡ false }
    {
        if self.stopped || self.engine.down() {
            return false;
        }
        self.calls_saver() || self.calls_merger()
    }
}
