//! The value in a gate, and what is done to it in one turn.
ghost use Rattle.std.specs.Prelude.{List, Option};
ghost use Rattle.ut_gate.specs.Turns.{AddsOne, KeepsJob, MeetsJob};

/// A value that a gate may hold. It has a book, which only grows, and perhaps a job under way.
pub trait Held: Send + Drop {
    /// What is handed out where a job is taken.
    type Job: Send + Drop;

    /// What stands in the book. No value of it needs to be made.
    type Entry;

    /// Data that is the same for all values of the type.
    ghost Ground: { Type 0 };

    ghost ground: { Ground };

    /// What is true of a value on a ground. The gate keeps it from turn to turn.
    ghost stands_on: { Ground → Self → Type 0 };

    ghost book: { Self → List Self.Entry };

    ghost job: { Self → Option Self.Job };
}

/// What a pass carries from turn to turn.
#[derive(Drop)]
pub struct Slip<J> {
    pub job: Option<J>,
}

/// What is done in one turn.
pub trait Act<E: Held> {
    ghost use Rattle.ut_gate.specs.declared.held.Slip.{Slip};

    type Answer;

    /// Of the act before and after, the value before and after, the slip before and after, and
    /// the answer.
    ghost relates: { Self → Self → E → E → Slip E.Job → Slip E.Job → Self.Answer → Type 0 };

    /// What an act asks of itself and of its slip.
    ghost asks: { Self → Slip E.Job → Type 0 };

    fn run(&mut self, value: &mut E, slip: &mut Slip<E::Job>) -> Self::Answer
        requires asks { asks self.old slip.old }
        requires job { MeetsJob (E.job value.old) slip.old.job }
        requires ground { E.stands_on E.ground value.old }
        ensures done { relates self.old self.new value.old value.new slip.old slip.new result }

        // What every act keeps.
        ensures ground { E.stands_on E.ground value.new }
        ensures book { AddsOne (E.book value.old) (E.book value.new) }
        ensures job { KeepsJob (E.job value.old) (E.job value.new) slip.old.job slip.new.job };
}
