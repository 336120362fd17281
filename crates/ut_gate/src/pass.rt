//! What a thread has of the gate.
ghost use Rattle.std.specs.Prelude.{◌≡◌, ◌<◌, [], ◌∷◌, ◌++◌, length, None, MatchOption};
ghost use Rattle.std.specs.Option.{option_copied};
ghost use Rattle.ut_gate.specs.Passes.{IsAway, carried};

use crate::held::{Held, Slip};
use crate::rule::Place;
use std::marker::Model;

/// The right to take turns at one gate. It has no bytes but those of its slip.
#[derive(Drop)]
pub struct Pass<E: Held> {
    pub(crate) seat: Place<E>,
    pub(crate) slip: Slip<E::Job>,
}

impl<E: Held> Model for Pass<E> {
    ghost use Rattle.ut_gate.specs.Passes.{Carried, carried, IsAway};

    ghost Value = { Carried E.Entry E.Job };

    ghost view = { λ p. carried p.seat p.slip.job };

    ghost invariant = { λ p. IsAway p.seat p.slip.job };
}

impl<E: Held> Pass<E> {
    pub(crate) fn of(seat: Place<E>) -> Pass<E>
        requires { IsAway seat None }
        ensures { result ≡ carried seat None }
    {
        Pass {
            seat,
            slip: Slip { job: None },
        }
    }

    pub(crate) fn into_seat(self) -> Place<E>
        ensures away { IsAway result self.job }
        ensures same { carried result self.job ≡ self }
    {
        let Pass { seat, slip: _ } = self;
        seat
    }

    /// The job in the slip.
    pub fn job(&self) -> Option<&E::Job>
        ensures { option_copied result ≡ self.now.job }
    {
        self.slip.job.as_ref()
    }
}

/// Passes of one gate, or of several. To make one of a list, or to take one out, needs no memory.
#[derive(Drop)]
pub struct PassList<E: Held> {
    passes: Vec<Pass<E>>,
}

impl<E: Held> Model for PassList<E> {
    ghost use Rattle.std.specs.Prelude.{List};
    ghost use Rattle.ut_gate.specs.Passes.{Carried};

    ghost Value = { List (Carried E.Entry E.Job) };

    ghost view = { λ l. l.passes.items };
}

impl<E: Held> PassList<E> {
    pub fn of(passes: Vec<Pass<E>>) -> PassList<E>
        ensures { result ≡ passes.items }
    {
        PassList { passes }
    }

    /// Takes the last one out.
    pub fn pop(&mut self) -> Option<Pass<E>>
        ensures { MatchOption result ((self.old ≡ []) × (self.new ≡ [])) (λ p. self.old ≡ self.new ++ p ∷ []) }
    {
        self.passes.pop()
    }

    /// Takes the last one out of a list that has one.
    pub(crate) fn take_last(&mut self) -> Pass<E>
        requires { 0 < length self.old }
        ensures { self.old ≡ self.new ++ result ∷ [] }
    {
        self.passes.take_last()
    }
}
