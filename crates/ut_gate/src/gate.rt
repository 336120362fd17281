//! The gate: made, entered for a turn, and closed.
ghost use Rattle.std.specs.Prelude.{◌≡◌, ◌<◌, ◌≤◌, [], None, IfOk, IfErr, length, vec_capacity, replicate, All};
ghost use mathlib.Core.List.{IsPrefix};
ghost use Rattle.ut_gate.specs.Tells.{newcomer};
ghost use Rattle.ut_gate.specs.Steps.{IsAt};
ghost use Rattle.ut_gate.specs.Passes.{Turn, Apart, fresh, slip_of};

use crate::bells::Bells;
use crate::held::{Act, Held};
use crate::pass::{Pass, PassList};
use crate::rule::{Line, One, Place, Room};
use crate::steps::{end, enter, leave};
use crate::view::Home;
use atomic_table::Refused;
use std::alloc::Global;
use std::marker::Model;
use std::sync::Wait;

/// Holds the value, and gives turns in the order in which they were asked for.
#[derive(Drop)]
pub struct Gate<E: Held> {
    table: Room<E>,
    bells: Bells,
}

impl<E: Held> Model for Gate<E> {
    ghost use Rattle.std.specs.Prelude.{◌≡◌};
    ghost use Rattle.atomic_table.specs.Seated.{TableId, table_id_coded};

    ghost Value = { TableId };

    ghost coded = { table_id_coded };

    ghost view = { λ g. g.table.shared.table_id };

    ghost invariant = { λ g. (g.table.shared.table_id.words ≡ 2) × (g.table.shared.table_id.slots ≡ 1) };
}

/// There was no memory, and the value comes back.
#[derive(Drop)]
pub struct Back<T: Drop> {
    pub value: T,
}

impl<E: Held> Gate<E> {
    /// A gate with the value in it, and its passes.
    pub fn new(alloc: Global, value: E, seats: u32) -> Result<(Gate<E>, PassList<E>), Back<E>>
        requires seats { (1 ≤ seats) × (seats ≤ 64) }
        requires job { E.job value ≡ None }
        requires ground { E.stands_on E.ground value }
        ensures ok { IfOk result (λ r. r.1 ≡ replicate seats (fresh r.0)) }
        ensures err { IfErr result (λ b. b.value ≡ value) }
    {
        let Ok(mut passes) = Vec::with_capacity(alloc, seats as usize) else {
            return Err(Back { value });
        };
        let Ok(mut slots) = Vec::with_capacity(alloc, 1) else {
            return Err(Back { value });
        };
        let Ok(bells) = Bells::new(alloc) else {
            return Err(Back { value });
        };
        slots.push_reserved(Home { value, turns: 0 });
        match Room::<E>::new(alloc, &[0, 0], slots, &()) {
            Ok((table, seat)) => {
                let passes = deal(&table.shared, seat, passes, seats);
                Ok((Gate { table, bells }, PassList::of(passes)))
            }
            Err(refused) => {
                let Refused { mut slots } = refused;
                let Home { value, turns: _ } = slots.swap_remove(0);
                Err(Back { value })
            }
        }
    }

    /// One turn: waits for it, and runs the act on the value. It takes no memory of its own.
    pub fn act<R: Wait, A: Act<E>>(&self, rt: &R, pass: &mut Pass<E>, act: &mut A) -> A::Answer
        requires own { pass.old.gate ≡ self.now }
        requires asks { A.asks act.old (slip_of pass.old) }
        ensures { Turn E.book E.job (E.stands_on E.ground)
            (λ x y. A.relates act.old act.new x y (slip_of pass.old) (slip_of pass.new) result)
            pass.old pass.new }
    {
        let line = &self.table.shared;
        let Pass { seat, slip } = pass;
        enter(line, &self.bells, rt, seat);
        let home = seat.slot_mut(line, 0);
        let answer = act.run(&mut home.value, slip);
        leave(line, &self.bells, seat);
        answer
    }

    /// Joins the passes, and takes the value out in a last turn. It takes no memory.
    pub fn close<R: Wait>(self, rt: &R, passes: PassList<E>) -> E
        requires some { 0 < length passes }
        requires own { All (λ p. p.gate ≡ self) passes }
        ensures ground { E.stands_on E.ground result }
        ensures seen { All (λ p. IsPrefix p.seen (E.book result)) passes }
        ensures apart { Apart passes }
    {
        let Gate { table, bells } = self;
        let line = &table.shared;
        let mut rest = passes;
        let mut seat = rest.take_last().into_seat();
        while let Some(pass) = rest.pop() {
            line.join_seat::<One>(&mut seat, pass.into_seat());
        }
        enter(line, &bells, rt, &mut seat);
        end(table, seat)
    }
}

// The passes of a new gate.
fn deal<E: Held>(
    line: &Line<E>,
    mut seat: Place<E>,
    mut passes: Vec<Pass<E>>,
    seats: u32,
) -> Vec<Pass<E>>
    requires at { IsAt line.now.table_id seat }
    requires first { seat.me ≡ (newcomer [] 63, []) }
    requires seats { (1 ≤ seats) × (seats ≤ 64) }
    requires room { (passes.items ≡ []) × (seats ≤ vec_capacity passes) }
    ensures { result.items ≡ replicate seats (fresh line.now.table_id) }
{
    for i in 1..seats {
        let _ = i;
        let other = line.split_seat::<One>(&mut seat);
        passes.push_reserved(Pass::of(other));
    }
    passes.push_reserved(Pass::of(seat));
    passes
}
