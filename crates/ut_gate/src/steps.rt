//! The steps of one pass on the table: into the line, to its turn, and out of it.
ghost use Rattle.std.specs.Prelude.{◌≡◌};
ghost use Rattle.ut_gate.specs.Steps.{IsAt, IsIdle, HasTurn, IsAtTurn, MayLeave, HasLeft, IsLast};

use crate::bells::Bells;
use crate::held::Held;
use crate::rule::{Draw, Leave, Line, Look, Place, Rest, Room};
use std::hint;
use std::sync::Wait;

const TICKET: usize = 0;

const SERVING: usize = 1;

// How often a pass looks whether its turn has come before it sleeps.
const LOOKS_AWAKE: u32 = 64;

/// Draws a ticket, and waits for its turn.
pub(crate) fn enter<E: Held, R: Wait>(line: &Line<E>, bells: &Bells, rt: &R, seat: &mut Place<E>)
    requires own { IsAt line.now.table_id seat.old }
    requires idle { IsIdle seat.old }
    ensures own { IsAt line.now.table_id seat.new }
    ensures turn { HasTurn E.book E.job (E.stands_on E.ground) seat.old.me seat.new.me }
    ensures value { IsAtTurn E.book E.job (E.stands_on E.ground) seat.new.me }
{
    let ticket = line.fetch_add::<Draw>(seat, TICKET, 1);
    let mut looks = 0;
    for _ in rt.forever() {
        // It hears its bell before it looks, and the bell is rung behind the end of a turn: so
        // it either sees that turn's end, or sleeps no longer than to that ring.
        let heard = bells.rings(ticket);
        if line.load::<Look>(seat, SERVING) == ticket {
            break;
        }
        if looks < LOOKS_AWAKE {
            hint::spin_loop();
            looks += 1;
        } else {
            bells.sleep(rt, ticket, heard);
        }
    }
}

/// Counts the turn, lets the value home, and lets the next have its turn.
pub(crate) fn leave<E: Held>(line: &Line<E>, bells: &Bells, seat: &mut Place<E>)
    requires own { IsAt line.now.table_id seat.old }
    requires turn { MayLeave E.book E.job (E.stands_on E.ground) seat.old.me }
    ensures own { IsAt line.now.table_id seat.new }
    ensures left { HasLeft E.book E.job (E.stands_on E.ground) seat.old.me seat.new.me }
{
    let home = seat.slot_mut(line, 0);
    home.turns = home.turns.wrapping_add(1);
    let served = line.fetch_add::<Leave>(seat, SERVING, 1);
    wake_next(line, bells, served.wrapping_add(1));
}

/// Lets the value home at a last turn, behind which nobody has another, and takes it out of the table.
pub(crate) fn end<E: Held>(table: Room<E>, mut seat: Place<E>) -> E
    requires own { IsAt table.shared.table_id seat }
    requires turn { IsAtTurn E.book E.job (E.stands_on E.ground) seat.me }
    ensures { IsLast E.book (E.stands_on E.ground) seat.me.0 result }
{
    table.shared.load::<Rest>(&mut seat, SERVING);
    let mut closed = table.close_with(seat);
    let home = closed.take(0);
    closed.free();
    home.value
}

// Wakes the pass with the next ticket, if that is drawn. Who draws it from here on finds that it is served.
fn wake_next<E: Held>(line: &Line<E>, bells: &Bells, next: u64)
    requires { line.now.table_id.words ≡ 2 }
{
    if line.peek(TICKET) != next {
        bells.ring(next);
    }
}
