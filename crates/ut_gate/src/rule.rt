//! The rule of the gate over its table, and what each step on a word tells the pass.
ghost use Rattle.std.specs.Prelude.{[]};
ghost use Rattle.ut_gate.specs.Line.{InOrder};
ghost use Rattle.ut_gate.specs.Tells.{newcomer, Draws, Looks, Leaves, Rests, cut_left, cut_right, joined};

use crate::held::Held;
use crate::view::{Home, View};
use atomic_table::{Join, Play, Seat, Shared, Split, Table, TableRule};
use std::alloc::Global;

/// Words 0 and 1 are the ticket to be drawn next and the ticket that is served.
pub(crate) struct Queue;

impl<E: Held> TableRule<Home<E>, View<E::Entry, E::Job>, ()> for Queue {
    ghost holds = { λ _. InOrder E.book E.job (E.stands_on E.ground) };

    ghost first = { λ _. newcomer [] 63 };
}

pub(crate) struct Draw;

impl<E: Held> Play<Home<E>, View<E::Entry, E::Job>> for Draw {
    ghost then = { Draws E.book E.job (E.stands_on E.ground) };
}

pub(crate) struct Look;

impl<E: Held> Play<Home<E>, View<E::Entry, E::Job>> for Look {
    ghost then = { Looks E.book E.job (E.stands_on E.ground) };
}

pub(crate) struct Leave;

impl<E: Held> Play<Home<E>, View<E::Entry, E::Job>> for Leave {
    ghost then = { Leaves E.book E.job (E.stands_on E.ground) };
}

pub(crate) struct Rest;

impl<E: Held> Play<Home<E>, View<E::Entry, E::Job>> for Rest {
    ghost then = { Rests E.book E.job (E.stands_on E.ground) };
}

/// Passes are split off one by one, and joined one by one.
pub(crate) struct One;

impl<X, J> Split<View<X, J>> for One {
    ghost left = { cut_left };

    ghost right = { cut_right };
}

impl<X, J> Join<View<X, J>> for One {
    ghost both = { joined };

    ghost spent = { newcomer [] 0 };
}

pub(crate) type Line<E> = Shared<Home<E>, View<<E as Held>::Entry, <E as Held>::Job>, (), Queue>;

pub(crate) type Room<E> = Table<
    Home<E>,
    View<<E as Held>::Entry, <E as Held>::Job>,
    (),
    Queue,
    Global,
>;

pub(crate) type Place<E> = Seat<Home<E>, View<<E as Held>::Entry, <E as Held>::Job>>;
