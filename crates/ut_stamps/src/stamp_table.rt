//! The stamps of a table's rows, in a list for each stage.
ghost use Rattle.std.specs.Prelude.{◌≡◌, ◌+◌, ◌<◌, ◌≤◌, ◌++◌, [], ◌∷◌, Some, None, length, take, get_or, slice_set, option_map, MatchOption, IfOk, OnOk};
ghost use Rattle.ut_stamps.specs.StampLists.{if_closed, items_of, stamp_at, with_stamp, IsPlace, KeepsStamps, Pushes, Moves};

use crate::part_stamps::PartStamps;
use crate::place::Place;
use crate::visibility::Stamp;
use std::alloc::{AllocError, Global};
use std::marker::Model;
use std::mem;
use ut_queue::Queue;

/// How many parts main has at most.
const MOST_PARTS: usize = 8;

/// A stamp stands in its list where its row stands in the stage.
#[derive(Drop)]
pub struct StampTable {
    l1: Queue<Stamp>,
    l2: Queue<Stamp>,
    closed: Option<Queue<Stamp>>,
    parts: Vec<PartStamps>,
}

impl Model for StampTable {
    ghost use Rattle.std.specs.Prelude.{◌≤◌, vec_len, vec_capacity};
    ghost use Rattle.ut_stamps.specs.StampLists.{items_of, StampLists};

    ghost Value = { StampLists };

    ghost view = { λ t.
        record {
          l1 = t.l1;
          l2 = t.l2;
          closed = items_of t.closed;
          parts = t.parts.items;
        } };

    ghost invariant = { λ t. (vec_len t.parts ≤ 8) × (8 ≤ vec_capacity t.parts) };
}

impl StampTable {
    pub fn new(alloc: Global) -> Result<Self, AllocError>
        ensures l1 { IfOk result (λ t. t.l1.items ≡ []) }
        ensures l2 { IfOk result (λ t. t.l2.items ≡ []) }
        ensures closed { IfOk result (λ t. t.closed ≡ None) }
        ensures parts { IfOk result (λ t. t.parts ≡ []) }
    {
        Ok(StampTable {
            l1: Queue::new(alloc),
            l2: Queue::new(alloc),
            closed: None,
            parts: Vec::with_capacity(alloc, MOST_PARTS)?,
        })
    }

    /// Makes sure that so many stamps can be pushed.
    pub fn room(&mut self, l1: u32, l2: u32) -> Result<(), AllocError>
        ensures l1 { OnOk result (l1 ≤ self.new.l1.room) }
        ensures l2 { OnOk result (l2 ≤ self.new.l2.room) }
        ensures kept { KeepsStamps self.old self.new }
    {
        self.l1.room(l1 as usize)?;
        self.l2.room(l2 as usize)
    }

    /// Takes no memory.
    pub fn push_l1(&mut self, stamp: Stamp)
        requires { 0 < self.old.l1.room }
        ensures pushed { Pushes self.old.l1 self.new.l1 stamp }
        ensures others { self.new ≡ record self.old { l1 = self.new.l1 } }
    {
        self.l1.push(stamp);
    }

    /// Takes no memory.
    pub fn push_l2(&mut self, stamp: Stamp)
        requires { 0 < self.old.l2.room }
        ensures pushed { Pushes self.old.l2 self.new.l2 stamp }
        ensures others { self.new ≡ record self.old { l2 = self.new.l2 } }
    {
        self.l2.push(stamp);
    }

    /// Moves the first n stamps of L1 to the end of L2. Takes no memory.
    pub fn move_l1(&mut self, n: u32)
        requires there { n ≤ length self.old.l1.items }
        requires room { n ≤ self.old.l2.room }
        ensures moved { Moves self.old self.new n }
        ensures others { self.new ≡ record self.old { l1 = self.new.l1; l2 = self.new.l2 } }
    {
        let n = n as usize;
        for i in 0..n {
            self.l2.push(self.l1.as_slice()[i]);
        }
        self.l1.take_first(n);
    }

    /// Makes L2 the closed stage, behind which an empty L2 begins. Takes no memory.
    pub fn close_l2(&mut self, alloc: Global)
        requires { self.old.closed ≡ None }
        ensures l2 { self.new.l2.items ≡ [] }
        ensures others { self.new ≡ record self.old { l2 = self.new.l2; closed = Some self.old.l2.items } }
    {
        self.closed = Some(mem::replace(&mut self.l2, Queue::new(alloc)));
    }

    /// Adds the stamps of a part behind the others. Needs no memory.
    pub fn push_part(&mut self, stamps: Vec<Stamp>)
        requires { length self.old.parts < 8 }
        ensures { self.new ≡ record self.old { parts = self.old.parts ++ stamps.items ∷ [] } }
    {
        self.push_stamps(PartStamps::of(stamps));
    }

    /// The same of stamps as they are held. Takes no memory.
    pub fn push_stamps(&mut self, stamps: PartStamps)
        requires { length self.old.parts < 8 }
        ensures { self.new ≡ record self.old { parts = self.old.parts ++ stamps ∷ [] } }
    {
        self.parts.push_reserved(stamps);
    }

    /// Ends a merge: the first parts stay, and the stamps of a part stand in place of the others
    /// and of the closed stage. Needs no memory.
    pub fn switch(&mut self, stay: u8, stamps: Vec<Stamp>)
        requires there { stay ≤ length self.old.parts }
        requires fewer { stay < 8 }
        ensures { let parts = take stay self.old.parts ++ stamps.items ∷ [] in
            self.new ≡ record self.old { closed = None; parts = parts } }
    {
        self.parts.truncate(usize::from(stay));
        self.parts.push_reserved(PartStamps::of(stamps));
        self.closed = None;
    }

    pub fn stamp(&self, place: Place) -> Stamp
        requires { IsPlace self.now place }
        ensures { result ≡ stamp_at self.now place }
    {
        match place {
            Place::L1(i) => self.l1.as_slice()[i as usize],
            Place::L2(i) => self.l2.as_slice()[i as usize],
            Place::Closed(i) => in_closed(&self.closed)[i as usize],
            Place::Main(p, i) => self.part(p).get(i as usize),
        }
    }

    /// Puts a stamp in the place of another. Takes no memory.
    pub fn set(&mut self, place: Place, stamp: Stamp)
        requires { IsPlace self.old place }
        ensures { self.new ≡ with_stamp self.old place stamp }
    {
        match place {
            Place::L1(i) => self.l1.set(i as usize, stamp),
            Place::L2(i) => self.l2.set(i as usize, stamp),
            Place::Closed(i) => set_closed(&mut self.closed, i as usize, stamp),
            Place::Main(p, i) => self.parts[usize::from(p)].set(i as usize, stamp),
        }
    }

    /// Gives the row at a place to a transaction that ends it. Takes no memory.
    pub fn set_end(&mut self, place: Place, t: u64)
        requires { IsPlace self.old place }
        ensures { self.new ≡ with_stamp self.old place (record (stamp_at self.old place) { end = Some t }) }
    {
        let begin = self.stamp(place).begin;
        let stamp = Stamp {
            begin,
            end: Some(t),
        };
        self.set(place, stamp);
    }

    /// The stamps of L1.
    pub fn l1(&self) -> &[Stamp]
        ensures { result.now ≡ self.now.l1.items }
    {
        self.l1.as_slice()
    }

    /// The stamps of L2.
    pub fn l2(&self) -> &[Stamp]
        ensures { result.now ≡ self.now.l2.items }
    {
        self.l2.as_slice()
    }

    /// The stamps of the closed stage, if there is one.
    pub fn closed(&self) -> Option<&[Stamp]>
        ensures { MatchOption result
            (self.now.closed ≡ None) (λ stamps. self.now.closed ≡ Some stamps.now) }
    {
        match &self.closed {
            Some(stamps) => Some(stamps.as_slice()),
            None => None,
        }
    }

    /// How many parts there are.
    pub fn parts(&self) -> u8
        ensures count { result ≡ length self.now.parts }
        ensures few { result ≤ 8 }
    {
        self.parts.len() as u8
    }

    /// The stamps of a part.
    pub fn part(&self, p: u8) -> &PartStamps
        requires { p < length self.now.parts }
        ensures { result.now ≡ get_or self.now.parts p [] }
    {
        &self.parts[usize::from(p)]
    }
}

/// The stamps of the closed stage, none where there is no such stage.
fn in_closed(closed: &Option<Queue<Stamp>>) -> &[Stamp]
    ensures { result.now ≡ if_closed (items_of closed.now) }
{
    match closed {
        Some(stamps) => stamps.as_slice(),
        None => &[],
    }
}

/// Puts a stamp in the place of another of the closed stage.
fn set_closed(closed: &mut Option<Queue<Stamp>>, i: usize, stamp: Stamp)
    requires { i < length (if_closed (items_of closed.old)) }
    ensures { items_of closed.new
        ≡ option_map (λ stamps. slice_set stamps i stamp) (items_of closed.old) }
{
    if let Some(stamps) = closed {
        stamps.set(i, stamp);
    }
}
