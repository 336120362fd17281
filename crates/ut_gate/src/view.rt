//! What lies in the slot, and what the rule of the gate knows of a pass.
use std::collections::LinkedList;

/// The value with the number of turns that it has had, counted as the words count.
#[derive(Drop)]
pub struct Home<E> {
    pub value: E,
    pub turns: u64,
}

/// Where a pass stands. No value of it is made.
pub enum Stage<X, J> {
    /// Not in the line.
    Away,
    /// In the line, with this ticket.
    Waits(u64),
    /// At its turn, with the value: its ticket, and the book and the job that it found.
    Holds(u64, LinkedList<X>, Option<J>),
    /// At its turn, for good, with the value at home: its ticket.
    Ends(u64),
}

/// What a pass knows. No value of it is made.
pub struct View<X, J> {
    pub stage: Stage<X, J>,
    /// The book that the pass saw last.
    pub seen: LinkedList<X>,
    /// The books that were seen by the passes that were joined to it.
    pub told: LinkedList<LinkedList<X>>,
    /// The places of its own entries.
    pub own: LinkedList<u64>,
    pub job: Option<J>,
    /// How many passes may still be split off.
    pub spare: u64,
}
