//! The lines that are left, in a queue for each session.
ghost use Rattle.std.specs.Prelude.{◌≡◌, ◌<◌, [], ◌∷◌, ◌++◌, ℕ, length, false, MatchOption, IsTrue, ◌↔◌, IfOk, IfNone, IfSome, OnOk};
ghost use Rattle.ut_crowd.specs.Queues.{left_of, Takes, TakesNone, HasNone};
ghost use Rattle.ut_crowd.specs.Sorting.{Adds};

use std::alloc::{AllocError, Global};
use std::collections::VecDeque;
use std::marker::Model;
use ut_value::Seq;

/// The lines of a session that are left.
#[derive(Drop)]
pub(crate) struct Queue {
    lines: VecDeque<Seq<u8>>,
}

impl Model for Queue {
    ghost use Rattle.std.specs.Prelude.{ℕ, List};

    ghost Value = { List (List ℕ) };

    ghost view = { λ q. q.lines.items };
}

impl Queue {
    fn new(alloc: Global) -> Queue
        ensures { result ≡ [] }
    {
        Queue {
            lines: VecDeque::new(alloc),
        }
    }

    // Puts a line behind the others.
    fn push(&mut self, line: Seq<u8>) -> Result<(), AllocError>
        ensures { OnOk result (self.new ≡ self.old ++ line ∷ []) }
    {
        match self.lines.push_back(line) {
            Ok(()) => Ok(()),
            Err(_) => Err(AllocError),
        }
    }

    fn is_empty(&self) -> bool
        ensures { IsTrue result ↔ (self.now ≡ []) }
    {
        self.lines.is_empty()
    }

    // The next line.
    fn next(&mut self) -> Option<Seq<u8>>
        ensures { MatchOption result ((self.old ≡ []) × (self.new ≡ [])) (λ line. self.old ≡ line ∷ self.new) }
    {
        self.lines.pop_front()
    }
}

/// A queue for each session, and one for the store, which stays empty.
pub(crate) fn seats(alloc: Global) -> Result<Vec<Queue>, AllocError>
    ensures seats { IfOk result (λ queues. length queues.items ≡ 17) }
    ensures none { IfOk result (λ queues. (session : ℕ) → left_of queues.items session ≡ []) }
{
    let mut queues = Vec::new(alloc);
    for seat in 0..17u8 {
        let _ = seat;
        queues.push(Queue::new(alloc))?;
    }
    Ok(queues)
}

/// Puts a line into the queue of a session.
pub(crate) fn enqueue(queues: &mut Vec<Queue>, session: u8, line: Seq<u8>) -> Result<(), AllocError>
    requires { session < length queues.old.items }
    ensures adds { OnOk result (Adds queues.old.items session line queues.new.items) }
    ensures seats { length queues.new.items ≡ length queues.old.items }
{
    queues[session as usize].push(line)
}

/// Whether a session has a line left.
pub(crate) fn has_line(queues: &[Queue], session: u8) -> bool
    ensures none { result ≡ false → left_of queues.now session ≡ [] }
    ensures some { IsTrue result → left_of queues.now session ≡ [] → ⊥ }
{
    match queues.get(session as usize) {
        Some(queue) => !queue.is_empty(),
        None => false,
    }
}

/// Takes the next line of a session.
pub(crate) fn take_line(queues: &mut Vec<Queue>, session: u8) -> Option<Seq<u8>>
    ensures { MatchOption result (TakesNone queues.old.items session queues.new.items) (λ line. Takes queues.old.items session line queues.new.items) }
{
    match queues.get_mut(session as usize) {
        Some(queue) => queue.next(),
        None => None,
    }
}

/// A session that has a line left.
pub(crate) fn waiting(queues: &[Queue]) -> Option<u8>
    ensures none { IfNone result (HasNone queues.now) }
    ensures some { IfSome result (λ session. (session < 17) × (left_of queues.now session ≡ [] → ⊥)) }
{
    for session in 0..17 {
        if has_line(queues, session) {
            return Some(session);
        }
    }
    None
}
