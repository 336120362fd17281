//! A list that grows at its end and shrinks at its front, with room that is made before it is used.
ghost use Rattle.std.specs.Prelude.{◌≡◌, ◌+◌, ◌<◌, ◌≤◌, ◌++◌, [], ◌∷◌, length, drop, slice_set, OnOk};

use std::alloc::{AllocError, Global};
use std::marker::Model;

/// The items that were taken stay in front until they are as many as the others, so that taking
/// one by one moves each item once on average.
#[derive(Drop)]
pub struct Queue<T: Drop> {
    held: Vec<T>,
    taken: usize,
}

impl<T: Drop> Model for Queue<T> {
    ghost use Rattle.std.specs.Prelude.{◌-◌, ◌≤◌, length, drop, vec_len, vec_capacity};
    ghost use Rattle.ut_queue.specs.Queued.{Queued};

    ghost Value = { Queued T };

    ghost view = { λ q. record { items = drop q.taken q.held.items; room = vec_capacity q.held - vec_len q.held } };

    ghost invariant = { λ q. q.taken ≤ length q.held.items };
}

impl<T: Drop> Queue<T> {
    pub fn new(alloc: Global) -> Self
        ensures { result.items ≡ [] }
    {
        Queue {
            held: Vec::new(alloc),
            taken: 0,
        }
    }

    /// Makes sure that n items can be pushed.
    pub fn room(&mut self, n: usize) -> Result<(), AllocError>
        ensures ok { OnOk result (n ≤ self.new.room) }
        ensures kept { self.old.room ≤ self.new.room }
        ensures items { self.new.items ≡ self.old.items }
    {
        self.held.reserve(n)
    }

    /// Takes no memory.
    pub fn push(&mut self, item: T)
        requires { 0 < self.old.room }
        ensures items { self.new.items ≡ self.old.items ++ item ∷ [] }
        ensures room { self.new.room + 1 ≡ self.old.room }
    {
        self.held.push_reserved(item);
    }

    pub fn as_slice(&self) -> &[T]
        ensures { result.now ≡ self.now.items }
    {
        &self.held.as_slice()[self.taken..]
    }

    /// Puts an item in the place of another.
    pub fn set(&mut self, i: usize, item: T)
        requires { i < length self.old.items }
        ensures items { self.new.items ≡ slice_set self.old.items i item }
        ensures room { self.new.room ≡ self.old.room }
    {
        let place = self.taken + i;
        self.held[place] = item;
    }

    /// Removes the first n items.
    pub fn take_first(&mut self, n: usize)
        requires { n ≤ length self.old.items }
        ensures items { self.new.items ≡ drop n self.old.items }
        ensures room { self.old.room ≤ self.new.room }
    {
        let taken = self.taken + n;
        let len = self.held.as_slice().len();
        if taken < len - taken {
            self.taken = taken;
            return;
        }
        self.held.as_mut_slice().rotate_left(taken);
        self.held.truncate(len - taken);
        self.taken = 0;
    }
}
