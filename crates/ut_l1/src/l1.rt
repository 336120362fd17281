//! The list of rows.
ghost use Rattle.std.specs.Prelude.{◌≡◌, ◌+◌, ◌^◌, ◌<◌, ◌≤◌, ◌++◌, [], ◌∷◌, length, drop, slice_index_or, OnOk};

use std::alloc::{AllocError, Global};
use std::marker::Model;
use ut_queue::Queue;
use ut_value::Row;

/// At most 2^31 rows.
#[derive(Drop)]
pub struct L1 {
    queue: Queue<Row>,
}

impl Model for L1 {
    ghost use Rattle.std.specs.Prelude.{◌≤◌, ◌^◌, length};
    ghost use Rattle.ut_value.specs.declared.value.Row.{Row};
    ghost use Rattle.ut_queue.specs.Queued.{Queued};

    ghost Value = { Queued Row };

    ghost view = { λ l. l.queue };

    ghost invariant = { λ l. length l.queue.items ≤ 2 ^ 31 };
}

impl L1 {
    pub fn new(alloc: Global) -> Self
        ensures { result.items ≡ [] }
    {
        L1 {
            queue: Queue::new(alloc),
        }
    }

    /// Makes sure that n rows can be pushed.
    pub fn room(&mut self, n: u32) -> Result<(), AllocError>
        ensures ok { OnOk result (n ≤ self.new.room) }
        ensures kept { self.old.room ≤ self.new.room }
        ensures rows { self.new.items ≡ self.old.items }
    {
        self.queue.room(n as usize)
    }

    /// Takes no memory.
    pub fn push(&mut self, row: Row)
        requires room { 0 < self.old.room }
        requires count { length self.old.items < 2 ^ 31 }
        ensures rows { self.new.items ≡ self.old.items ++ row ∷ [] }
        ensures room { self.new.room + 1 ≡ self.old.room }
    {
        self.queue.push(row);
    }

    pub fn len(&self) -> u32
        ensures len { result ≡ length self.now.items }
        ensures few { length self.now.items ≤ 2 ^ 31 }
    {
        self.queue.as_slice().len() as u32
    }

    pub fn row(&self, i: u32) -> &Row
        requires { i < length self.now.items }
        ensures { result.now ≡ slice_index_or self.now.items i result.now }
    {
        &self.queue.as_slice()[i as usize]
    }

    /// The rows, in the order in which they were pushed.
    pub fn rows(&self) -> &[Row]
        ensures rows { result.now ≡ self.now.items }
        ensures few { length result.now ≤ 2 ^ 31 }
    {
        self.queue.as_slice()
    }

    /// Removes the first n rows.
    pub fn take_first(&mut self, n: u32)
        requires { n ≤ length self.old.items }
        ensures rows { self.new.items ≡ drop n self.old.items }
        ensures room { self.old.room ≤ self.new.room }
    {
        self.queue.take_first(n as usize);
    }
}
