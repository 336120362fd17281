//! What became of each transaction, by its number.
ghost use Rattle.std.specs.Prelude.{◌≡◌, ◌++◌, ◌∷◌, [], IsTrue, IfOk, OnOk, OnErr, length, slice_set};
ghost use Rattle.ut_stamps.specs.Stamps.{fate_at, is_running};

use std::alloc::{AllocError, Global};
use std::marker::Model;

#[derive(Clone, Copy, Debug, PartialEq, Eq)]
pub enum Fate {
    Running,
    /// By the entry that brought the journal to this length.
    Committed(u32),
    Aborted,
}

/// The fates of all transactions that were started. Each takes eight bytes.
#[derive(Drop)]
pub struct Fates {
    items: Vec<Fate>,
}

impl Model for Fates {
    ghost use Rattle.std.specs.Prelude.{List};
    ghost use Rattle.ut_stamps.specs.declared.fates.Fate.{Fate};

    ghost Value = { List Fate };

    ghost view = { λ f. f.items.items };
}

impl Fates {
    /// Transaction 0, whose rows were there at the opening.
    pub fn new(alloc: Global) -> Result<Fates, AllocError>
        ensures { IfOk result (λ f. f ≡ Fate.Committed 0 ∷ []) }
    {
        let mut items = Vec::new(alloc);
        items.push(Fate::Committed(0))?;
        Ok(Fates { items })
    }

    /// The number of a new transaction, which runs.
    pub fn start(&mut self) -> Result<u64, AllocError>
        ensures ok { OnOk result (self.new ≡ self.old ++ Fate.Running ∷ []) }
        ensures number { IfOk result (λ t. t ≡ length self.old) }
        ensures err { OnErr result (self.new ≡ self.old) }
    {
        let number = self.items.len();
        self.items.push(Fate::Running)?;
        Ok(number as u64)
    }

    /// Takes no memory.
    pub fn commit(&mut self, t: u64, length: u32)
        requires { IsTrue (is_running (fate_at self.old t)) }
        ensures { self.new ≡ slice_set self.old t (Fate.Committed length) }
    {
        self.set(t, Fate::Committed(length))
    }

    /// Takes no memory.
    pub fn abort(&mut self, t: u64)
        requires { IsTrue (is_running (fate_at self.old t)) }
        ensures { self.new ≡ slice_set self.old t Fate.Aborted }
    {
        self.set(t, Fate::Aborted)
    }

    /// A transaction that was never started counts as aborted.
    pub fn fate(&self, t: u64) -> Fate
        ensures { result ≡ fate_at self.now t }
    {
        match self.items.get(t as usize) {
            Some(fate) => *fate,
            None => Fate::Aborted,
        }
    }

    /// How many transactions were started.
    pub fn len(&self) -> u64
        ensures { result ≡ length self.now }
    {
        self.items.len() as u64
    }

    fn set(&mut self, t: u64, fate: Fate)
        ensures { self.new ≡ slice_set self.old t fate }
    {
        let place = t as usize;
        if place < self.items.len() {
            self.items[place] = fate;
        }
    }
}
