//! The places of each code.
ghost use Rattle.std.specs.Prelude.{◌≡◌, ℕ, ◌+◌, ◌-◌, ◌<◌, ◌≤◌, ◌≢◌, ◌++◌, [], ◌∷◌, length, take, IfOk, OnOk, OnErr};
ghost use Rattle.ut_unsorted.specs.Posted.{places_at, room_at};

use smallvec::SmallVec;
use std::alloc::{AllocError, Global};
use std::marker::Model;

/// The places of each code, in the order in which they were added.
#[derive(Drop)]
pub struct Postings {
    lists: Vec<SmallVec<u32, 4>>,
    alloc: Global,
}

impl Model for Postings {
    ghost use Rattle.std.specs.Prelude.{List, map};
    ghost use Rattle.ut_unsorted.specs.Posted.{Posting, posting_of};

    ghost Value = { List Posting };

    ghost view = { λ p. map posting_of p.lists.items };
}

impl Postings {
    pub fn new(alloc: Global) -> Self
        ensures { result ≡ [] }
    {
        Postings {
            lists: Vec::new(alloc),
            alloc,
        }
    }

    /// Makes sure that n places of a code can be added.
    pub fn room(&mut self, code: u32, n: u32) -> Result<(), AllocError>
        ensures room { OnOk result (n ≤ room_at self.new code) }
        ensures places { (c : ℕ) → places_at self.new c ≡ places_at self.old c }
    {
        let code = code as usize;
        while self.lists.len() <= code {
            self.lists.push(SmallVec::new(self.alloc))?;
        }
        self.lists[code].reserve(n as usize)
    }

    /// Adds a place of a code.
    pub fn add(&mut self, code: u32, place: u32)
        requires { 0 < room_at self.old code }
        ensures added { places_at self.new code ≡ places_at self.old code ++ place ∷ [] }
        ensures others { (c : ℕ) → c ≢ code → places_at self.new c ≡ places_at self.old c }
        ensures room { room_at self.new code + 1 ≡ room_at self.old code }
    {
        self.lists[code as usize].push_reserved(place);
    }

    /// Takes away the last place of a code.
    pub fn forget(&mut self, code: u32)
        requires { places_at self.old code ≢ [] }
        ensures cut { places_at self.new code ≡ take (length (places_at self.old code) - 1) (places_at self.old code) }
        ensures others { (c : ℕ) → c ≢ code → places_at self.new c ≡ places_at self.old c }
    {
        let _last = self.lists[code as usize].pop();
    }

    /// The places of a code: none for a code without one.
    pub fn places(&self, code: u32) -> &[u32]
        ensures { result.now ≡ places_at self.now code }
    {
        match self.lists.get(code as usize) {
            Some(list) => list.as_slice(),
            None => &[],
        }
    }
}
