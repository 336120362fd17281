//! A column: the code of each cell, the keys of the codes, and the places of each key.
ghost use Rattle.std.specs.Prelude.{◌≡◌, ◌+◌, ◌-◌, ◌^◌, ◌<◌, ◌≤◌, ◌++◌, [], ◌∷◌, List, ℕ, length, take, slice_index_or, All, OnOk, OnErr};
ghost use Rattle.ut_value.specs.KeyBytes.{key_of};
ghost use Rattle.ut_unsorted.specs.FirstSeen.{key_eq, first_seen};
ghost use Rattle.ut_l2.specs.Cells.{cells_of};
ghost use Rattle.ut_l2.specs.Places.{places_where};
ghost use Rattle.ut_l2.specs.Sources.{cells_in, count_in, HasColumn};

use crate::source::Source;
use std::alloc::{AllocError, Global};
use std::marker::Model;
use ut_unsorted::{Postings, UnsortedDict};
use ut_value::{Value, key_bytes};

/// The keys of at most 2^31 rows in a column.
pub struct Column {
    dict: UnsortedDict,
    codes: Vec<u32>,
    postings: Postings,
}

// One step of a proof, wherever one is dropped.
impl Drop for Column {
    fn drop(self) {
        let Column {
            dict: _,
            codes: _,
            postings: _,
        } = self;
    }
}

impl Model for Column {
    ghost use Rattle.std.specs.Prelude.{List, ℕ};
    ghost use Rattle.ut_l2.specs.Cells.{cells_of, IsColumn};

    ghost Value = { List (List ℕ) };

    ghost view = { λ c. cells_of c.dict c.codes.items };

    ghost invariant = { λ c. IsColumn c.dict c.codes.items c.postings };
}

impl Column {
    pub fn new(alloc: Global) -> Self
        ensures { result ≡ [] }
    {
        Column {
            dict: UnsortedDict::new(alloc),
            codes: Vec::new(alloc),
            postings: Postings::new(alloc),
        }
    }

    /// Appends a cell.
    pub fn push(&mut self, key: &[u8]) -> Result<(), AllocError>
        requires short { length key.now ≤ 255 }
        requires count { length self.old < 2 ^ 31 }
        ensures ok { OnOk result (self.new ≡ self.old ++ key.now ∷ []) }
        ensures err { OnErr result (self.new ≡ self.old) }
    {
        let keys = self.dict.len();
        let place = self.codes.as_slice().len() as u32;
        self.codes.reserve(1)?;
        let code = self.dict.intern(key)?;
        match self.postings.room(code, 1) {
            Ok(()) => {}
            Err(failed) => {
                self.dict.cut(keys);
                return Err(failed);
            }
        }
        self.postings.add(code, place);
        self.codes.push_reserved(code);
        Ok(())
    }

    /// Takes away the last cell.
    pub fn pop(&mut self)
        ensures { self.new ≡ take (length self.old - 1) self.old }
    {
        if let Some(code) = self.codes.pop() {
            self.postings.forget(code);
            if self.postings.places(code).is_empty() {
                self.dict.cut(code);
            }
        }
    }

    pub fn len(&self) -> u32
        ensures len { result ≡ length self.now }
        ensures few { length self.now ≤ 2 ^ 31 }
    {
        self.codes.as_slice().len() as u32
    }

    /// Keeps the first n cells.
    pub fn cut(&mut self, n: u32)
        requires { n ≤ length self.old }
        ensures { self.new ≡ take n self.old }
    {
        while n < self.len() {
            self.pop();
        }
    }

    // Appends a value's key.
    fn push_value(&mut self, value: &Value) -> Result<(), AllocError>
        requires { length self.old < 2 ^ 31 }
        ensures ok { OnOk result (self.new ≡ self.old ++ key_of value.now ∷ []) }
        ensures err { OnErr result (self.new ≡ self.old) }
    {
        let mut room = [0; 8];
        self.push(key_bytes(value, &mut room))
    }

    /// Appends the keys in a column of n rows from one on: all or none.
    pub(crate) fn append(
        &mut self,
        source: Source<'_>,
        column: usize,
        from: usize,
        n: usize,
    ) -> Result<(), AllocError>
        requires column { HasColumn source column }
        requires rows { from + n ≤ count_in source }
        requires count { length self.old + n ≤ 2 ^ 31 }
        ensures ok { OnOk result (self.new ≡ self.old ++ cells_in source.entry column from n) }
        ensures err { OnErr result (self.new ≡ self.old) }
    {
        let before = self.len();
        for i in 0..n {
            match self.push_value(source.value(column, from + i)) {
                Ok(()) => {}
                Err(failed) => {
                    self.cut(before);
                    return Err(failed);
                }
            }
        }
        Ok(())
    }

    /// The keys, in first-seen order.
    pub fn dict(&self) -> &UnsortedDict
        ensures keys { result.now ≡ first_seen self.now }
        ensures few { length result.now ≤ 2 ^ 31 }
    {
        &self.dict
    }

    /// The place of a cell's key among the keys.
    pub fn code(&self, i: u32) -> u32
        requires { i < length self.now }
        ensures within { result < length (first_seen self.now) }
        ensures key { slice_index_or (first_seen self.now) result [] ≡ slice_index_or self.now i [] }
    {
        self.codes[i as usize]
    }

    /// The code of each cell: the place of its key among the keys.
    pub fn codes(&self) -> &[u32]
        ensures within { All (λ c. c < length (first_seen self.now)) result.now }
        ensures keys { cells_of (first_seen self.now) result.now ≡ self.now }
    {
        self.codes.as_slice()
    }

    /// The key of a cell.
    pub fn bytes(&self, i: u32) -> &[u8]
        requires { i < length self.now }
        ensures { result.now ≡ slice_index_or self.now i [] }
    {
        self.dict.bytes(self.code(i))
    }

    /// The places of a key, ascending.
    pub fn places(&self, key: &[u8]) -> &[u32]
        ensures { result.now ≡ places_where (key_eq key.now) self.now }
    {
        match self.dict.code(key) {
            Some(code) => self.postings.places(code),
            None => &[],
        }
    }
}
