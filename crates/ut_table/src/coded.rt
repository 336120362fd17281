//! The rows of a table by the codes of their keys.
ghost use Rattle.std.specs.Prelude.{◌≡◌, ◌+◌, ◌<◌, ◌≤◌, ◌^◌, ◌++◌, length, get_or, slice_get, Some, IsSome, IfSome, IfOk, pos, neg_ℤ, ◌≤ℤ◌};
ghost use Rattle.ut_exact.specs.Places.{StagedRow};
ghost use Rattle.ut_unsorted.specs.FirstSeen.{first_seen};
ghost use Rattle.ut_prefix.specs.Totals.{weighed};
ghost use Rattle.ut_l2.specs.KeyRows.{cells_at, key_at, no_row};
ghost use Rattle.ut_scan.specs.Coded.{code_at, keys_in};
ghost use Rattle.ut_staged.specs.Staged.{row_at};
ghost use Rattle.ut_table.specs.Coded.{coded_values, delta_keys, keyed_main};

use crate::table::Table;
use std::alloc::{AllocError, Global};
use ut_key::KeyList;
use ut_l2::L2;
use ut_main::{Main, Part};
use ut_scan::Place;

/// How many codes the dictionaries of main have in a column.
fn main_codes(main: &Main, column: usize) -> usize
    requires column { column < main.now.width }
    requires narrow { main.now.width ≤ 64 }
    ensures codes { result ≡ length (keys_in main.now column) }
    ensures few { result < 2 ^ 31 }
{
    let parts = main.parts();
    if parts == 0 {
        return 0;
    }
    main.chain(column as u8, parts - 1).len() as usize
}

/// The keys of the dictionaries of main in a column, by one walk over each.
fn main_keys(alloc: Global, main: &Main, column: usize) -> Result<KeyList, AllocError>
    requires column { column < main.now.width }
    requires narrow { main.now.width ≤ 64 }
    ensures { IfOk result (λ keys. keys ≡ keys_in main.now column) }
{
    let mut keys = KeyList::new(alloc);
    for p in 0..main.parts() {
        let more = main.part(p).dict(column as u8).keys(alloc)?;
        keys = joined(keys, more)?;
    }
    Ok(keys)
}

/// The sum of the numbers of main's keys in a column, each times the count of its code.
fn main_total(main: &Main, column: usize, counts: &[u32]) -> i128
    requires column { column < main.now.width }
    requires narrow { main.now.width ≤ 64 }
    ensures sum { result ≡ weighed counts.now (keys_in main.now column) }
    ensures low { neg_ℤ (pos 170141183381241069217422966122340155392) ≤ℤ result }
    ensures high { result ≤ℤ pos 170141183381241069217422966122340155392 }
{
    let parts = main.parts();
    if parts == 0 {
        return 0;
    }
    main.chain(column as u8, parts - 1).weighed_total(counts)
}

/// Keys and others behind them: where there are none, the others as they are.
fn joined(keys: KeyList, more: KeyList) -> Result<KeyList, AllocError>
    ensures { IfOk result (λ all. all ≡ keys ++ more) }
{
    if keys.len() == 0 {
        return Ok(more);
    }
    keys.followed_by(&more)
}

/// The code of a row of a delta among the delta's own keys.
fn delta_code(l2: &L2, column: usize, i: u32) -> usize
    requires column { column < l2.now.width }
    requires narrow { l2.now.width ≤ 64 }
    requires place { i < length l2.now.rows }
    ensures key { slice_get (first_seen (cells_at column l2.now.rows)) result ≡ Some (key_at column (get_or l2.now.rows i no_row)) }
    ensures few { result < 2 ^ 32 }
{
    l2.code(column as u8, i) as usize
}

/// The code of a row of a part.
fn part_code(part: &Part, column: usize, i: u32) -> usize
    requires column { column < length part.now.before }
    requires narrow { length part.now.before ≤ 64 }
    requires place { i < length part.now.rows }
    ensures code { result ≡ code_at part.now i column }
    ensures few { result < 2 ^ 32 }
{
    part.codes(column as u8).get(i) as usize
}

impl Table {
    /// The keys of main's codes in a column, by one walk over each dictionary.
    pub fn main_keys(&self, alloc: Global, column: usize) -> Result<KeyList, AllocError>
        requires { column < length self.now.stages.columns }
        ensures { IfOk result (λ keys. keys ≡ keys_in (keyed_main self.now.stages) column) }
    {
        main_keys(alloc, &self.main, column)
    }

    /// The sum of the numbers that main's keys in a column stand for, each times the count of its
    /// code. Where a dictionary's counts are all the same its keys aren't read.
    pub fn main_total(&self, column: usize, counts: &[u32]) -> i128
        requires { column < length self.now.stages.columns }
        ensures sum { let keys = keys_in (keyed_main self.now.stages) column in
            result ≡ weighed counts.now keys }
        ensures low { neg_ℤ (pos 170141183381241069217422966122340155392) ≤ℤ result }
        ensures high { result ≤ℤ pos 170141183381241069217422966122340155392 }
    {
        main_total(&self.main, column, counts)
    }

    /// How many codes main and the second stage have in a column.
    fn open_codes(&self, column: usize) -> usize
        requires { column < length self.now.stages.columns }
        ensures codes { result ≡ length (keys_in (keyed_main self.now.stages) column) + length (delta_keys column self.now.stages.l2) }
        ensures few { result < 2 ^ 33 }
    {
        main_codes(&self.main, column) + self.l2.dict(column as u8).len() as usize
    }

    /// How many codes a column has: main's, those of the second stage, and those of the closed one.
    pub fn codes(&self, column: usize) -> usize
        requires { column < length self.now.stages.columns }
        ensures codes { result ≡ length (coded_values self.now.stages column) }
        ensures few { result < 2 ^ 34 }
    {
        let open = self.open_codes(column);
        match &self.pending {
            Some(pending) => open + pending.closed().dict(column as u8).len() as usize,
            None => open,
        }
    }

    /// The code of the key of the row in a place, where its stage has codes.
    pub fn code(&self, place: Place, column: usize) -> Option<usize>
        requires there { IsSome (row_at self.now.stages place) }
        requires column { column < length self.now.stages.columns }
        ensures value { (row : StagedRow) → row_at self.now.stages place ≡ Some row → IfSome result (λ code. slice_get (coded_values self.now.stages column) code ≡ slice_get row.values column) }
        ensures few { IfSome result (λ code. code < 2 ^ 34) }
    {
        match place {
            Place::L1(_) => None,
            Place::L2(i) => Some(main_codes(&self.main, column) + delta_code(&self.l2, column, i)),
            Place::Closed(i) => match &self.pending {
                Some(pending) => {
                    Some(self.open_codes(column) + delta_code(pending.closed(), column, i))
                }
                None => None,
            },
            Place::Main(p, i) => Some(part_code(self.main.part(p), column, i)),
        }
    }
}
