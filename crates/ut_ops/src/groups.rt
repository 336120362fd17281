//! The sums of a column by the keys of another.
ghost use Rattle.std.specs.Prelude.{◌≡◌, ◌+◌, ◌<◌, ◌≤◌, ◌^◌, ◌++◌, [], ◌∷◌, ℕ, pos, ◌+ℤ◌, ◌≤ℤ◌, neg_ℤ, List, length, map, slice_get, option_map, Some, IsTrue, IfOk, OnOk};
ghost use Rattle.ut_value.specs.declared.value.Column.{Column};
ghost use Rattle.ut_plain.specs.Tables.{column_of};
ghost use Rattle.ut_plain.specs.Query.{groups};
ghost use Rattle.ut_staged.specs.Staged.{row_at};
ghost use Rattle.ut_table.specs.Finds.{rows_at};
ghost use Rattle.ut_ops.specs.Fit.{is_row, cell, Fit};
ghost use Rattle.ut_ops.specs.Tally.{sum_of, added, tallies, entry_of, as_group};
ghost use Rattle.ut_ops.specs.Noted.{AreNoted};
ghost use Rattle.ut_ops.specs.Gathered.{entry_in, more_at, AreFew, AreMarks, Adds};

use crate::cell::value_at;
use crate::gather::no_marks;
use crate::numbers::{Noted, noted_number, notes};
use crate::ranked::Ranked;
use std::alloc::{AllocError, Global};
use std::collections::BTreeMap;
use ut_plain::Group;
use ut_scan::Found;
use ut_table::Table;
use ut_value::{Kind, Seq};

/// For each key that occurs, ascending, the sum over the rows that have it.
pub fn group(
    alloc: Global,
    table: &Table,
    key: usize,
    sum: usize,
    hits: &[Found],
) -> Result<Seq<Group>, AllocError>
    requires key { key < length table.now.stages.columns }
    requires numbers { option_map (λ (c : Column). c.kind) (slice_get table.now.stages.columns sum) ≡ Some Kind.Int }
    requires few { length hits.now ≤ 2 ^ 31 }
    requires fit { Fit table.now.stages hits.now }
    ensures { let s = table.now.stages in
        IfOk result (λ said. (n : ℕ) (key_name sum_name : List ℕ)
        → column_of s.columns key_name ≡ Some key → column_of s.columns sum_name ≡ Some sum
        → said ≡ groups s.columns key_name sum_name (rows_at n s hits.now)) }
{
    let gathered = gather(alloc, table, key, sum, hits)?;
    let sums = united(alloc, gathered)?;
    let said = groups_of(alloc, sums)?;
    Ok(said)
}

/// The sums by code, with room for the marks of codes and for numbers that were read.
fn gather(
    alloc: Global,
    table: &Table,
    key: usize,
    sum: usize,
    hits: &[Found],
) -> Result<Vec<Group>, AllocError>
    requires key { key < length table.now.stages.columns }
    requires numbers { option_map (λ (c : Column). c.kind) (slice_get table.now.stages.columns sum) ≡ Some Kind.Int }
    requires few { length hits.now ≤ 2 ^ 31 }
    requires fit { Fit table.now.stages hits.now }
    ensures few { IfOk result (λ gathered. AreFew (2 ^ 31) gathered.items) }
    ensures sums { IfOk result (λ gathered. tallies (map entry_in gathered.items) ≡ tallies (map (entry_of table.now.stages key sum) hits.now)) }
{
    let mut noted = notes(alloc, table, sum, hits.len())?;
    let mut marks = marks_for(alloc, table, key, hits.len())?;
    let gathered = gather_by(alloc, table, key, sum, hits, &mut noted, &mut marks)?;
    Ok(gathered)
}

/// The sums by code: one for each code that occurs, and one for each row without a code.
fn gather_by(
    alloc: Global,
    table: &Table,
    key: usize,
    sum: usize,
    hits: &[Found],
    noted: &mut [Noted],
    marks: &mut [u32],
) -> Result<Vec<Group>, AllocError>
    requires key { key < length table.now.stages.columns }
    requires numbers { option_map (λ (c : Column). c.kind) (slice_get table.now.stages.columns sum) ≡ Some Kind.Int }
    requires few { length hits.now ≤ 2 ^ 31 }
    requires fit { Fit table.now.stages hits.now }
    requires noted { AreNoted table.now.stages sum noted.old }
    requires marks { AreMarks table.now.stages key marks.old [] }
    ensures few { IfOk result (λ gathered. AreFew (2 ^ 31) gathered.items) }
    ensures sums { IfOk result (λ gathered. tallies (map entry_in gathered.items) ≡ tallies (map (entry_of table.now.stages key sum) hits.now)) }
{
    let mut gathered = Vec::new(alloc);
    for hit in hits {
        let number = noted_number(table, *hit, sum, noted);
        add_to(alloc, table, *hit, key, number, marks, &mut gathered)?;
    }
    Ok(gathered)
}

/// A mark for each code of a column, where these are not more than the rows, and else none.
fn marks_for(
    alloc: Global,
    table: &Table,
    column: usize,
    rows: usize,
) -> Result<Vec<u32>, AllocError>
    requires { column < length table.now.stages.columns }
    ensures { IfOk result (λ marks. AreMarks table.now.stages column marks.items []) }
{
    let codes = table.codes(column);
    let marks = no_marks(alloc, if codes <= rows { codes } else { 0 })?;
    Ok(marks)
}

/// Adds a number under a row's key. A mark is one more than the place of a code's sum.
fn add_to(
    alloc: Global,
    table: &Table,
    hit: Found,
    key: usize,
    number: i64,
    marks: &mut [u32],
    gathered: &mut Vec<Group>,
) -> Result<(), AllocError>
    requires row { IsTrue (is_row table.now.stages.columns (row_at table.now.stages hit.place)) }
    requires key { key < length table.now.stages.columns }
    requires few { AreFew 2147483647 gathered.old.items }
    requires marks { AreMarks table.now.stages key marks.old gathered.old.items }
    ensures { OnOk result (Adds table.now.stages key (cell table.now.stages key hit) number gathered.old.items marks.new gathered.new.items) }
{
    let Some(code) = table.code(hit.place, key) else {
        add_new(alloc, table, hit, key, number, gathered)?;
        return Ok(());
    };
    if marks.len() <= code {
        add_new(alloc, table, hit, key, number, gathered)?;
        return Ok(());
    }
    let mark = marks[code];
    if mark == 0 {
        add_new(alloc, table, hit, key, number, gathered)?;
        marks[code] = gathered.len() as u32;
    } else {
        add_more(gathered, mark as usize - 1, number);
    }
    Ok(())
}

/// A sum for a row alone.
fn add_new(
    alloc: Global,
    table: &Table,
    hit: Found,
    key: usize,
    number: i64,
    gathered: &mut Vec<Group>,
) -> Result<(), AllocError>
    requires row { IsTrue (is_row table.now.stages.columns (row_at table.now.stages hit.place)) }
    requires key { key < length table.now.stages.columns }
    ensures { OnOk result (gathered.new.items ≡ gathered.old.items ++ record { key = cell table.now.stages key hit; sum = number } ∷ []) }
{
    let key = value_at(alloc, table, hit, key)?;
    let sum = i128::from(number);
    gathered.push(Group { key, sum })?;
    Ok(())
}

/// Adds a number to one of the sums.
fn add_more(gathered: &mut Vec<Group>, place: usize, number: i64)
    requires place { place < length gathered.old.items }
    requires few { AreFew 2147483647 gathered.old.items }
    ensures { gathered.new.items ≡ more_at place number gathered.old.items }
{
    gathered[place].sum += i128::from(number);
}

/// The sums of equal keys together, in the order of the keys.
fn united(alloc: Global, gathered: Vec<Group>) -> Result<BTreeMap<Ranked, i128>, AllocError>
    requires { AreFew (2 ^ 31) gathered.items }
    ensures { IfOk result (λ sums. sums.entries ≡ tallies (map entry_in gathered.items)) }
{
    let mut sums = BTreeMap::new(alloc);
    for Group { key, sum } in gathered {
        add(&mut sums, Ranked::new(key), sum)?;
    }
    Ok(sums)
}

fn add(sums: &mut BTreeMap<Ranked, i128>, key: Ranked, number: i128) -> Result<(), AllocError>
    requires low { neg_ℤ (pos 85070591730234615865843651857942052864) ≤ℤ (number +ℤ sum_of key sums.old.entries) }
    requires high { (number +ℤ sum_of key sums.old.entries) ≤ℤ pos 85070591730234615865843651857942052864 }
    ensures { OnOk result (sums.new.entries ≡ added key number sums.old.entries) }
{
    let before = sums.get(&key).copied().unwrap_or(0);
    sums.insert(key, number + before)?;
    Ok(())
}

fn groups_of(alloc: Global, sums: BTreeMap<Ranked, i128>) -> Result<Seq<Group>, AllocError>
    ensures { IfOk result (λ said. said ≡ map as_group sums.entries) }
{
    let mut said = Seq::new(alloc);
    for (key, sum) in sums {
        let key = key.into_value();
        said.push(Group { key, sum })?;
    }
    Ok(said)
}
