//! The list of rows.
ghost use Rattle.std.specs.Prelude.{◌≡◌, ◌+◌, ◌^◌, ◌<◌, ◌≤◌, ◌++◌, [], ◌∷◌, List, ℕ, length, map, take, get_or, slice_index_or, vec_len, vec_capacity, All, IfOk, OnOk, OnErr};
ghost use Rattle.ut_l2.specs.KeyRows.{KeyRow, keyed};
ghost use Rattle.ut_key.specs.Keys.{meets};
ghost use Rattle.ut_unsorted.specs.FirstSeen.{key_eq, first_seen};
ghost use Rattle.ut_l2.specs.KeyRows.{cells_at, no_row};
ghost use Rattle.ut_l2.specs.Sources.{AreFlat, cells_in, count_in, HasColumn, IsSource};
ghost use Rattle.ut_value.specs.declared.value.Row.{Row};
ghost use Rattle.std.specs.List.{range_with_len};
ghost use Rattle.ut_l2.specs.Cells.{cells_of};
ghost use Rattle.ut_l2.specs.Places.{places_where};

use crate::column::Column;
use crate::source::Source;
use std::alloc::{AllocError, Global};
use std::marker::Model;
use std::sync::ledger::Ledger;
use ut_key::{Cmp, Key, Steps};
use ut_unsorted::UnsortedDict;
use ut_value::{Row, Value};

/// So many rows at a time go into one column after the other, while their values are at hand in the processor's cache.
const PIECE: usize = 256;

/// Rows, held column by column.
#[derive(Drop)]
pub struct L2 {
    ids: Vec<u32>,
    columns: Vec<Column>,
}

impl Model for L2 {
    ghost use Rattle.std.specs.Prelude.{length};
    ghost use Rattle.ut_l2.specs.Delta.{Delta, IsDelta, rows_of};

    ghost Value = { Delta };

    ghost view = { λ l. record { width = length l.columns.items; rows = rows_of l.ids.items l.columns.items } };

    ghost invariant = { λ l. IsDelta l.ids.items l.columns.items };
}

// Appends the keys of n rows from one on to the columns from `first` on: to each or to none.
fn append_from(
    columns: &mut Vec<Column>,
    first: usize,
    source: Source<'_>,
    from: usize,
    n: usize,
) -> Result<(), AllocError>
    requires first { first ≤ length columns.old.items }
    requires wide { (j : ℕ) → j < length columns.old.items → HasColumn source j }
    requires rows { from + n ≤ count_in source }
    requires count { (j : ℕ) → first ≤ j → j < length columns.old.items → length (get_or columns.old.items j []) + n ≤ 2 ^ 31 }
    ensures width { length columns.new.items ≡ length columns.old.items }
    ensures earlier { (j : ℕ) → j < first → get_or columns.new.items j [] ≡ get_or columns.old.items j [] }
    ensures ok { OnOk result ((j : ℕ) → first ≤ j → j < length columns.old.items → get_or columns.new.items j [] ≡ get_or columns.old.items j [] ++ cells_in source.entry j from n) }
    ensures err { OnErr result (columns.new.items ≡ columns.old.items) }
{
    if first == columns.len() {
        return Ok(());
    }
    let column = &mut columns[first];
    let before = column.len();
    column.append(source, first, from, n)?;
    match append_from(columns, first + 1, source, from, n) {
        Ok(()) => Ok(()),
        Err(failed) => {
            columns[first].cut(before);
            Err(failed)
        }
    }
}

// Keeps the first n cells of the columns from `first` on.
fn cut_from(columns: &mut Vec<Column>, first: usize, n: u32)
    requires first { first ≤ length columns.old.items }
    requires long { (j : ℕ) → first ≤ j → j < length columns.old.items → n ≤ length (get_or columns.old.items j []) }
    ensures width { length columns.new.items ≡ length columns.old.items }
    ensures earlier { (j : ℕ) → j < first → get_or columns.new.items j [] ≡ get_or columns.old.items j [] }
    ensures cut { (j : ℕ) → first ≤ j → j < length columns.old.items → get_or columns.new.items j [] ≡ take n (get_or columns.old.items j []) }
{
    if first == columns.len() {
        return;
    }
    columns[first].cut(n);
    cut_from(columns, first + 1, n);
}

// Appends the rows' keys to columns of so many cells each, some rows at a time: to each column or to none.
fn append_pieces(
    columns: &mut Vec<Column>,
    before: u32,
    source: Source<'_>,
) -> Result<(), AllocError>
    requires is { IsSource source }
    requires wide { (j : ℕ) → j < length columns.old.items → HasColumn source j }
    requires equal { (j : ℕ) → j < length columns.old.items → length (get_or columns.old.items j []) ≡ before }
    requires count { before + count_in source ≤ 2 ^ 31 }
    ensures width { length columns.new.items ≡ length columns.old.items }
    ensures ok { OnOk result ((j : ℕ) → j < length columns.old.items → get_or columns.new.items j [] ≡ get_or columns.old.items j [] ++ cells_in source.entry j 0 (count_in source.entry)) }
    ensures err { OnErr result (columns.new.items ≡ columns.old.items) }
{
    let count = source.len();
    let mut at = 0;
    while at < count {
        let n = PIECE.min(count - at);
        match append_from(columns, 0, source, at, n) {
            Ok(()) => {}
            Err(failed) => {
                cut_from(columns, 0, before);
                return Err(failed);
            }
        }
        at += n;
    }
    Ok(())
}

// Appends the rows' ids.
fn append_ids(ids: &mut Vec<u32>, rows: &[Row])
    requires { vec_len ids.old + length rows.now ≤ vec_capacity ids.old }
    ensures { ids.new.items ≡ ids.old.items ++ map (λ r. r.id) rows.now }
{
    for row in rows {
        ids.push_reserved(row.id);
    }
}

// Appends n ids from one on.
fn append_numbers(ids: &mut Vec<u32>, first: u32, n: u32)
    requires room { vec_len ids.old + n ≤ vec_capacity ids.old }
    requires ids { first + n ≤ 2 ^ 32 }
    ensures { ids.new.items ≡ ids.old.items ++ range_with_len first n }
{
    for i in 0..n {
        ids.push_reserved(first + i);
    }
}

impl L2 {
    /// No rows, of so many columns.
    pub fn new(alloc: Global, columns: u8) -> Result<Self, AllocError>
        ensures { IfOk result (λ l. (l.width ≡ columns) × (l.rows ≡ [])) }
    {
        let mut list = Vec::with_capacity(alloc, usize::from(columns))?;
        for _ in 0..columns {
            list.push(Column::new(alloc))?;
        }
        Ok(L2 {
            ids: Vec::new(alloc),
            columns: list,
        })
    }

    /// Appends all the rows, or none.
    pub fn append(&mut self, rows: &[Row]) -> Result<(), AllocError>
        requires wide { All (λ r. length r.values ≡ self.old.width) rows.now }
        requires count { length self.old.rows + length rows.now ≤ 2 ^ 31 }
        ensures width { self.new.width ≡ self.old.width }
        ensures ok { OnOk result (self.new.rows ≡ self.old.rows ++ map keyed rows.now) }
        ensures err { OnErr result (self.new.rows ≡ self.old.rows) }
    {
        let before = self.len();
        self.ids.reserve(rows.len())?;
        append_pieces(&mut self.columns, before, Source::Rows(rows))?;
        append_ids(&mut self.ids, rows);
        Ok(())
    }

    /// Appends the rows that these values are, one row's behind the other's, under the ids from one on: all or none.
    pub fn append_values(&mut self, first_id: u32, values: &[Value]) -> Result<(), AllocError>
        ghost rows: { List Row }
        requires are { AreFlat rows first_id self.old.width values.now }
        requires width { 0 < self.old.width }
        requires ids { first_id + length rows ≤ 2 ^ 32 }
        requires count { length self.old.rows + length rows ≤ 2 ^ 31 }
        ensures width { self.new.width ≡ self.old.width }
        ensures ok { OnOk result (self.new.rows ≡ self.old.rows ++ map keyed rows) }
        ensures err { OnErr result (self.new.rows ≡ self.old.rows) }
    {
        let before = self.len();
        let source = Source::Flat(self.columns.len(), values);
        let count = source.len();
        self.ids.reserve(count)?;
        append_pieces(&mut self.columns, before, source)?;
        append_numbers(&mut self.ids, first_id, count as u32);
        Ok(())
    }

    pub fn len(&self) -> u32
        ensures len { result ≡ length self.now.rows }
        ensures few { length self.now.rows ≤ 2 ^ 31 }
        ensures wide { All (λ row. length row.keys ≡ self.now.width) self.now.rows }
    {
        self.ids.as_slice().len() as u32
    }

    pub fn row_id(&self, i: u32) -> u32
        requires { i < length self.now.rows }
        ensures { result ≡ (get_or self.now.rows i no_row).id }
    {
        self.ids[i as usize]
    }

    // A column.
    fn column(&self, column: u8) -> &Column
        requires { column < self.now.width }
        ensures { result.now ≡ cells_at column self.now.rows }
    {
        &self.columns[usize::from(column)]
    }

    /// The keys of a column, in first-seen order.
    pub fn dict(&self, column: u8) -> &UnsortedDict
        requires { column < self.now.width }
        ensures keys { result.now ≡ first_seen (cells_at column self.now.rows) }
        ensures few { length result.now ≤ 2 ^ 31 }
    {
        self.column(column).dict()
    }

    pub fn code(&self, column: u8, i: u32) -> u32
        requires column { column < self.now.width }
        requires place { i < length self.now.rows }
        ensures within { result < length (first_seen (cells_at column self.now.rows)) }
        ensures key { slice_index_or (first_seen (cells_at column self.now.rows)) result [] ≡ slice_index_or (cells_at column self.now.rows) i [] }
    {
        self.column(column).code(i)
    }

    /// The code of each row in a column.
    pub fn codes(&self, column: u8) -> &[u32]
        requires { column < self.now.width }
        ensures within { All (λ c. c < length (first_seen (cells_at column self.now.rows))) result.now }
        ensures keys { cells_of (first_seen (cells_at column self.now.rows)) result.now ≡ cells_at column self.now.rows }
    {
        self.column(column).codes()
    }

    /// The key of a row in a column. This is one step.
    pub fn key<L: Ledger>(&self, column: u8, i: u32, steps: &mut Steps<L>) -> Key
        requires column { column < self.now.width }
        requires place { i < length self.now.rows }
        ensures key { result ≡ slice_index_or (cells_at column self.now.rows) i [] }
        ensures step { steps.new ≡ steps.old + 1 }
    {
        let code = self.code(column, i);
        self.dict(column).key(code, steps)
    }

    /// The bytes of the key of a row in a column.
    pub fn bytes(&self, column: u8, i: u32) -> &[u8]
        requires column { column < self.now.width }
        requires place { i < length self.now.rows }
        ensures { result.now ≡ slice_index_or (cells_at column self.now.rows) i [] }
    {
        self.column(column).bytes(i)
    }

    /// The places with a key in a column, ascending.
    pub fn places(&self, column: u8, key: &[u8]) -> &[u32]
        requires { column < self.now.width }
        ensures { result.now ≡ places_where (key_eq key.now) (cells_at column self.now.rows) }
    {
        self.column(column).places(key)
    }

    /// Appends the codes whose key meets the comparison, ascending.
    pub fn codes_where(
        &self,
        column: u8,
        op: Cmp,
        key: &[u8],
        out: &mut Vec<u32>,
    ) -> Result<(), AllocError>
        requires { column < self.now.width }
        ensures ok { OnOk result (out.new.items ≡ out.old.items ++ places_where (meets op key.now) (first_seen (cells_at column self.now.rows))) }
        ensures err { OnErr result (out.new.items ≡ out.old.items) }
    {
        dict_codes(self.column(column).dict(), op, key, out)
    }
}

// Appends the codes whose key meets the comparison, ascending.
fn dict_codes(
    dict: &UnsortedDict,
    op: Cmp,
    key: &[u8],
    out: &mut Vec<u32>,
) -> Result<(), AllocError>
    requires { length dict.now ≤ 2 ^ 31 }
    ensures ok { OnOk result (out.new.items ≡ out.old.items ++ places_where (meets op key.now) dict.now) }
    ensures err { OnErr result (out.new.items ≡ out.old.items) }
{
    let start = out.as_slice().len();
    for code in 0..dict.len() {
        if op.is_met(dict.bytes(code), key) {
            match out.push(code) {
                Ok(()) => {}
                Err(failed) => {
                    out.truncate(start);
                    return Err(AllocError::from(failed));
                }
            }
        }
    }
    Ok(())
}
