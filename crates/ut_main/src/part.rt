//! A part of main.
ghost use Rattle.std.specs.Prelude.{◌≡◌, ◌+◌, ◌<◌, ◌≤◌, [], length, map, get_or, slice_index_or};
ghost use Rattle.std.specs.Arc.{arc_value};
ghost use Rattle.ut_own.specs.Own.{own_dict};
ghost use Rattle.ut_prefix.specs.Chain.{end_to_end};
ghost use Rattle.ut_l2.specs.KeyRows.{cells_at, no_row};
ghost use Rattle.ut_main.specs.Columns.{vector_of, AreDistinct};
ghost use Rattle.ut_main.specs.Spelling.{columns_of};
ghost use Rattle.ut_main.specs.Parts.{part_chain, part_value, AreWide, IsPart};

use crate::column::CodedColumn;
use std::marker::Model;
use std::sync::Arc;
use std::sync::ledger::Ledger;
use ut_codes::CodeVec;
use ut_key::{Key, Steps};
use ut_prefix::{DictChain, PrefixDict};

/// Rows in columns, with the dictionaries that the columns' codes count through. It never changes.
#[derive(Drop)]
pub struct Part {
    ids: Vec<u32>,
    columns: Vec<CodedColumn>,
}

impl Model for Part {
    ghost use Rattle.ut_main.specs.Parts.{part_value, IsPart, PartValue};

    ghost Value = { PartValue };

    ghost view = { λ p. part_value p.ids.items p.columns.items };

    ghost invariant = { λ p. IsPart p.ids.items p.columns.items };
}

impl Part {
    /// The part of ids and columns, a cell in each column for each id.
    pub fn of(ids: Vec<u32>, columns: Vec<CodedColumn>) -> Self
        requires { IsPart ids.items columns.items }
        ensures { result ≡ part_value ids.items columns.items }
    {
        Part { ids, columns }
    }

    pub(crate) fn ids(&self) -> &[u32]
        ensures ids { result.now ≡ map (λ r. r.id) self.now.rows }
        ensures few { length result.now ≤ 2147483647 }
    {
        &self.ids
    }

    pub(crate) fn columns(&self) -> &[CodedColumn]
        ensures { result.now ≡ columns_of self.now }
    {
        &self.columns
    }

    /// How many rows there are.
    pub fn len(&self) -> u32
        ensures len { result ≡ length self.now.rows }
        ensures few { result ≤ 2147483647 }
        ensures wide { AreWide (length self.now.before) self.now.rows }
    {
        self.ids.as_slice().len() as u32
    }

    pub fn row_id(&self, i: u32) -> u32
        requires { i < length self.now.rows }
        ensures { result ≡ (get_or self.now.rows i no_row).id }
    {
        self.ids[i as usize]
    }

    /// The key of a row in a column. This is one step.
    pub fn key<L: Ledger>(&self, column: u8, i: u32, steps: &mut Steps<L>) -> Key
        requires column { column < length self.now.before }
        requires place { i < length self.now.rows }
        ensures key { result ≡ slice_index_or (cells_at column self.now.rows) i [] }
        ensures step { steps.new ≡ steps.old + 1 }
    {
        self.columns[column as usize].key(i, steps)
    }

    /// A column's own dictionary: the keys of its rows that no part before has in this column.
    pub fn dict(&self, column: u8) -> &Arc<PrefixDict>
        requires { column < length self.now.before }
        ensures { let before = get_or self.now.before column [] in
            arc_value result.now ≡ own_dict (end_to_end before) (cells_at column self.now.rows) }
    {
        self.columns[column as usize].dict()
    }

    /// The dictionaries that a column's codes count through, its own one last.
    pub fn chain(&self, column: u8) -> &DictChain
        requires { column < length self.now.before }
        ensures chain { result.now ≡ part_chain column self.now }
        ensures distinct { AreDistinct (end_to_end result.now) }
    {
        self.columns[column as usize].chain()
    }

    /// A column's codes: the places of its keys among those of its dictionaries.
    pub fn codes(&self, column: u8) -> &CodeVec
        requires { column < length self.now.before }
        ensures { let before = get_or self.now.before column [] in
            result.now ≡ vector_of before (cells_at column self.now.rows) }
    {
        self.columns[column as usize].codes()
    }
}
