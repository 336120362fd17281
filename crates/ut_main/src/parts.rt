//! Main: parts, each behind the dictionaries of those before it.
ghost use Rattle.std.specs.Prelude.{◌≡◌, ◌+◌, ◌<◌, ◌≤◌, ◌++◌, [], ◌∷◌, length, get_or, IfOk, OnOk, OnErr};
ghost use Rattle.std.specs.Arc.{arc_value};
ghost use Rattle.ut_own.specs.Own.{cells_of};
ghost use Rattle.ut_prefix.specs.Chain.{end_to_end};
ghost use Rattle.ut_main.specs.Columns.{AreDistinct, StandsBehind};
ghost use Rattle.ut_main.specs.Parts.{dicts_behind, first_parts, rows_in};

use crate::column::CodedColumn;
use crate::part::Part;
use std::alloc::{AllocError, Global};
use std::marker::Model;
use std::sync::Arc;
use ut_codes::CodeVec;
use ut_prefix::{DictChain, PrefixDict};

/// At most eight parts of the same columns, of at most 2^31 - 1 rows together.
#[derive(Drop)]
pub struct Main {
    width: u8,
    parts: Vec<Arc<Part>>,
}

impl Model for Main {
    ghost use Rattle.ut_main.specs.Parts.{main_value, shared_parts, IsMain, MainValue};

    ghost Value = { MainValue };

    ghost view = { λ m. main_value m.width (shared_parts m.parts.items) };

    ghost invariant = { λ m. IsMain m.width (shared_parts m.parts.items) };
}

impl Main {
    /// No parts, of so many columns.
    pub fn new(alloc: Global, columns: u8) -> Self
        ensures { result ≡ record { width = columns; parts = [] } }
    {
        Main {
            width: columns,
            parts: Vec::new(alloc),
        }
    }

    /// Adds a part that was made behind these.
    pub fn push(&mut self, part: Arc<Part>) -> Result<(), AllocError>
        requires fewer { length self.old.parts < 8 }
        requires behind { (arc_value part).before ≡ dicts_behind self.old }
        requires few { rows_in self.old + length (arc_value part).rows ≤ 2147483647 }
        ensures ok { OnOk result (
            self.new ≡ record self.old { parts = self.old.parts ++ (arc_value part).rows ∷ [] }) }
        ensures err { OnErr result (self.new ≡ self.old) }
    {
        self.parts.push(part)?;
        Ok(())
    }

    /// The first parts, shared.
    pub fn first(&self, alloc: Global, n: u8) -> Result<Main, AllocError>
        requires { n ≤ length self.now.parts }
        ensures { IfOk result (λ main. main ≡ first_parts n self.now) }
    {
        let mut parts = Vec::with_capacity(alloc, n as usize)?;
        let first = &self.parts[..n as usize];
        for part in first {
            parts.push(Arc::try_clone(part)?)?;
        }
        Ok(Main {
            width: self.width,
            parts,
        })
    }

    /// How many columns there are.
    pub fn width(&self) -> u8
        ensures { result ≡ self.now.width }
    {
        self.width
    }

    /// How many parts there are.
    pub fn parts(&self) -> u8
        ensures count { result ≡ length self.now.parts }
        ensures few { result ≤ 8 }
        ensures rows { rows_in self.now ≤ 2147483647 }
    {
        self.parts.as_slice().len() as u8
    }

    /// How many rows the parts have.
    pub fn rows(&self) -> u32
        ensures rows { result ≡ rows_in self.now }
        ensures few { result ≤ 2147483647 }
    {
        let mut rows = 0;
        let parts = self.parts.as_slice();
        for part in parts {
            rows += part.len();
        }
        rows
    }

    pub fn part(&self, p: u8) -> &Arc<Part>
        requires { p < length self.now.parts }
        ensures rows { (arc_value result.now).rows ≡ get_or self.now.parts p [] }
        ensures before { (arc_value result.now).before ≡ dicts_behind (first_parts p self.now) }
    {
        &self.parts[p as usize]
    }

    /// The dictionaries of a column up to part `p`.
    pub fn chain(&self, column: u8, p: u8) -> &DictChain
        requires column { column < self.now.width }
        requires part { p < length self.now.parts }
        ensures { let main = first_parts (p + 1) self.now in
            result.now ≡ get_or (dicts_behind main) column [] }
    {
        self.parts[p as usize].chain(column)
    }

    /// The dictionaries of a column in all parts.
    pub fn dicts(&self, alloc: Global, column: u8) -> Result<DictChain, AllocError>
        requires { column < self.now.width }
        ensures dicts { IfOk result (λ chain. chain ≡ get_or (dicts_behind self.now) column []) }
        ensures distinct { IfOk result (λ chain. AreDistinct (end_to_end chain)) }
        ensures few { IfOk result (λ chain. length (end_to_end chain) ≤ rows_in self.now) }
    {
        let mut chain = DictChain::new(alloc);
        let parts = self.parts.as_slice();
        for part in parts {
            chain.push(Arc::try_clone(part.dict(column))?)?;
        }
        Ok(chain)
    }

    /// A column of a new part behind these, of its own dictionary and its codes.
    pub fn column(
        &self,
        alloc: Global,
        column: u8,
        dict: Arc<PrefixDict>,
        codes: CodeVec,
    ) -> Result<CodedColumn, AllocError>
        requires column { column < self.now.width }
        requires behind { let before = get_or (dicts_behind self.now) column [] in
            StandsBehind before (arc_value dict) codes }
        requires few { rows_in self.now + length codes.codes ≤ 2147483647 }
        ensures before { IfOk result (λ c. c.before ≡ get_or (dicts_behind self.now) column []) }
        ensures cells { let before = get_or (dicts_behind self.now) column [] in
            IfOk result (λ c.
            c.cells ≡ cells_of (end_to_end (before ++ arc_value dict ∷ [])) codes.codes) }
    {
        let mut chain = self.dicts(alloc, column)?;
        chain.push(Arc::try_clone(&dict)?)?;
        Ok(CodedColumn::of(dict, chain, codes))
    }
}
