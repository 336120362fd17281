//! A column of a part.
ghost use Rattle.std.specs.Prelude.{◌≡◌, ◌+◌, ◌<◌, [], length, slice_index_or};
ghost use Rattle.std.specs.Arc.{arc_value};
ghost use Rattle.ut_own.specs.Own.{own_dict, cells_of};
ghost use Rattle.ut_prefix.specs.Chain.{end_to_end};
ghost use Rattle.ut_main.specs.Columns.{chain_of, earlier, vector_of, AreDistinct, IsColumn};

use std::marker::Model;
use std::sync::Arc;
use std::sync::ledger::Ledger;
use ut_codes::CodeVec;
use ut_key::{Key, Steps};
use ut_prefix::{DictChain, PrefixDict};

/// Codes that count through the dictionaries of the parts before, laid end to end, and then the
/// column's own.
pub struct CodedColumn {
    dict: Arc<PrefixDict>,
    chain: DictChain,
    codes: CodeVec,
}

// One step of a proof, wherever one is dropped.
impl Drop for CodedColumn {
    fn drop(self) {
        let CodedColumn {
            dict: _,
            chain: _,
            codes: _,
        } = self;
    }
}

impl Model for CodedColumn {
    ghost use Rattle.std.specs.Arc.{arc_value};
    ghost use Rattle.ut_own.specs.Own.{cells_of};
    ghost use Rattle.ut_prefix.specs.Chain.{end_to_end};
    ghost use Rattle.ut_main.specs.Columns.{earlier, ColumnValue, IsColumn};

    ghost Value = { ColumnValue };

    ghost view = { λ c.
        record { before = earlier c.chain; cells = cells_of (end_to_end c.chain) c.codes.codes } };

    ghost invariant = { λ c. IsColumn (arc_value c.dict) c.chain c.codes };
}

impl CodedColumn {
    /// The column of codes, of the dictionaries that they count through, and of the last of these.
    pub(crate) fn of(dict: Arc<PrefixDict>, chain: DictChain, codes: CodeVec) -> Self
        requires { IsColumn (arc_value dict) chain codes }
        ensures before { result.before ≡ earlier chain }
        ensures cells { result.cells ≡ cells_of (end_to_end chain) codes.codes }
    {
        CodedColumn { dict, chain, codes }
    }

    /// The dictionary of the keys that no part before has in this column.
    pub(crate) fn dict(&self) -> &Arc<PrefixDict>
        ensures { arc_value result.now ≡ own_dict (end_to_end self.now.before) self.now.cells }
    {
        &self.dict
    }

    /// The dictionaries that the codes count through.
    pub(crate) fn chain(&self) -> &DictChain
        ensures chain { result.now ≡ chain_of self.now.before self.now.cells }
        ensures distinct { AreDistinct (end_to_end result.now) }
    {
        &self.chain
    }

    pub(crate) fn codes(&self) -> &CodeVec
        ensures { result.now ≡ vector_of self.now.before self.now.cells }
    {
        &self.codes
    }

    /// The key of a row. This is one step.
    pub(crate) fn key<L: Ledger>(&self, i: u32, steps: &mut Steps<L>) -> Key
        requires { i < length self.now.cells }
        ensures key { result ≡ slice_index_or self.now.cells i [] }
        ensures step { steps.new ≡ steps.old + 1 }
    {
        self.chain.key(self.codes.get(i), steps)
    }
}
