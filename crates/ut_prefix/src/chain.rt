//! Dictionaries laid end to end.
ghost use Rattle.std.specs.Prelude.{◌≡◌, [], ◌∷◌, ◌+◌, ◌*◌, ◌^◌, ◌<◌, ◌≤◌, ◌++◌, ◌↔◌, length, take, slice_get, slice_index_or, Contains, IsNone, IsTrue, IfOk, IfSome, OnOk, OnErr, pos, neg_ℤ, ◌≤ℤ◌};
ghost use Rattle.std.specs.Arc.{arc_value};
ghost use Rattle.ut_prefix.specs.Chain.{chain_steps, end_to_end, ranges_between, shared_dicts, AddsRanges, IsChain, LacksAll};
ghost use Rattle.ut_prefix.specs.Totals.{weighed, IsWithin};

use crate::dict::PrefixDict;
use std::alloc::{AllocError, Global};
use std::marker::Model;
use std::sync::Arc;
use std::sync::ledger::Ledger;
use ut_key::{Cmp, CodeRange, Key, Steps};

/// Dictionaries that hold no key twice. A code is a place among all their keys, those of earlier
/// dictionaries first.
#[derive(Drop)]
pub struct DictChain {
    dicts: Vec<Arc<PrefixDict>>,
    len: u32,
}

impl Model for DictChain {
    ghost use Rattle.std.specs.Prelude.{◌≡◌, List, ℕ, length};
    ghost use Rattle.ut_prefix.specs.Chain.{end_to_end, shared_dicts, IsChain};

    ghost Value = { List (List (List ℕ)) };

    ghost view = { λ c. shared_dicts c.dicts.items };

    ghost invariant = { λ c. IsChain (shared_dicts c.dicts.items)
        × (c.len ≡ length (end_to_end (shared_dicts c.dicts.items))) };
}

/// The key at a place among all keys.
fn key_in<L: Ledger>(dicts: &[Arc<PrefixDict>], code: u32, steps: &mut Steps<L>) -> Key
    requires { code < length (end_to_end (shared_dicts dicts.now)) }
    ensures key { result ≡ slice_index_or (end_to_end (shared_dicts dicts.now)) code [] }
    ensures step { steps.new ≡ steps.old + 1 }
{
    let mut place = code;
    let mut dict = 0;
    while place >= dicts[dict].len() {
        place -= dicts[dict].len();
        dict += 1;
    }
    dicts[dict].get(place, steps)
}

/// The place of a key among all keys.
fn find_in<L: Ledger>(dicts: &[Arc<PrefixDict>], key: &[u8], steps: &mut Steps<L>) -> Option<u32>
    requires { length (end_to_end (shared_dicts dicts.now)) < 2 ^ 31 }
    ensures found { let keys = end_to_end (shared_dicts dicts.now) in
        IfSome result (λ code. slice_get keys code ≡ Some key.now) }
    ensures absent { IsNone result ↔ ¬ Contains (end_to_end (shared_dicts dicts.now)) key.now }
    ensures cost { steps.new ≤ steps.old + chain_steps (shared_dicts dicts.now) }
{
    let mut start = 0;
    for dict in dicts {
        match dict.find(key, steps) {
            Some(place) => return Some(start + place),
            None => start += dict.len(),
        }
    }
    None
}

/// The sum of the numbers of all keys, each times its weight.
fn weighed_in(dicts: &[Arc<PrefixDict>], weights: &[u32]) -> i128
    requires { length (end_to_end (shared_dicts dicts.now)) < 2 ^ 31 }
    ensures sum { result ≡ weighed weights.now (end_to_end (shared_dicts dicts.now)) }
    ensures within { IsWithin 79228162514264337593543950336
        (length (end_to_end (shared_dicts dicts.now))) result }
{
    let mut sum: i128 = 0;
    let mut left = weights;
    for dict in dicts {
        let (own, later) = left.split_at((dict.len() as usize).min(left.len()));
        sum += dict.weighed_total(own);
        left = later;
    }
    sum
}

/// The same dictionaries once more.
fn share(alloc: Global, dicts: &[Arc<PrefixDict>]) -> Result<Vec<Arc<PrefixDict>>, AllocError>
    ensures { IfOk result (λ shared. shared_dicts shared.items ≡ shared_dicts dicts.now) }
{
    let mut shared = Vec::with_capacity(alloc, dicts.len())?;
    for dict in dicts {
        shared.push(Arc::try_clone(dict)?)?;
    }
    Ok(shared)
}

/// Adds the range of codes from `from` up to and without `to`.
fn push_range(out: &mut Vec<CodeRange>, from: u32, to: u32) -> Result<(), AllocError>
    ensures ok { OnOk result (out.new.items ≡ out.old.items ++ (from, to) ∷ []) }
    ensures err { OnErr result (out.new.items ≡ out.old.items) }
{
    out.push((from, to))?;
    Ok(())
}

/// Adds the ranges of one dictionary, whose codes go from `start` up to `end`, those of an equal
/// key from `below` up to `above`.
fn push_ranges(
    out: &mut Vec<CodeRange>,
    op: Cmp,
    start: u32,
    below: u32,
    above: u32,
    end: u32,
) -> Result<(), AllocError>
    ensures ok { OnOk result (out.new.items ≡ out.old.items ++ ranges_between op start below above end) }
    ensures err { OnErr result (take (length out.old.items) out.new.items ≡ out.old.items) }
{
    match op {
        Cmp::Eq => push_range(out, below, above),
        Cmp::Ne => {
            push_range(out, start, below)?;
            push_range(out, above, end)
        }
        Cmp::Lt => push_range(out, start, below),
        Cmp::Le => push_range(out, start, above),
        Cmp::Gt => push_range(out, above, end),
        Cmp::Ge => push_range(out, below, end),
    }
}

/// Adds the ranges of all dictionaries. At a refusal some may have been added.
fn add_ranges<L: Ledger>(
    dicts: &[Arc<PrefixDict>],
    op: Cmp,
    key: &[u8],
    out: &mut Vec<CodeRange>,
    steps: &mut Steps<L>,
) -> Result<(), AllocError>
    requires { length (end_to_end (shared_dicts dicts.now)) < 2 ^ 31 }
    ensures ok { let chain = shared_dicts dicts.now in
        OnOk result (AddsRanges op key.now chain out.old.items out.new.items) }
    ensures err { OnErr result (take (length out.old.items) out.new.items ≡ out.old.items) }
    ensures cost { steps.new ≤ steps.old + chain_steps (shared_dicts dicts.now) }
{
    let mut start = 0;
    for dict in dicts {
        let split = dict.split(key, steps);
        let end = start + dict.len();
        push_ranges(
            out,
            op,
            start,
            start + split.below,
            start + split.above,
            end,
        )?;
        start = end;
    }
    Ok(())
}

impl DictChain {
    /// The chain of no dictionaries.
    pub fn new(alloc: Global) -> Self
        ensures { result ≡ [] }
    {
        DictChain {
            dicts: Vec::new(alloc),
            len: 0,
        }
    }

    /// Adds a dictionary behind the others.
    pub fn push(&mut self, dict: Arc<PrefixDict>) -> Result<(), AllocError>
        requires apart { LacksAll self.old (arc_value dict) }
        requires few { length (end_to_end self.old) + length (arc_value dict) < 2 ^ 31 }
        ensures ok { OnOk result (self.new ≡ self.old ++ arc_value dict ∷ []) }
        ensures err { OnErr result (self.new ≡ self.old) }
    {
        let len = self.len + dict.len();
        self.dicts.push(dict)?;
        self.len = len;
        Ok(())
    }

    /// The same chain once more. Its dictionaries are shared, not copied.
    pub fn again(&self, alloc: Global) -> Result<DictChain, AllocError>
        ensures { IfOk result (λ chain. chain ≡ self.now) }
    {
        let dicts = share(alloc, self.dicts.as_slice())?;
        Ok(DictChain {
            dicts,
            len: self.len,
        })
    }

    /// Whether none of a dictionary's keys is in the chain.
    pub fn lacks_all<L: Ledger>(&self, dict: &PrefixDict, steps: &mut Steps<L>) -> bool
        ensures lacks { IsTrue result ↔ LacksAll self.now dict.now }
        ensures cost { steps.new ≤ steps.old + length dict.now * (chain_steps self.now + 1) }
    {
        for code in 0..dict.len() {
            match self.find(dict.get(code, steps).as_slice(), steps) {
                Some(_) => return false,
                None => {}
            }
        }
        true
    }

    /// How many codes there are.
    pub fn len(&self) -> u32
        ensures len { result ≡ length (end_to_end self.now) }
        ensures chain { IsChain self.now }
    {
        self.len
    }

    /// The key of a code. This is one step.
    pub fn key<L: Ledger>(&self, code: u32, steps: &mut Steps<L>) -> Key
        requires { code < length (end_to_end self.now) }
        ensures key { result ≡ slice_index_or (end_to_end self.now) code [] }
        ensures step { steps.new ≡ steps.old + 1 }
    {
        key_in(self.dicts.as_slice(), code, steps)
    }

    /// The sum of the keys' numbers, each times its code's weight. Where a dictionary's weights are
    /// all the same its keys aren't read.
    pub fn weighed_total(&self, weights: &[u32]) -> i128
        ensures sum { result ≡ weighed weights.now (end_to_end self.now) }
        ensures low { neg_ℤ (pos 170141183381241069217422966122340155392) ≤ℤ result }
        ensures high { result ≤ℤ pos 170141183381241069217422966122340155392 }
    {
        weighed_in(self.dicts.as_slice(), weights)
    }

    /// The code of `key`, where a dictionary holds it. They are asked in order.
    pub fn find<L: Ledger>(&self, key: &[u8], steps: &mut Steps<L>) -> Option<u32>
        ensures found { IfSome result (λ code. slice_get (end_to_end self.now) code ≡ Some key.now) }
        ensures absent { IsNone result ↔ ¬ Contains (end_to_end self.now) key.now }
        ensures cost { steps.new ≤ steps.old + chain_steps self.now }
    {
        find_in(self.dicts.as_slice(), key, steps)
    }

    /// Appends the ranges of the codes whose key meets the comparison with `key`.
    pub fn ranges<L: Ledger>(
        &self,
        op: Cmp,
        key: &[u8],
        out: &mut Vec<CodeRange>,
        steps: &mut Steps<L>,
    ) -> Result<(), AllocError>
        ensures ok { OnOk result (AddsRanges op key.now self.now out.old.items out.new.items) }
        ensures err { OnErr result (out.new.items ≡ out.old.items) }
        ensures cost { steps.new ≤ steps.old + chain_steps self.now }
    {
        let start = out.len();
        match add_ranges(self.dicts.as_slice(), op, key, out, steps) {
            Ok(()) => Ok(()),
            Err(failed) => {
                out.truncate(start);
                Err(failed)
            }
        }
    }
}
