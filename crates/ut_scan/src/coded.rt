//! Comparisons of main's columns as ranges of codes.
ghost use Rattle.std.specs.Prelude.{◌≡◌, ℕ, ◌+◌, ◌^◌, ◌<◌, ◌≤◌, ◌||◌, [], length, get_or, All, IfOk, OnOk};
ghost use Rattle.std.specs.List.Sorted.{IsPermutation};
ghost use Rattle.ut_bits.specs.Places.{is_in};
ghost use Rattle.ut_prefix.specs.Chain.{chain_steps, end_to_end};
ghost use Rattle.ut_main.specs.Columns.{AreDistinct};
ghost use Rattle.ut_main.specs.Parts.{dicts_behind};
ghost use Rattle.ut_scan.specs.Coded.{is_between, keys_in, AreCoded, AreRanges, IsCoded};
ghost use Rattle.ut_scan.specs.StageRows.{scan_steps};

use crate::place::ColumnPred;
use std::alloc::{AllocError, Global};
use std::sync::ledger::Ledger;
use ut_key::{Cmp, CodeRange, Steps};
use ut_main::Main;
use ut_prefix::DictChain;

/// A comparison of a column of main. The codes count through the dictionaries of all parts, so
/// that the ranges hold for each of them.
#[derive(Drop)]
pub struct CodedPred {
    pub column: u8,
    /// The codes whose key meets it.
    pub ranges: Vec<CodeRange>,
    /// How many of the column's codes these are, in parts of 2^32.
    pub share: u64,
}

/// The comparisons of main by codes, those that let the least share of the codes through first.
pub fn coded_preds<L: Ledger>(
    alloc: Global,
    main: &Main,
    preds: &[ColumnPred],
    steps: &mut Steps<L>,
) -> Result<Vec<CodedPred>, AllocError>
    requires parts { 0 < length main.now.parts }
    requires columns { All (λ p. p.column < main.now.width) preds.now }
    ensures coded { IfOk result (λ coded. AreCoded main.now preds.now coded.items) }
    ensures cost { steps.new ≤ steps.old + scan_steps main.now preds.now }
{
    let mut coded = Vec::with_capacity(alloc, preds.len())?;
    for pred in preds {
        coded.push(coded_pred(alloc, main, pred, steps)?)?;
    }
    order_by_share(coded.as_mut_slice());
    Ok(coded)
}

/// Those that let the least share of the codes through come first.
fn order_by_share(coded: &mut [CodedPred])
    ensures { IsPermutation coded.old coded.new }
{
    coded.sort_unstable_by_key(
        |pred| -> u64
            ensures { result ≡ pred.now.share }
        { pred.share },
    );
}

/// The comparison by codes.
fn coded_pred<L: Ledger>(
    alloc: Global,
    main: &Main,
    pred: &ColumnPred,
    steps: &mut Steps<L>,
) -> Result<CodedPred, AllocError>
    requires parts { 0 < length main.now.parts }
    requires column { pred.now.column < main.now.width }
    ensures coded { IfOk result (λ coded.
        IsCoded (keys_in main.now pred.now.column) pred.now coded) }
    ensures cost { let chain = get_or (dicts_behind main.now) pred.now.column [] in
        steps.new ≤ steps.old + chain_steps chain }
{
    let chain = all_dicts(main, pred.column);
    let reach = chain.len();
    let ranges = match pred.op {
        Cmp::Eq => range_of(alloc, chain, pred, steps)?,
        _ => ranges_of(alloc, chain, pred, steps)?,
    };
    let share = share(ranges.as_slice(), reach);
    Ok(CodedPred {
        column: pred.column,
        ranges,
        share,
    })
}

/// The dictionaries of a column in all parts.
pub fn all_dicts(main: &Main, column: u8) -> &DictChain
    requires parts { 0 < length main.now.parts }
    requires column { column < main.now.width }
    ensures chain { result.now ≡ get_or (dicts_behind main.now) column [] }
    ensures distinct { AreDistinct (end_to_end result.now) }
{
    main.part(main.parts() - 1).chain(column)
}

/// The range of the code of an equality's key: none where no dictionary holds the key.
fn range_of<L: Ledger>(
    alloc: Global,
    chain: &DictChain,
    pred: &ColumnPred,
    steps: &mut Steps<L>,
) -> Result<Vec<CodeRange>, AllocError>
    requires equality { pred.now.op ≡ Cmp.Eq }
    requires distinct { AreDistinct (end_to_end chain.now) }
    requires few { length (end_to_end chain.now) < 2 ^ 31 }
    ensures exact { IfOk result (λ ranges.
        AreRanges (end_to_end chain.now) pred.now ranges.items) }
    ensures cost { steps.new ≤ steps.old + chain_steps chain.now }
{
    let Some(code) = chain.find(pred.key.as_slice(), steps) else {
        return Ok(Vec::new(alloc));
    };
    let mut ranges = Vec::new(alloc);
    ranges.push((code, code + 1))?;
    Ok(ranges)
}

/// The ranges of the codes whose key meets the comparison, as few as hold them.
fn ranges_of<L: Ledger>(
    alloc: Global,
    chain: &DictChain,
    pred: &ColumnPred,
    steps: &mut Steps<L>,
) -> Result<Vec<CodeRange>, AllocError>
    ensures exact { IfOk result (λ ranges.
        AreRanges (end_to_end chain.now) pred.now ranges.items) }
    ensures cost { steps.new ≤ steps.old + chain_steps chain.now }
{
    let mut found = Vec::new(alloc);
    chain.ranges(pred.op, pred.key.as_slice(), &mut found, steps)?;
    let mut ranges = Vec::new(alloc);
    for range in &found {
        add_range(&mut ranges, *range)?;
    }
    Ok(ranges)
}

/// Adds a range: an empty one is left out, and one that begins where the last ends is joined to it.
fn add_range(ranges: &mut Vec<CodeRange>, range: CodeRange) -> Result<(), AllocError>
    ensures { OnOk result ((code : ℕ) →
        is_in ranges.new.items code ≡ (is_in ranges.old.items code || is_between range code)) }
{
    if range.1 <= range.0 {
        return Ok(());
    }
    let Some(last) = ranges.pop() else {
        ranges.push(range)?;
        return Ok(());
    };
    if last.0 <= last.1 && last.1 == range.0 {
        ranges.push((last.0, range.1))?;
        return Ok(());
    }
    ranges.push(last)?;
    ranges.push(range)?;
    Ok(())
}

/// How many of `reach` codes ranges hold, in parts of 2^32.
fn share(ranges: &[CodeRange], reach: u32) -> u64 {
    let mut held = 0u64;
    for range in ranges {
        held = held.saturating_add(u64::from(range.1.saturating_sub(range.0)));
    }
    held.saturating_mul(1 << 32) / u64::from(reach).max(1)
}

/// Those of the ranges that a code below `reach` may stand in.
pub fn below(ranges: &[CodeRange], reach: u32) -> &[CodeRange]
    ensures { (code : ℕ) → code < reach → is_in result.now code ≡ is_in ranges.now code }
{
    let mut n = ranges.len();
    while n > 0 && reach <= ranges[n - 1].0 {
        n -= 1;
    }
    &ranges[..n]
}
