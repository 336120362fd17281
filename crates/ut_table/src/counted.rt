//! The scan of the stages, with a counter for its steps.
ghost use Rattle.std.specs.Prelude.{◌≡◌, ◌<◌, ◌^◌, length, IfOk};
ghost use Rattle.std.specs.List.Sorted.{IsPermutation, IsNonDecreasingBy};
ghost use Rattle.ut_scan.specs.StageRows.{outside_asked, rows_asked, MayAsk};
ghost use Rattle.ut_scan.specs.Tallies.{TalliesAsked};

use std::alloc::{AllocError, Global};
use std::sync::ledger::{Blank, Ledger};
use ut_key::Steps;
use ut_scan::{Asked, CodeTally, Found, Stages, count, scan, tally};

/// What a scan finds, with a counter for its steps over a new ledger.
pub fn counted_scan<L: Ledger>(
    alloc: Global,
    stages: &Stages<'_>,
    asked: &Asked<'_>,
    blank: Blank,
) -> Result<Vec<Found>, AllocError>
    requires name { blank.name ≡ L.name }
    requires parts { blank.parts ≡ L.parts }
    requires positive { 0 < blank.parts }
    requires asked { MayAsk stages.now asked.now }
    ensures rows { IfOk result (λ found. IsPermutation (rows_asked asked.now stages.now) found.items) }
    ensures ascending { IfOk result (λ found. IsNonDecreasingBy (λ f. f.id) found.items) }
{
    let mut steps = Steps::<L>::new(blank);
    scan(alloc, stages, asked, &mut steps)
}

/// How many rows a scan finds, with a counter for its steps over a new ledger.
pub fn counted_rows<L: Ledger>(
    alloc: Global,
    stages: &Stages<'_>,
    asked: &Asked<'_>,
    blank: Blank,
) -> Result<u64, AllocError>
    requires name { blank.name ≡ L.name }
    requires parts { blank.parts ≡ L.parts }
    requires positive { 0 < blank.parts }
    requires asked { MayAsk stages.now asked.now }
    ensures { IfOk result (λ count. count ≡ length (rows_asked asked.now stages.now)) }
{
    let mut steps = Steps::<L>::new(blank);
    count(alloc, stages, asked, &mut steps)
}

/// What a scan finds, by the codes of a column, with a counter for its steps over a new ledger.
pub fn counted_tally<L: Ledger>(
    alloc: Global,
    stages: &Stages<'_>,
    asked: &Asked<'_>,
    column: u8,
    blank: Blank,
) -> Result<CodeTally, AllocError>
    requires name { blank.name ≡ L.name }
    requires parts { blank.parts ≡ L.parts }
    requires positive { 0 < blank.parts }
    requires asked { MayAsk stages.now asked.now }
    requires column { column < stages.now.l2.now.width }
    ensures counts { IfOk result (λ t. TalliesAsked asked.now stages.now column t.counts.items) }
    ensures few { IfOk result (λ t. length t.counts.items < 2 ^ 31) }
    ensures rest { IfOk result (λ t. t.rest.items ≡ outside_asked asked.now stages.now) }
{
    let mut steps = Steps::<L>::new(blank);
    tally(alloc, stages, asked, column, &mut steps)
}
