//! The scan of a table.
ghost use Rattle.std.specs.Prelude.{◌≡◌, ◌+◌, ◌≤◌, ◌++◌, IfOk, OnOk};
ghost use Rattle.std.specs.List.Sorted.{IsPermutation, IsNonDecreasingBy};
ghost use Rattle.ut_scan.specs.Probes.{found_for};
ghost use Rattle.ut_scan.specs.StageRows.{outside_asked, rows_asked, rows_in, scan_steps, MayAsk};
ghost use Rattle.ut_stamps.specs.StampLists.{if_closed};

use crate::asked::Asked;
use crate::delta::scan_delta;
use crate::parts::scan_parts;
use crate::place::{Found, Place};
use crate::probe::DeltaStage;
use crate::rows::scan_rows;
use crate::stages::Stages;
use std::alloc::{AllocError, Global};
use std::sync::ledger::Ledger;
use ut_key::Steps;

/// The seen rows that meet each comparison, by ascending id.
pub fn scan<L: Ledger>(
    alloc: Global,
    stages: &Stages<'_>,
    asked: &Asked<'_>,
    steps: &mut Steps<L>,
) -> Result<Vec<Found>, AllocError>
    requires { MayAsk stages.now asked.now }
    ensures rows { IfOk result (λ found. IsPermutation (rows_asked asked.now stages.now) found.items) }
    ensures ascending { IfOk result (λ found. IsNonDecreasingBy (λ f. f.id) found.items) }
    ensures steps { steps.new ≤ steps.old + scan_steps stages.now.main.now asked.now.preds.now }
{
    let mut found = scan_outside(alloc, stages, asked)?;
    scan_parts(
        alloc,
        &asked.snapshot,
        asked.preds,
        stages.main,
        stages.stamps,
        &mut found,
        steps,
    )?;
    order_by_id(found.as_mut_slice());
    Ok(found)
}

/// The seen rows outside of main that meet each comparison.
pub fn scan_outside(
    alloc: Global,
    stages: &Stages<'_>,
    asked: &Asked<'_>,
) -> Result<Vec<Found>, AllocError>
    requires { MayAsk stages.now asked.now }
    ensures { IfOk result (λ found. found.items ≡ outside_asked asked.now stages.now) }
{
    let mut found = Vec::new(alloc);
    scan_delta(
        alloc,
        asked,
        DeltaStage::L2,
        stages.l2,
        stages.stamps.l2(),
        &mut found,
    )?;
    scan_rows(
        &asked.snapshot,
        asked.preds,
        stages.l1.rows(),
        stages.stamps.l1(),
        &mut found,
    )?;
    scan_closed(alloc, stages, asked, &mut found)?;
    Ok(found)
}

/// Appends the seen rows of the closed stage that meet each comparison, if there is such a stage.
fn scan_closed(
    alloc: Global,
    stages: &Stages<'_>,
    asked: &Asked<'_>,
    out: &mut Vec<Found>,
) -> Result<(), AllocError>
    requires { MayAsk stages.now asked.now }
    ensures { let rows = if_closed (rows_in stages.now).closed in
        let stamps = if_closed stages.now.stamps.now.closed in
        OnOk result (out.new.items ≡ out.old.items
        ++ found_for asked.now.snapshot asked.now.preds.now Place.Closed rows stamps) }
{
    let Some(l2) = stages.closed else {
        return Ok(());
    };
    let Some(stamps) = stages.stamps.closed() else {
        return Ok(());
    };
    scan_delta(alloc, asked, DeltaStage::Closed, l2, stamps, out)
}

/// Orders rows by their ids.
fn order_by_id(found: &mut [Found])
    ensures same { IsPermutation found.old found.new }
    ensures ascending { IsNonDecreasingBy (λ f. f.id) found.new }
{
    found.sort_unstable_by_key(
        |f| -> u32
            ensures { result ≡ f.now.id }
        { f.id },
    );
}
