//! How many rows a scan finds, without the list of them.
ghost use Rattle.std.specs.Prelude.{◌≡◌, ◌+◌, ◌≤◌, length, IfOk};
ghost use Rattle.ut_scan.specs.Probes.{found_for};
ghost use Rattle.ut_scan.specs.StageRows.{rows_asked, rows_in, scan_steps, MayAsk};
ghost use Rattle.ut_stamps.specs.StampLists.{if_closed};

use crate::asked::Asked;
use crate::delta_count::count_delta;
use crate::part_count::count_parts;
use crate::place::Place;
use crate::probe::DeltaStage;
use crate::rows::count_rows;
use crate::stages::Stages;
use std::alloc::{AllocError, Global};
use std::sync::ledger::Ledger;
use ut_key::Steps;

/// How many rows are seen and meet each comparison. In a part whose stamps all agree this takes no
/// look at a row where nothing is compared.
pub fn count<L: Ledger>(
    alloc: Global,
    stages: &Stages<'_>,
    asked: &Asked<'_>,
    steps: &mut Steps<L>,
) -> Result<u64, AllocError>
    requires { MayAsk stages.now asked.now }
    ensures count { IfOk result (λ count. count ≡ length (rows_asked asked.now stages.now)) }
    ensures steps { steps.new ≤ steps.old + scan_steps stages.now.main.now asked.now.preds.now }
{
    let snapshot = &asked.snapshot;
    let preds = asked.preds;
    let l2 = count_delta(alloc, asked, DeltaStage::L2, stages.l2, stages.stamps.l2())?;
    let l1 = count_rows(snapshot, preds, stages.l1.rows(), stages.stamps.l1());
    let closed = count_closed(alloc, stages, asked)?;
    let main = count_parts(alloc, snapshot, preds, stages.main, stages.stamps, steps)?;
    Ok(u64::from(l2) + u64::from(l1) + u64::from(closed) + main)
}

/// How many rows of the closed stage are seen and meet each comparison, if there is such a stage.
fn count_closed(alloc: Global, stages: &Stages<'_>, asked: &Asked<'_>) -> Result<u32, AllocError>
    requires { MayAsk stages.now asked.now }
    ensures { let rows = if_closed (rows_in stages.now).closed in
        let stamps = if_closed stages.now.stamps.now.closed in
        IfOk result (λ count.
        count ≡ length (found_for asked.now.snapshot asked.now.preds.now Place.Closed rows stamps)) }
{
    let Some(l2) = stages.closed else {
        return Ok(0);
    };
    let Some(stamps) = stages.stamps.closed() else {
        return Ok(0);
    };
    count_delta(alloc, asked, DeltaStage::Closed, l2, stamps)
}
