//! How often each code of a column occurs in the rows that a scan finds.
ghost use Rattle.std.specs.Prelude.{◌≡◌, ◌+◌, ◌<◌, ◌≤◌, ◌^◌, length, IfOk};
ghost use Rattle.ut_scan.specs.StageRows.{outside_asked, scan_steps, MayAsk};
ghost use Rattle.ut_scan.specs.Tallies.{TalliesAsked};

use crate::asked::Asked;
use crate::part_tally::tally_parts;
use crate::place::Found;
use crate::stages::Stages;
use crate::table::scan_outside;
use std::alloc::{AllocError, Global};
use std::sync::ledger::Ledger;
use ut_key::Steps;

/// The rows that a scan finds, those of main by their codes in a column.
#[derive(Drop)]
pub struct CodeTally {
    /// For each code of the column in main, how many of main's rows have it.
    pub counts: Vec<u32>,
    /// The rows outside of main.
    pub rest: Vec<Found>,
}

/// The seen rows that meet each comparison: of main how often each code of a column occurs, and
/// the others as they are. In a part whose stamps all agree there is no look at a stamp, and where
/// nothing is compared none but at the codes.
pub fn tally<L: Ledger>(
    alloc: Global,
    stages: &Stages<'_>,
    asked: &Asked<'_>,
    column: u8,
    steps: &mut Steps<L>,
) -> Result<CodeTally, AllocError>
    requires asked { MayAsk stages.now asked.now }
    requires column { column < stages.now.l2.now.width }
    ensures counts { IfOk result (λ t. TalliesAsked asked.now stages.now column t.counts.items) }
    ensures few { IfOk result (λ t. length t.counts.items < 2 ^ 31) }
    ensures rest { IfOk result (λ t. t.rest.items ≡ outside_asked asked.now stages.now) }
    ensures steps { steps.new ≤ steps.old + scan_steps stages.now.main.now asked.now.preds.now }
{
    let rest = scan_outside(alloc, stages, asked)?;
    let counts = tally_parts(
        alloc,
        &asked.snapshot,
        asked.preds,
        stages.main,
        stages.stamps,
        column,
        steps,
    )?;
    Ok(CodeTally { counts, rest })
}
