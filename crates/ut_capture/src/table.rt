//! The capture of one table.
ghost use Rattle.std.specs.Prelude.{◌≡◌, ◌≤◌, length, IfOk};
ghost use Rattle.ut_savepoint.specs.Captured.{CapturesTable};
ghost use Rattle.ut_capture.specs.Live.{live_stages};

use crate::deltas::deltas;
use crate::parts::captured_parts;
use std::alloc::{AllocError, Global};
use ut_plain::Table;
use ut_savepoint::CapturedTable;
use ut_stamps::Fates;
use ut_table::Table as Stages;
use ut_value::Duplicate;

/// A table as it stands where the journal has so many entries: a row is live where a session outside
/// transactions sees it. The parts of main are shared, and the rows outside main spelled at once.
pub fn captured_table(
    alloc: Global,
    table: &Table,
    stages: &Stages,
    fates: &Fates,
    entries: u32,
) -> Result<CapturedTable, AllocError>
    requires { table.now.columns ≡ stages.now.stages.columns }
    ensures { IfOk result (λ c. CapturesTable c table.now (live_stages fates.now entries stages.now.stages)) }
{
    let parts = captured_parts(alloc, stages, fates, entries)?;
    let deltas = deltas(alloc, stages, fates, entries)?;
    let table = table.duplicate(alloc)?;
    Ok(CapturedTable {
        table,
        parts,
        deltas,
    })
}
