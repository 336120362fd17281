//! The capture of all tables of a store.
ghost use Rattle.std.specs.Prelude.{IfOk};
ghost use Rattle.ut_plain.specs.Plain.{Plain};
ghost use Rattle.ut_plain.specs.Journal.{current};
ghost use Rattle.ut_plain.specs.Capture.{capture};
ghost use Rattle.ut_savepoint.specs.Captured.{Captures};
ghost use Rattle.ut_tables.specs.Standing.{AreRowsOf};

use crate::table::captured_table;
use std::alloc::{AllocError, Global};
use ut_savepoint::CapturedTable;
use ut_tables::Rows;

/// What a savepoint captures of the rows of a store whose journal has so many entries: the directory that the plain store's journal
/// and stages have, without the rows of open transactions.
pub fn captured(alloc: Global, rows: &Rows, entries: u32) -> Result<Vec<CapturedTable>, AllocError>
    requires { (p : Plain) × AreRowsOf rows.now.rows entries p }
    ensures { IfOk result (λ tables. (p : Plain) → AreRowsOf rows.now.rows entries p
        → Captures tables.items (capture (current p.journal) p.stages)) }
{
    let tables = rows.tables();
    let stages = rows.stages();
    let fates = rows.fates();
    let mut captured = Vec::with_capacity(alloc, tables.len())?;
    for n in 0..tables.len() {
        captured.push(captured_table(alloc, &tables[n], &stages[n], fates, entries)?)?;
    }
    Ok(captured)
}
