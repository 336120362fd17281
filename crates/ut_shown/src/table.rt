//! One table, as one who looks sees it.
ghost use Rattle.std.specs.Prelude.{◌≡◌, ◌+◌, ◌≤◌, ◌^◌, ◌++◌, length, IfOk, OnOk};
ghost use Rattle.ut_staged.specs.Staged.{count_of};
ghost use Rattle.ut_table.specs.Outside.{rows_in};
ghost use Rattle.ut_shown.specs.Shown.{eyes, shown_rows, shown_stages};

use crate::parts::{all_stamps, stamp_of};
use std::alloc::{AllocError, Global};
use ut_stamps::Snapshot;
use ut_table::{Stage, Table};
use ut_value::{Column, Seq};

/// The rows of a stage that are seen go behind those of another table's first stage.
fn push_seen(
    alloc: Global,
    snapshot: Snapshot<'_>,
    table: &Table,
    stage: Stage,
    out: &mut Table,
) -> Result<(), AllocError>
    requires columns { out.old.stages.columns ≡ table.now.stages.columns }
    requires few { count_of out.old.stages + length (rows_in stage table.now.stages) ≤ 2 ^ 31 }
    ensures { OnOk result (out.new.stages ≡ record out.old.stages { l1 = out.old.stages.l1 ++ shown_rows (eyes snapshot.entry.fates.now snapshot.entry.at snapshot.entry.own) (rows_in stage table.now.stages) }) }
{
    let stamps = table.stamps_in(stage);
    for i in 0..stamps.len() {
        if snapshot.sees(&stamps[i]) {
            let row = table.row(alloc, stage.place(i as u32))?;
            out.room(1)?;
            out.push(row, stamp_of(true));
        }
    }
    Ok(())
}

/// The rows of a table that are seen, as a table of its own: the parts of main are shared, with a
/// stamp for each of their rows, and the rows outside of main that are seen are copied into the
/// first stage.
pub fn shown_table(
    alloc: Global,
    snapshot: Snapshot<'_>,
    columns: Seq<Column>,
    table: &Table,
) -> Result<Table, AllocError>
    requires { columns ≡ table.now.stages.columns }
    ensures { IfOk result (λ shown. shown.stages ≡ shown_stages (eyes snapshot.entry.fates.now snapshot.entry.at snapshot.entry.own) table.now.stages) }
{
    let lent = table.stages();
    let main = lent.main.first(alloc, lent.main.parts())?;
    let stamps = all_stamps(alloc, snapshot, table)?;
    let mut shown = Table::new(alloc, columns)?;
    shown.load_parts(main, stamps);
    push_seen(alloc, snapshot, table, Stage::Closed, &mut shown)?;
    push_seen(alloc, snapshot, table, Stage::L2, &mut shown)?;
    push_seen(alloc, snapshot, table, Stage::L1, &mut shown)?;
    Ok(shown)
}
