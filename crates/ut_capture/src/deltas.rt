//! The rows outside main, as a directory spells them.
ghost use Rattle.std.specs.Prelude.{◌≡◌, ◌≤◌, ◌^◌, ◌++◌, None, length, OnOk, IfOk};
ghost use Rattle.std.specs.List.{filter, flat_map};
ghost use Rattle.ut_stamps.specs.Stamps.{sees};
ghost use Rattle.ut_image.specs.Bytes.{row_bytes};
ghost use Rattle.ut_table.specs.Outside.{rows_in};
ghost use Rattle.ut_capture.specs.Live.{live_rows};
ghost use Rattle.ut_capture.specs.Stages.{deltas_bytes};

use std::alloc::{AllocError, Global};
use ut_image::image_row;
use ut_stamps::{Fates, Stamp, sees};
use ut_table::{Stage, Table};

// How many of these rows are live.
fn live_count(fates: &Fates, entries: u32, stamps: &[Stamp]) -> u32
    requires { length stamps.now ≤ 2 ^ 31 }
    ensures count { result ≡ length (filter (sees fates.now entries None) stamps.now) }
    ensures few { result ≤ length stamps.now }
{
    let mut count: u32 = 0;
    for stamp in stamps {
        if sees(fates, stamp, entries, None) {
            count += 1;
        }
    }
    count
}

// Appends the live rows of a stage.
fn put_live(
    alloc: Global,
    table: &Table,
    fates: &Fates,
    entries: u32,
    stage: Stage,
    out: &mut Vec<u8>,
) -> Result<(), AllocError>
    ensures { OnOk result (out.new.items ≡ out.old.items ++ flat_map row_bytes (live_rows fates.now entries (rows_in stage table.now.stages))) }
{
    let stamps = table.stamps_in(stage);
    for i in 0..stamps.len() {
        if sees(fates, &stamps[i], entries, None) {
            let row = table.row(alloc, stage.place(i as u32))?;
            image_row(&row, out)?;
        }
    }
    Ok(())
}

/// The live rows outside main: those of the second stage behind those of a closed one, and then those of the first.
pub(crate) fn deltas(
    alloc: Global,
    table: &Table,
    fates: &Fates,
    entries: u32,
) -> Result<Vec<u8>, AllocError>
    ensures { IfOk result (λ bytes. bytes.items ≡ deltas_bytes fates.now entries table.now.stages) }
{
    let closed = live_count(fates, entries, table.stamps_in(Stage::Closed));
    let l2 = live_count(fates, entries, table.stamps_in(Stage::L2));
    let l1 = live_count(fates, entries, table.stamps_in(Stage::L1));
    let mut out = Vec::new(alloc);
    let older = closed + l2;
    out.extend_from_slice(&older.to_le_bytes())?;
    put_live(alloc, table, fates, entries, Stage::Closed, &mut out)?;
    put_live(alloc, table, fates, entries, Stage::L2, &mut out)?;
    out.extend_from_slice(&l1.to_le_bytes())?;
    put_live(alloc, table, fates, entries, Stage::L1, &mut out)?;
    Ok(out)
}
