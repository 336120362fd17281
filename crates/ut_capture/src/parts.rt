//! The parts of main, shared, with the marks of their live rows.
ghost use Rattle.std.specs.Prelude.{◌≡◌, ◌≤◌, ◌<◌, [], get_or, length, map, vec_len, None, IfOk};
ghost use Rattle.std.specs.Arc.{arc_value};
ghost use Rattle.ut_stamps.specs.Stamps.{sees};
ghost use Rattle.ut_main.specs.Parts.{dicts_behind, first_parts};
ghost use Rattle.ut_savepoint.specs.Captured.{CaptureParts};
ghost use Rattle.ut_capture.specs.Live.{live_parts};

use std::alloc::{AllocError, Global};
use std::sync::Arc;
use ut_savepoint::CapturedPart;
use ut_scan::Stages;
use ut_stamps::{Fates, PartStamps, sees};
use ut_table::Table;
use ut_value::Seq;

// Which rows of a part are live.
fn live_marks(
    alloc: Global,
    fates: &Fates,
    entries: u32,
    stamps: &PartStamps,
) -> Result<Seq<bool>, AllocError>
    ensures { IfOk result (λ marks. marks ≡ map (sees fates.now entries None) stamps.now) }
{
    let mut marks = Vec::with_capacity(alloc, stamps.len())?;
    for i in 0..stamps.len() {
        marks.push(sees(fates, &stamps.get(i), entries, None))?;
    }
    Ok(Seq::from_vec(marks))
}

// A part of these stages.
fn captured_part(
    alloc: Global,
    stages: &Stages<'_>,
    fates: &Fates,
    entries: u32,
    p: u8,
) -> Result<CapturedPart, AllocError>
    requires part { p < length stages.now.main.now.parts }
    requires stamps { p < length stages.now.stamps.now.parts }
    ensures rows { IfOk result (λ c. (arc_value c.part).rows ≡ get_or stages.now.main.now.parts p []) }
    ensures before { IfOk result (λ c. (arc_value c.part).before ≡ dicts_behind (first_parts p stages.now.main.now)) }
    ensures live { IfOk result (λ c. c.live ≡ map (sees fates.now entries None) (get_or stages.now.stamps.now.parts p [])) }
{
    let live = live_marks(alloc, fates, entries, stages.stamps.part(p))?;
    let part = Arc::try_clone(stages.main.part(p))?;
    Ok(CapturedPart { part, live })
}

/// The parts of a table.
pub(crate) fn captured_parts(
    alloc: Global,
    table: &Table,
    fates: &Fates,
    entries: u32,
) -> Result<Vec<CapturedPart>, AllocError>
    ensures parts { IfOk result (λ parts. CaptureParts (length table.now.stages.columns) [] parts.items (live_parts fates.now entries table.now.stages.parts)) }
    ensures few { IfOk result (λ parts. vec_len parts ≤ 8) }
    ensures narrow { length table.now.stages.columns ≤ 64 }
{
    let stages = table.stages();
    let mut parts = Vec::new(alloc);
    for p in 0..stages.main.parts() {
        parts.push(captured_part(alloc, &stages, fates, entries, p)?)?;
    }
    Ok(parts)
}
