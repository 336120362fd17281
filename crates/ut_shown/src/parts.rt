//! The stamps of the parts of main, as one who looks sees them.
ghost use Rattle.std.specs.Prelude.{◌≡◌, map, IfOk};
ghost use Rattle.ut_shown.specs.Shown.{eyes, shown_stamp, shown_stamps, row_stamps};

use std::alloc::{AllocError, Global};
use ut_stamps::{PartStamps, Snapshot, Stamp};
use ut_table::Table;

/// The transaction that is committed before all else.
const BEFORE_ALL: u64 = 0;

/// The transaction that aborted: its rows are nobody's.
const NOBODY: u64 = 1;

/// The stamp of a row that everybody sees, or nobody.
pub(crate) fn stamp_of(seen: bool) -> Stamp
    ensures { result ≡ shown_stamp seen }
{
    let begin = if seen { BEFORE_ALL } else { NOBODY };
    Stamp { begin, end: None }
}

/// Those of one part, one by one.
fn listed(
    alloc: Global,
    snapshot: Snapshot<'_>,
    stamps: &PartStamps,
) -> Result<Vec<Stamp>, AllocError>
    ensures { IfOk result (λ shown. shown.items ≡ shown_stamps (eyes snapshot.entry.fates.now snapshot.entry.at snapshot.entry.own) stamps.now) }
{
    let mut shown = Vec::with_capacity(alloc, stamps.len())?;
    for i in 0..stamps.len() {
        let seen = snapshot.sees(&stamps.get(i));
        shown.push(stamp_of(seen))?;
    }
    Ok(shown)
}

/// Those of one part. Where its stamps agree none is written: one look tells all.
fn part_stamps(
    alloc: Global,
    snapshot: Snapshot<'_>,
    stamps: &PartStamps,
) -> Result<PartStamps, AllocError>
    ensures { IfOk result (λ shown. shown ≡ shown_stamps (eyes snapshot.entry.fates.now snapshot.entry.at snapshot.entry.own) stamps.now) }
{
    match stamps.joint() {
        Some(stamp) => {
            let seen = snapshot.sees(&stamp);
            let alike = PartStamps::alike(alloc, stamps.len(), stamp_of(seen))?;
            Ok(alike)
        }
        None => {
            let shown = listed(alloc, snapshot, stamps)?;
            Ok(PartStamps::of(shown))
        }
    }
}

/// Those of all parts of a table.
pub(crate) fn all_stamps(
    alloc: Global,
    snapshot: Snapshot<'_>,
    table: &Table,
) -> Result<Vec<PartStamps>, AllocError>
    ensures { IfOk result (λ shown. shown.items ≡ map (row_stamps (eyes snapshot.entry.fates.now snapshot.entry.at snapshot.entry.own)) table.now.stages.parts) }
{
    let stages = table.stages();
    let mut shown = Vec::new(alloc);
    for p in 0..stages.stamps.parts() {
        let stamps = part_stamps(alloc, snapshot, stages.stamps.part(p))?;
        shown.push(stamps)?;
    }
    Ok(shown)
}
