//! The rows of a selection.
ghost use Rattle.std.specs.Prelude.{◌≡◌, ◌<◌, ◌≤◌, ◌^◌, length, slice_get, Some, IfOk};
ghost use Rattle.ut_staged.specs.Staged.{Staged};
ghost use Rattle.ut_table.specs.Tallied.{IsTally};
ghost use Rattle.ut_scan.specs.declared.place.Found.{Found};
ghost use Rattle.ut_look.specs.Look.{sight};
ghost use Rattle.ut_query.specs.Look.{CanLook};
ghost use Rattle.ut_query.specs.Tells.{IsSelected, Shows, ShowsTally, ShowsCount};

use std::alloc::{AllocError, Global};
use ut_look::Look;
use ut_names::Selection;
use ut_scan::{CodeTally, Found};

/// The rows that are seen and meet each comparison, by ascending id.
pub(crate) fn found(
    alloc: Global,
    look: &Look<'_>,
    rows: &Selection,
) -> Result<Vec<Found>, AllocError>
    requires looks { CanLook (sight look.now) }
    requires asked { IsSelected look.now.tables.now rows.now }
    ensures { IfOk result (λ hits. (s : Staged) → slice_get (sight look.now).staged rows.now.table ≡ Some s
        → Shows (sight look.now) rows.now s hits.items) }
{
    let table = &look.stages[rows.table];
    table.scan(alloc, look.snapshot, rows.preds.as_slice())
}

/// How many there are.
pub(crate) fn count(alloc: Global, look: &Look<'_>, rows: &Selection) -> Result<u64, AllocError>
    requires looks { CanLook (sight look.now) }
    requires asked { IsSelected look.now.tables.now rows.now }
    ensures { IfOk result (ShowsCount (sight look.now) rows.now) }
{
    let table = &look.stages[rows.table];
    table.count(alloc, look.snapshot, rows.preds.as_slice())
}

/// The same rows, those of main by their codes in a column.
pub(crate) fn tally(
    alloc: Global,
    look: &Look<'_>,
    rows: &Selection,
    column: usize,
) -> Result<CodeTally, AllocError>
    requires looks { CanLook (sight look.now) }
    requires asked { IsSelected look.now.tables.now rows.now }
    requires column { (s : Staged) → slice_get (sight look.now).staged rows.now.table ≡ Some s → column < length s.columns }
    ensures tally { IfOk result (λ t. (s : Staged) → slice_get (sight look.now).staged rows.now.table ≡ Some s
        → ShowsTally (sight look.now) rows.now s column t.counts.items t.rest.items) }
    ensures few { IfOk result (λ t. length t.counts.items < 2 ^ 31) }
{
    let table = &look.stages[rows.table];
    table.tally(alloc, look.snapshot, rows.preds.as_slice(), column)
}
