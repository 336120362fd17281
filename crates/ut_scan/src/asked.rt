//! What a scan is asked for.

use crate::place::ColumnPred;
use ut_stamps::Snapshot;

/// The rows that a snapshot sees and that meet each comparison.
#[derive(Clone, Copy)]
pub struct Asked<'a> {
    pub snapshot: Snapshot<'a>,
    pub preds: &'a [ColumnPred],
}

impl<'a> Asked<'a> {
    ghost use Rattle.ut_scan.specs.StageRows.{AsksFor};

    /// What is asked for at a snapshot.
    pub fn of(snapshot: Snapshot<'a>, preds: &'a [ColumnPred]) -> Asked<'a>
        ensures { AsksFor snapshot.entry.fates.now snapshot.entry.at snapshot.entry.own preds.now result }
    {
        Asked { snapshot, preds }
    }
}
