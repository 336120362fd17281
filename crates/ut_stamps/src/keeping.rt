//! Which rows a merge keeps.
ghost use Rattle.std.specs.Prelude.{◌≡◌};
ghost use Rattle.ut_stamps.specs.Kept.{is_between, is_needed_still, end_keeps, stamp_keeps};

use crate::fates::{Fate, Fates};
use crate::visibility::Stamp;

/// Whether a merge keeps a row: somebody sees it now or at one of the open snapshots, or a
/// transaction that runs has it as its own.
pub fn keeps(fates: &Fates, stamp: &Stamp, snapshots: &[u32]) -> bool
    ensures { result ≡ stamp_keeps fates.now snapshots.now stamp.now }
{
    match fates.fate(stamp.begin) {
        Fate::Running => stamp.end != Some(stamp.begin),
        Fate::Committed(at) => end_keeps(fates, stamp.end, snapshots, at),
        Fate::Aborted => false,
    }
}

// Whether somebody needs a row that was committed at length `begun`, by who ended it.
fn end_keeps(fates: &Fates, end: Option<u64>, snapshots: &[u32], begun: u32) -> bool
    ensures { result ≡ end_keeps fates.now snapshots.now begun end }
{
    match end {
        Some(t) => is_needed_still(snapshots, begun, fates.fate(t)),
        None => true,
    }
}

// The same, by the fate of who ended it.
fn is_needed_still(snapshots: &[u32], begun: u32, ended: Fate) -> bool
    ensures { result ≡ is_needed_still snapshots.now begun ended }
{
    match ended {
        Fate::Running => true,
        Fate::Committed(at) => is_between(snapshots, begun, at),
        Fate::Aborted => true,
    }
}

// Whether one of these snapshots holds the entry of length `begun` and not that of `ended`.
fn is_between(snapshots: &[u32], begun: u32, ended: u32) -> bool
    ensures { result ≡ is_between snapshots.now begun ended }
{
    snapshots.iter().any(|k| begun <= *k && *k < ended)
}
