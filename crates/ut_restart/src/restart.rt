//! What a store begins with, from the image of its page file and the entries of its log.
ghost use Rattle.std.specs.Prelude.{◌≡◌, ◌+◌, ◌<◌, ◌≤◌, ◌^◌, false, IsTrue, IfOk, IsErrOf};
ghost use Rattle.std.specs.List.{AllByRecursion};
ghost use Rattle.ut_plain.specs.Capture.{Directory};
ghost use Rattle.ut_plain.specs.Reached.{MayOpen};
ghost use Rattle.ut_plain.specs.State.{State};
ghost use Rattle.ut_redo.specs.Frames.{IsEntry};
ghost use Rattle.ut_restart.specs.Began.{BeginsWith};
ghost use Rattle.ut_restart.specs.declared.error.RestartError.{RestartError};
ghost use Rattle.ut_restart.specs.Replayed.{IsReplay};
ghost use Rattle.ut_restart.specs.Standing.{Rebuilt, Reopens};

use crate::RestartError;
use crate::image::first;
use crate::replay::Replay;
use crate::rows::Rows;
use std::alloc::{AllocError, Global};
use ut_image::Drawn;
use ut_main::Main;
use ut_pages::Root;
use ut_tables::{Restored, Rows as AllRows};
use ut_value::{Entry, JOURNAL_LIMIT, Seq};

/// The most entries of a journal.
const MOST_ENTRIES: usize = JOURNAL_LIMIT as usize;

/// What a store of an image and the entries behind it begins with. The parts of main are taken as they are, the rows of the deltas stay in theirs, and each row of the log stands in the first stage behind them; a deleted one is nobody's.
pub fn reopen(
    alloc: Global,
    root: &Root,
    tables: Seq<Drawn>,
    mains: Seq<Main>,
    entries: Seq<Entry>,
) -> Result<Restored, RestartError>
    requires image { (d : Directory) × (s : State) × BeginsWith root.now tables mains d s }
    requires spelled { AllByRecursion IsEntry entries }
    // whichever directory and state it is that the store begins with
    ensures ok { IfOk result (λ r. (d : Directory) (s : State) → BeginsWith root.now tables mains d s
        → Reopens s d.stages entries r) }
    ensures damaged { IsErrOf result RestartError.Damaged → (d : Directory) (s : State) → BeginsWith root.now tables mains d s
        → MayOpen d.stages (record { base = s; entries = entries }) → ⊥ }
{
    if is_too_long(root, entries.len()) {
        return Err(RestartError::Damaged);
    }
    let mut replay = first(alloc, root, tables, mains)?;
    replay.follow_all(alloc, entries)?;
    let restored = rebuilt(alloc, replay)?;
    Ok(restored)
}

fn is_too_long(root: &Root, entries: usize) -> bool
    ensures long { IsTrue result → 1073741824 < root.now.length + entries }
    ensures short { result ≡ false → root.now.length + entries ≤ 1073741824 }
{
    entries > MOST_ENTRIES || root.length as usize + entries > MOST_ENTRIES
}

fn rebuilt(alloc: Global, replay: Replay) -> Result<Restored, AllocError>
    requires { IsReplay replay }
    ensures { IfOk result (Rebuilt replay) }
{
    let Replay {
        tables,
        rows,
        commits,
        merges,
        entries,
    } = replay;
    let Rows {
        stages,
        positions: _,
        next,
        load,
    } = rows;
    let next_id = if next <= load { load + 1 } else { next };
    let rows = AllRows::restored(alloc, tables, stages)?;
    Ok(Restored {
        rows,
        next_id,
        commits,
        merges,
        entries,
    })
}
