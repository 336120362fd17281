//! The tables of an image, with their rows. The parts of main are taken as they are.
ghost use Rattle.std.specs.Prelude.{[], ◌∷◌, ◌≡◌, ◌+◌, ◌≤◌, ◌^◌, ◌++◌, All, IfOk, OnOk, IsTrue, length, map};
ghost use Rattle.std.specs.Global.{Vec};
ghost use Rattle.std.specs.List.{AllByRecursion};
ghost use Rattle.ut_value.specs.declared.value.Row.{Row};
ghost use Rattle.ut_plain.specs.declared.stage.TableStages.{TableStages};
ghost use Rattle.ut_plain.specs.Stages as plain;
ghost use Rattle.ut_plain.specs.Tables.{fits_columns};
ghost use Rattle.ut_stamps.specs.declared.visibility.Stamp.{Stamp};
ghost use Rattle.ut_staged.specs.Staged.{count_of, begun_row, entered_l2, no_rows};
ghost use Rattle.ut_table.specs.Contents.{TableValue};
ghost use Rattle.ut_image.specs.declared.drawn.Drawn.{Drawn};
ghost use Rattle.ut_restart.specs.Shown.{stamp_of_mark, marks_of, delta_count, staged_of, staged_all, IsShown, AreShown};
ghost use Rattle.ut_restart.specs.Standing.{shown, live_row};

use crate::rows::{BEFORE_ALL, NOBODY};
use std::alloc::{AllocError, Global};
use ut_image::{Drawn, PartRef};
use ut_main::Main;
use ut_plain::Table;
use ut_stamps::Stamp;
use ut_table::Table as Stages;
use ut_value::{Duplicate, Row, Seq};

// The stamp of a place of main.
fn stamp_of(live: bool) -> Stamp
    ensures { result ≡ stamp_of_mark live }
{
    let begin = if live { BEFORE_ALL } else { NOBODY };
    Stamp { begin, end: None }
}

fn stamps_of_part(alloc: Global, live: &[bool]) -> Result<Vec<Stamp>, AllocError>
    ensures { IfOk result (λ stamps. stamps.items ≡ map stamp_of_mark live.now) }
{
    let mut stamps = Vec::with_capacity(alloc, live.len())?;
    for mark in live {
        stamps.push(stamp_of(*mark))?;
    }
    Ok(stamps)
}

fn stamps_of(alloc: Global, refs: &[PartRef]) -> Result<Vec<Vec<Stamp>>, AllocError>
    ensures { IfOk result (λ stamps. map (λ (v : Vec Stamp). v.items) stamps.items ≡ map (map stamp_of_mark) (marks_of refs.now)) }
{
    let mut stamps = Vec::new(alloc);
    for part in refs {
        let more = stamps_of_part(alloc, part.live.as_slice())?;
        stamps.push(more)?;
    }
    Ok(stamps)
}

fn push_rows(stages: &mut Stages, rows: Seq<Row>) -> Result<(), AllocError>
    requires fit { AllByRecursion (λ (r : Row). IsTrue (fits_columns stages.old.stages.columns r.values)) rows }
    requires few { count_of stages.old.stages + length rows ≤ 2 ^ 31 }
    ensures { OnOk result (stages.new.stages ≡ record stages.old.stages { l1 = stages.old.stages.l1 ++ map live_row rows }) }
{
    for row in rows.into_vec() {
        let stamp = Stamp {
            begin: BEFORE_ALL,
            end: None,
        };
        stages.room(1)?;
        stages.push(row, stamp);
    }
    Ok(())
}

// The stages with the rows of the second delta, and no others.
fn loaded(alloc: Global, drawn: &Drawn) -> Result<Stages, AllocError>
    requires narrow { length drawn.now.table.columns ≤ 64 }
    requires fit { All (λ (r : Row). IsTrue (fits_columns drawn.now.table.columns r.values)) drawn.now.l2 }
    requires few { length drawn.now.l2 ≤ 2 ^ 31 }
    ensures { IfOk result (λ stages. stages.stages ≡ entered_l2 (map (begun_row 0) drawn.now.l2) (no_rows drawn.now.table.columns)) }
{
    let columns = drawn.table.columns.duplicate(alloc)?;
    let mut stages = Stages::new(alloc, columns)?;
    stages.load(drawn.l2.as_slice(), BEFORE_ALL)?;
    Ok(stages)
}

// The stages without the rows of the first delta.
fn with_main(alloc: Global, drawn: &Drawn, main: Main) -> Result<Stages, AllocError>
    requires shown { (s : TableStages) × IsShown drawn.now main s }
    requires few { length drawn.now.l2 + length drawn.now.l1 ≤ 2 ^ 31 }
    ensures { IfOk result (λ stages. (s : TableStages) → IsShown drawn.now main s
        → stages.stages ≡ record (staged_of drawn.now.table.columns s) { l1 = [] }) }
{
    let stamps = stamps_of(alloc, drawn.parts.as_slice())?;
    let mut stages = loaded(alloc, drawn)?;
    stages.load_main(main, stamps);
    Ok(stages)
}

fn fill(alloc: Global, drawn: Drawn, main: Main) -> Result<(Table, Stages), AllocError>
    requires shown { (s : TableStages) × IsShown drawn main s }
    requires few { length drawn.l2 + length drawn.l1 ≤ 2 ^ 31 }
    ensures table { IfOk result (λ r. r.0 ≡ drawn.table) }
    ensures stages { IfOk result (λ r. (s : TableStages) → IsShown drawn main s → r.1.stages ≡ staged_of drawn.table.columns s) }
{
    let mut stages = with_main(alloc, &drawn, main)?;
    let Drawn { table, l1, .. } = drawn;
    push_rows(&mut stages, l1)?;
    Ok((table, stages))
}

// One table more, and its stages.
fn push_filled(
    alloc: Global,
    drawn: Drawn,
    main: Main,
    heads: &mut Vec<Table>,
    filled: &mut Vec<Stages>,
) -> Result<(), AllocError>
    requires shown { (s : TableStages) × IsShown drawn main s }
    requires few { length drawn.l2 + length drawn.l1 ≤ 2 ^ 31 }
    ensures heads { OnOk result (heads.new.items ≡ heads.old.items ++ drawn.table ∷ []) }
    ensures filled { OnOk result ((new : TableValue) × (filled.new.items ≡ filled.old.items ++ new ∷ [])
        × ((s : TableStages) → IsShown drawn main s → new.stages ≡ staged_of drawn.table.columns s)) }
{
    let (table, stages) = fill(alloc, drawn, main)?;
    heads.push(table)?;
    filled.push(stages)?;
    Ok(())
}

/// The tables, and each one's stages.
pub(crate) fn fill_all(
    alloc: Global,
    tables: Seq<Drawn>,
    mains: Seq<Main>,
) -> Result<(Vec<Table>, Vec<Stages>), AllocError>
    requires shown { (stages : plain.Stages) × AreShown tables mains stages }
    requires few { delta_count tables ≤ 2 ^ 31 }
    ensures tables { IfOk result (λ r. r.0.items ≡ map (λ (t : Drawn). t.table) tables) }
    ensures stages { IfOk result (λ r. (stages : plain.Stages) → AreShown tables mains stages → shown r.1.items ≡ staged_all tables stages) }
{
    let mut heads = Vec::new(alloc);
    let mut filled = Vec::new(alloc);
    for (drawn, main) in tables.into_vec().into_iter().zip(mains.into_vec()) {
        push_filled(alloc, drawn, main, &mut heads, &mut filled)?;
    }
    Ok((heads, filled))
}
