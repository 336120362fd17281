//! Rows that enter their stages, and those that are moved from the first to the second.
ghost use Rattle.std.specs.Prelude.{◌≡◌, ◌∷◌, [], IfOk, OnOk};
ghost use Rattle.ut_plain.specs.Stages.{no_stages, with_stages, entered, with_inserts, moved};

use crate::places::places_copied;
use std::alloc::{AllocError, Global};
use ut_plain::{Placed, TableStages};
use ut_value::{Duplicate, Op, Seq};

/// A table without rows.
pub fn no_stages(alloc: Global) -> TableStages
    ensures { result ≡ no_stages }
{
    TableStages {
        l1: Seq::new(alloc),
        l2: Seq::new(alloc),
        closed: None,
        parts: Seq::new(alloc),
        keep: Seq::new(alloc),
    }
}

/// A copy of the stages.
pub fn stages_copied(alloc: Global, stages: &[TableStages]) -> Result<Vec<TableStages>, AllocError>
    ensures { IfOk result (λ copy. copy.items ≡ stages.now) }
{
    let mut copies = Vec::new(alloc);
    for stage in stages {
        let copy = stage.duplicate(alloc)?;
        copies.push(copy)?;
    }
    Ok(copies)
}

fn enter(stage: &mut TableStages, bulk: bool, row: Placed) -> Result<(), AllocError>
    ensures { OnOk result (stage.new ≡ entered bulk row stage.old) }
{
    if bulk {
        stage.l2.push(row)
    } else {
        stage.l1.push(row)
    }
}

/// The stages with the row that an operation inserts.
pub(crate) fn place_row(
    alloc: Global,
    stages: &mut Vec<TableStages>,
    bulk: bool,
    op: &Op,
) -> Result<(), AllocError>
    ensures { OnOk result (stages.new.items ≡ with_inserts bulk stages.old.items (op.now ∷ [])) }
{
    match op {
        Op::Insert { table, id, values } => {
            let values = values.duplicate(alloc)?;
            let row = Placed {
                id: *id,
                values,
                dead: false,
            };
            let table = usize::from(*table);
            if table >= stages.len() {
                return Ok(());
            }
            enter(&mut stages[table], bulk, row)
        }
        Op::Delete { .. } => Ok(()),
    }
}

/// The stages with the rows that these operations insert.
pub fn place_all(
    alloc: Global,
    stages: &mut Vec<TableStages>,
    bulk: bool,
    ops: &[Op],
) -> Result<(), AllocError>
    ensures { OnOk result (stages.new.items ≡ with_inserts bulk stages.old.items ops.now) }
{
    for op in ops {
        place_row(alloc, stages, bulk, op)?;
    }
    Ok(())
}

/// Moves the first rows of the first stage of a table behind those of its second.
pub fn move_l1(
    alloc: Global,
    stages: &mut Vec<TableStages>,
    table: usize,
    n: usize,
) -> Result<(), AllocError>
    ensures { OnOk result (stages.new.items ≡ with_stages (moved n) table stages.old.items) }
{
    if table >= stages.len() {
        return Ok(());
    }
    move_first(alloc, &mut stages[table], n)
}

fn move_first(alloc: Global, stage: &mut TableStages, n: usize) -> Result<(), AllocError>
    ensures { OnOk result (stage.new ≡ moved n stage.old) }
{
    let count = n.min(stage.l1.len());
    let (first, rest) = stage.l1.as_slice().split_at(count);
    let first = places_copied(alloc, first)?;
    let rest = places_copied(alloc, rest)?;
    stage.l2.append(first)?;
    stage.l1 = rest;
    Ok(())
}
