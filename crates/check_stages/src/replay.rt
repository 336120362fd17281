//! The stages of a store that is opened again: what the entries of its journal say.
ghost use Rattle.std.specs.Prelude.{◌≡◌, [], ◌∷◌, map, IfOk, OnOk};
ghost use Rattle.std.specs.Option.{option_map};
ghost use Rattle.ut_plain.specs.Stages.{with_stages};
ghost use Rattle.ut_plain.specs.Restart.{buried, with_dead, replayed_ops, replayed_entry, replayed};

use crate::stages::{no_stages, place_row, stages_copied};
use std::alloc::{AllocError, Global};
use ut_plain::{Placed, TableStages};
use ut_value::{Duplicate, Entry, Op, Seq};

fn buried(alloc: Global, id: u32, place: &Placed) -> Result<Placed, AllocError>
    ensures { IfOk result (λ copy. copy ≡ buried id place.now) }
{
    let mut copy = place.duplicate(alloc)?;
    if copy.id == id {
        copy.dead = true;
    }
    Ok(copy)
}

fn all_buried(alloc: Global, id: u32, places: &[Placed]) -> Result<Seq<Placed>, AllocError>
    ensures { IfOk result (λ copies. copies ≡ map (buried id) places.now) }
{
    let mut copies = Seq::new(alloc);
    for place in places {
        let copy = buried(alloc, id, place)?;
        copies.push(copy)?;
    }
    Ok(copies)
}

fn closed_buried(
    alloc: Global,
    id: u32,
    closed: &Option<Seq<Placed>>,
) -> Result<Option<Seq<Placed>>, AllocError>
    ensures { IfOk result (λ copy. copy ≡ option_map (map (buried id)) closed.now) }
{
    match closed {
        None => Ok(None),
        Some(places) => {
            let copy = all_buried(alloc, id, places.as_slice())?;
            Ok(Some(copy))
        }
    }
}

fn parts_buried(
    alloc: Global,
    id: u32,
    parts: &[Seq<Placed>],
) -> Result<Seq<Seq<Placed>>, AllocError>
    ensures { IfOk result (λ copies. copies ≡ map (map (buried id)) parts.now) }
{
    let mut copies = Seq::new(alloc);
    for part in parts {
        let copy = all_buried(alloc, id, part.as_slice())?;
        copies.push(copy)?;
    }
    Ok(copies)
}

// Stages in which the row of an id is nobody's any more.
fn with_dead(alloc: Global, id: u32, stages: &TableStages) -> Result<TableStages, AllocError>
    ensures { IfOk result (λ copy. copy ≡ with_dead id stages.now) }
{
    let mut copy = stages.duplicate(alloc)?;
    match bury_in(alloc, id, stages, &mut copy) {
        Ok(()) => Ok(copy),
        Err(error) => Err(error),
    }
}

// The same in a copy.
fn bury_in(
    alloc: Global,
    id: u32,
    stages: &TableStages,
    copy: &mut TableStages,
) -> Result<(), AllocError>
    requires { copy.old ≡ stages.now }
    ensures { OnOk result (copy.new ≡ with_dead id stages.now) }
{
    copy.l1 = all_buried(alloc, id, stages.l1.as_slice())?;
    copy.l2 = all_buried(alloc, id, stages.l2.as_slice())?;
    copy.closed = closed_buried(alloc, id, &stages.closed)?;
    copy.parts = parts_buried(alloc, id, stages.parts.as_slice())?;
    Ok(())
}

fn bury(
    alloc: Global,
    stages: &mut Vec<TableStages>,
    table: usize,
    id: u32,
) -> Result<(), AllocError>
    ensures { OnOk result (stages.new.items ≡ with_stages (with_dead id) table stages.old.items) }
{
    if table >= stages.len() {
        return Ok(());
    }
    let next = with_dead(alloc, id, &stages[table])?;
    stages[table] = next;
    Ok(())
}

fn replay_op(alloc: Global, stages: &mut Vec<TableStages>, op: &Op) -> Result<(), AllocError>
    ensures { OnOk result (stages.new.items ≡ replayed_ops stages.old.items (op.now ∷ [])) }
{
    match op {
        Op::Insert { .. } => place_row(alloc, stages, false, op),
        Op::Delete { table, id } => bury(alloc, stages, usize::from(*table), *id),
    }
}

fn replay_ops(alloc: Global, stages: &mut Vec<TableStages>, ops: &[Op]) -> Result<(), AllocError>
    ensures { OnOk result (stages.new.items ≡ replayed_ops stages.old.items ops.now) }
{
    for op in ops {
        replay_op(alloc, stages, op)?;
    }
    Ok(())
}

fn replay_entry(
    alloc: Global,
    stages: &mut Vec<TableStages>,
    entry: &Entry,
) -> Result<(), AllocError>
    ensures { OnOk result (stages.new.items ≡ replayed_entry stages.old.items entry.now) }
{
    match entry {
        Entry::Create { .. } => {
            stages.push(no_stages(alloc))?;
            Ok(())
        }
        Entry::Txn { ops } => replay_ops(alloc, stages, ops.as_slice()),
        Entry::Begun { .. } => Ok(()),
        Entry::Ended { .. } => Ok(()),
    }
}

/// The stages behind these entries, from others on.
pub fn replayed(
    alloc: Global,
    first: &[TableStages],
    entries: &[Entry],
) -> Result<Vec<TableStages>, AllocError>
    ensures { IfOk result (λ stages. stages.items ≡ replayed first.now entries.now) }
{
    let mut stages = stages_copied(alloc, first)?;
    for entry in entries {
        replay_entry(alloc, &mut stages, entry)?;
    }
    Ok(stages)
}
