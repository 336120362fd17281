//! Where rows stand: merges of the first stage, and how many there are in each.
ghost use Rattle.std.specs.Prelude.{IfOk};
ghost use Rattle.ut_plain.specs.Step.{step};
ghost use Rattle.check_oracle.specs.Store.{plain_of, Allowed, Gives};

use crate::held::Held;
use crate::outcome::{Outcome, stays};
use crate::writes::place_in;
use check_rows::Known;
use check_stages::{move_l1, shape_of};
use std::alloc::{AllocError, Global};
use ut_plain::{Reply, Statement};
use ut_value::Name;

/// `merge l1`
pub(crate) fn merge_l1(
    alloc: Global,
    held: &Held,
    sight: &Known,
    session: u8,
    table: &Name,
    n: u32,
) -> Result<Outcome, AllocError>
    requires { Allowed (plain_of held.now) sight.now session (Statement.MergeL1 table.now n) }
    ensures { IfOk result (λ out. Gives (step (plain_of held.now) session (Statement.MergeL1 table.now n)) out.reply (plain_of out.held)) }
{
    let _session = session;
    let place = usize::from(place_in(sight.tables.as_slice(), table.as_slice()));
    let stages = &held.stages[place];
    let count = (n as usize).min(stages.l1.len());
    let mut next = held.copy(alloc)?;
    move_l1(alloc, &mut next.stages, place, n as usize)?;
    Ok(Outcome {
        reply: Reply::Moved(count as u32),
        held: next,
    })
}

/// `shape`
pub(crate) fn shape(
    alloc: Global,
    held: &Held,
    sight: &Known,
    session: u8,
    table: &Name,
) -> Result<Outcome, AllocError>
    requires { Allowed (plain_of held.now) sight.now session (Statement.Shape table.now) }
    ensures { IfOk result (λ out. Gives (step (plain_of held.now) session (Statement.Shape table.now)) out.reply (plain_of out.held)) }
{
    let _session = session;
    let place = usize::from(place_in(sight.tables.as_slice(), table.as_slice()));
    let stages = &held.stages[place];
    let shape = shape_of(alloc, stages)?;
    let out = stays(alloc, held, Reply::Shape(shape))?;
    Ok(out)
}
