//! A shot: all that the answer to one question follows from.
ghost use Rattle.std.specs.Prelude.{◌≡◌, ◌≤◌, ℕ, List, IfOk, length};
ghost use Rattle.ut_plain.specs.declared.table.Stored.{Stored};
ghost use Rattle.ut_plain.specs.State.{State};
ghost use Rattle.ut_look.specs.Look.{sight};
ghost use Rattle.ut_query.specs.Look.{CanLook, Sees};
ghost use Rattle.ut_shot.specs.Answered.{answered};
ghost use Rattle.ut_shot.specs.Reads.{taken};
ghost use Rattle.ut_shown.specs.Shown.{settled};
ghost use Rattle.ut_shot.specs.Shot.{IsShot, IsShotOf, shot_sight};

use crate::reads::is_read;
use std::alloc::{AllocError, Global};
use std::marker::Model;
use ut_plain::{Query, Refusal, Reply, Table};
use ut_query::{Look, ask};
use ut_shown::shown_table;
use ut_stamps::{Fates, Snapshot};
use ut_table::Table as Stages;
use ut_value::Duplicate;

/// The tables that one question reads, as they were seen when it was taken. Of the others it has
/// names and columns alone. It holds nothing of a store that may change, so it may be asked at any
/// time, by any thread.
#[derive(Drop)]
pub struct Shot {
    tables: Vec<Table>,
    stages: Vec<Stages>,
    fates: Fates,
}

impl Model for Shot {
    ghost use Rattle.std.specs.Prelude.{map};
    ghost use Rattle.ut_table.specs.Contents.{TableValue};
    ghost use Rattle.ut_shot.specs.Shot.{ShotValue};

    ghost Value = { ShotValue };

    ghost view = { λ s. record { tables = s.tables.items; staged = map (λ (t : TableValue). t.stages) s.stages.items; fates = s.fates } };
}

/// Two transactions: one that was committed before all else, and one that is nobody's.
fn settled(alloc: Global) -> Result<Fates, AllocError>
    ensures { IfOk result (λ fates. fates ≡ settled) }
{
    let mut fates = Fates::new(alloc)?;
    let nobody = fates.start()?;
    fates.abort(nobody);
    Ok(fates)
}

/// What a shot has of one table.
fn taken_table(
    alloc: Global,
    look: &Look<'_>,
    query: &Query,
    n: usize,
    head: &Table,
    table: &Stages,
) -> Result<Stages, AllocError>
    requires columns { head.now.columns ≡ table.now.stages.columns }
    requires narrow { length head.now.columns ≤ 64 }
    ensures { IfOk result (λ shown. shown.stages ≡ taken (sight look.now) query.now n table.now.stages) }
{
    let columns = head.columns.duplicate(alloc)?;
    if is_read(look.tables, query, n) {
        shown_table(alloc, look.snapshot, columns, table)
    } else {
        Stages::new(alloc, columns)
    }
}

impl Shot {
    /// What a question reads of what is seen there. The parts of main are shared and not copied.
    pub fn take(alloc: Global, look: &Look<'_>, query: &Query) -> Result<Shot, AllocError>
        requires { CanLook (sight look.now) }
        ensures { IfOk result (λ shot. (rows : List (ℕ × Stored)) → Sees (sight look.now) rows → IsShot query.now look.now.tables.now rows shot) }
    {
        let mut tables = Vec::with_capacity(alloc, look.tables.len())?;
        let mut stages = Vec::with_capacity(alloc, look.tables.len())?;
        for n in 0..look.tables.len() {
            let head = &look.tables[n];
            let table = taken_table(alloc, look, query, n, head, &look.stages[n])?;
            tables.push(head.duplicate(alloc)?)?;
            stages.push(table)?;
        }
        Ok(Shot {
            tables,
            stages,
            fates: settled(alloc)?,
        })
    }

    /// All that the question looks at.
    fn look(&self) -> Look<'_>
        ensures { sight result ≡ shot_sight self.now }
    {
        Look {
            tables: self.tables.as_slice(),
            stages: self.stages.as_slice(),
            snapshot: Snapshot {
                fates: &self.fates,
                at: 0,
                own: None,
            },
        }
    }

    /// What the question that the shot was taken for is answered outside a transaction, by the
    /// state of then, whatever became of the store since.
    pub fn answer(&self, alloc: Global, query: &Query) -> Result<Reply, AllocError>
        requires { (s : State) × IsShotOf query.now s self.now }
        ensures { IfOk result (λ reply. (s : State) → IsShotOf query.now s self.now → reply ≡ answered s query.now) }
    {
        match ask(alloc, &self.look(), query) {
            Ok(reply) => Ok(reply),
            Err(Refusal::Memory) => Err(AllocError),
            Err(why) => Ok(Reply::Refused(why)),
        }
    }
}
