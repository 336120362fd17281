//! The rows of all tables in their stages, and where the present row of each id stands.
ghost use Rattle.std.specs.Prelude.{◌≡◌, ◌<◌, ◌≤◌, ◌^◌, [], ◌∷◌, IfOk, OnOk, IsErrOf, IsSome, length};
ghost use Rattle.ut_value.specs.declared.entry.Op.TheVariants.{Insert, Delete};
ghost use Rattle.ut_stamps.specs.declared.place.Place.TheVariants.{L1};
ghost use Rattle.ut_staged.specs.Tables.{place_at};
ghost use Rattle.ut_restart.specs.declared.error.RestartError.{RestartError};
ghost use Rattle.ut_restart.specs.Standing.{shown, staged_at, entered_in, buried_in, CanEnter};
ghost use Rattle.ut_restart.specs.Applied.{AreSound, Added, Applied, Refused, may_insert};

use crate::RestartError;
use std::alloc::{AllocError, Global};
use std::collections::HashMap;
use ut_plain::{Table, fits_columns};
use ut_scan::Place;
use ut_stamps::Stamp;
use ut_table::Table as Stages;
use ut_value::{Op, ROWS_LIMIT, Row, Seq};

/// The transaction that is committed before all else.
pub(crate) const BEFORE_ALL: u64 = 0;

/// The transaction that aborted: its rows are nobody's.
pub(crate) const NOBODY: u64 = 1;

/// Where a row stands.
#[derive(Clone, Copy)]
pub(crate) struct Position {
    pub table: u16,
    pub place: Place,
}

/// The rows of all tables.
#[derive(Drop)]
pub(crate) struct Rows {
    pub stages: Vec<Stages>,
    /// Where the present row of an id stands.
    pub positions: HashMap<u32, Position>,
    /// One above the greatest id that was ever inserted.
    pub next: u32,
    pub load: u32,
}

// A row enters the first stage of a table, behind the others.
fn enter(stages: &mut [Stages], table: u16, row: Row) -> Result<Place, AllocError>
    requires { CanEnter (shown stages.old) table row }
    ensures place { IfOk result (λ place. place ≡ L1 (length (staged_at (shown stages.old) table).l1)) }
    ensures stages { OnOk result (shown stages.new ≡ entered_in (shown stages.old) table row) }
{
    let stage = &mut stages[table as usize];
    let place = Place::L1(stage.l1_len());
    let stamp = Stamp {
        begin: BEFORE_ALL,
        end: None,
    };
    stage.room(1)?;
    stage.push(row, stamp);
    Ok(place)
}

// The row in a place is nobody's from now on.
fn bury(stages: &mut [Stages], at: Position)
    requires { IsSome (place_at (shown stages.old) at.table at.place) }
    ensures { shown stages.new ≡ buried_in (shown stages.old) at }
{
    let stamp = Stamp {
        begin: NOBODY,
        end: None,
    };
    stages[at.table as usize].restamp(at.place, stamp);
}

impl Rows {
    /// Applies operations in order.
    pub(crate) fn apply(&mut self, tables: &[Table], ops: Seq<Op>) -> Result<(), RestartError>
        requires { AreSound tables.now self.old }
        ensures ok { OnOk result (Applied tables.now self.old ops self.new) }
        ensures damaged { IsErrOf result RestartError.Damaged → Refused tables.now self.old ops }
    {
        for op in ops.into_vec() {
            self.apply_one(tables, op)?;
        }
        Ok(())
    }

    fn apply_one(&mut self, tables: &[Table], op: Op) -> Result<(), RestartError>
        requires { AreSound tables.now self.old }
        ensures ok { OnOk result (Applied tables.now self.old (op ∷ []) self.new) }
        ensures damaged { IsErrOf result RestartError.Damaged → Refused tables.now self.old (op ∷ []) }
    {
        match op {
            Op::Insert { table, id, values } => self.insert(tables, table, Row { id, values }),
            Op::Delete { table, id } => self.delete(tables, table, id),
        }
    }

    fn insert(&mut self, tables: &[Table], table: u16, row: Row) -> Result<(), RestartError>
        requires { AreSound tables.now self.old }
        ensures ok { OnOk result (Applied tables.now self.old (Insert table row.id row.values ∷ []) self.new) }
        ensures damaged { IsErrOf result RestartError.Damaged → Refused tables.now self.old (Insert table row.id row.values ∷ []) }
    {
        if !self.may_insert(tables, table, &row) {
            return Err(RestartError::Damaged);
        }
        self.add(table, row)?;
        Ok(())
    }

    // Whether a row suits its table and its id is free.
    fn may_insert(&self, tables: &[Table], table: u16, row: &Row) -> bool
        ensures { result ≡ may_insert tables.now self.now table row.now }
    {
        let Some(known) = tables.get(table as usize) else {
            return false;
        };
        fits_columns(known.columns.as_slice(), row.values.as_slice())
            && 1 <= row.id
            && row.id <= ROWS_LIMIT
            && !self.positions.contains_key(&row.id)
            && self.load < ROWS_LIMIT
    }

    fn add(&mut self, table: u16, row: Row) -> Result<(), AllocError>
        requires enters { CanEnter (shown self.old.stages.items) table row }
        requires few { self.old.load < 2 ^ 31 }
        requires id { row.id ≤ 2 ^ 31 }
        ensures { OnOk result (Added self.old table row self.new) }
    {
        let id = row.id;
        let place = enter(&mut self.stages, table, row)?;
        self.positions.insert(id, Position { table, place })?;
        self.load += 1;
        if self.next <= id {
            self.next = id + 1;
        }
        Ok(())
    }

    // The present row of an id is nobody's from now on.
    fn delete(&mut self, tables: &[Table], table: u16, id: u32) -> Result<(), RestartError>
        requires { AreSound tables.now self.old }
        ensures ok { OnOk result (Applied tables.now self.old (Delete table id ∷ []) self.new) }
        ensures damaged { IsErrOf result RestartError.Damaged → Refused tables.now self.old (Delete table id ∷ []) }
    {
        let Some(at) = self.positions.get(&id).copied() else {
            return Err(RestartError::Damaged);
        };
        if at.table != table {
            return Err(RestartError::Damaged);
        }
        bury(&mut self.stages, at);
        let _ = self.positions.remove(&id);
        Ok(())
    }
}
