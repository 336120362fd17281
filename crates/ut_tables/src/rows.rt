//! The rows of all tables.
ghost use Rattle.std.specs.Prelude.{◌≡◌, IfOk, map};
ghost use Rattle.ut_tables.specs.Rows.{restored};

use std::alloc::{AllocError, Global};
use std::marker::Model;
use ut_plain::Table;
use ut_stamps::Fates;
use ut_table::Table as Stages;

/// The tables with their rows, and what became of each transaction.
#[derive(Drop)]
pub struct Rows {
    /// The name and the columns of each table, and in the same order its stages.
    pub(crate) tables: Vec<Table>,
    pub(crate) stages: Vec<Stages>,
    pub(crate) fates: Fates,
}

impl Model for Rows {
    ghost use Rattle.std.specs.Prelude.{map};
    ghost use Rattle.ut_table.specs.Contents.{TableValue};
    ghost use Rattle.ut_tables.specs.Rows.{RowsValue};

    ghost Value = { RowsValue };

    ghost view = { λ r. record {
      rows = record { tables = r.tables.items; staged = map (λ (t : TableValue). t.stages) r.stages.items; fates = r.fates };
      spare = map (λ (t : TableValue). t.spare) r.stages.items;
    } };
}

impl Rows {
    /// These tables with their rows, of which each was there at the opening or is nobody's.
    pub fn restored(
        alloc: Global,
        tables: Vec<Table>,
        stages: Vec<Stages>,
    ) -> Result<Rows, AllocError>
        ensures { IfOk result (λ r. r.rows ≡ restored tables.items (map (λ t. t.stages) stages.items)) }
    {
        let mut fates = Fates::new(alloc)?;
        let nobody = fates.start()?;
        fates.abort(nobody);
        Ok(Rows {
            tables,
            stages,
            fates,
        })
    }
}
