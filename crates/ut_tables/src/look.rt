//! What is seen of the rows: at a length of the journal, with the rows of an own transaction.
ghost use Rattle.std.specs.Prelude.{◌≡◌, List, Some, IfOk, map, slice_get};
ghost use Rattle.ut_plain.specs.Condition.{meets};
ghost use Rattle.ut_plain.specs.declared.statement.Pred.{Pred};
ghost use Rattle.ut_plain.specs.Compiled.{Compiles};
ghost use Rattle.ut_staged.specs.Staged.{Staged};
ghost use Rattle.ut_table.specs.Finds as finds;
ghost use Rattle.ut_table.specs.Finds.{hits_of};
ghost use Rattle.ut_change.specs.Writes.{AreThere};
ghost use Rattle.ut_look.specs.Look.{sight};
ghost use Rattle.ut_tables.specs.Finds.{CanList, CanScan, Hits, ListsSeen, first_taken_of, row_in, sight_of};
ghost use Rattle.ut_tables.specs.Rows.{HasTable};

use crate::Rows;
use std::alloc::{AllocError, Global};
use ut_change::first_taken_in;
use ut_look::Look;
use ut_plain::place_of;
use ut_scan::{ColumnPred, Found};
use ut_stamps::Snapshot;
use ut_table::Table as Stages;
use ut_value::{Row, Seq};

impl Rows {
    /// All that a question looks at.
    pub fn look(&self, at: u32, own: Option<u64>) -> Look<'_>
        ensures { sight result ≡ sight_of self.now.rows at own }
    {
        Look {
            tables: self.tables.as_slice(),
            stages: self.stages.as_slice(),
            snapshot: Snapshot {
                fates: &self.fates,
                at,
                own,
            },
        }
    }

    /// The rows of the table at a place that are seen and that meet each comparison, by ascending id.
    pub fn hits(
        &self,
        alloc: Global,
        place: usize,
        at: u32,
        own: Option<u64>,
        preds: &[ColumnPred],
    ) -> Result<Vec<Found>, AllocError>
        requires { HasTable self.now.rows place (CanScan self.now.rows.fates at own preds.now) }
        ensures { IfOk result (λ found. (s : Staged) (asked : List Pred)
            → slice_get self.now.rows.staged place ≡ Some s → Compiles s.columns asked preds.now
            → Hits self.now.rows at own place (meets s.columns asked) (hits_of found.items)) }
    {
        let snapshot = Snapshot {
            fates: &self.fates,
            at,
            own,
        };
        self.stages[place].scan(alloc, snapshot, preds)
    }

    /// The id of the first of the rows found that another transaction ended behind this look, or is about to.
    pub fn first_taken(
        &self,
        place: usize,
        at: u32,
        own: Option<u64>,
        hits: &[Found],
    ) -> Option<u32>
        requires { HasTable self.now.rows place (λ s. AreThere s (hits_of hits.now)) }
        ensures { result ≡ first_taken_of self.now.rows at own place (hits_of hits.now) }
    {
        let snapshot = Snapshot {
            fates: &self.fates,
            at,
            own,
        };
        first_taken_in(&self.stages[place], snapshot, hits)
    }

    /// The rows of the table of a name that are seen, by ascending id. There are none where there is no such table.
    pub fn rows(
        &self,
        alloc: Global,
        name: &[u8],
        at: u32,
        own: Option<u64>,
    ) -> Result<Option<Seq<Row>>, AllocError>
        requires { CanList self.now.rows at own name.now }
        ensures { IfOk result (ListsSeen self.now.rows at own name.now) }
    {
        match place_of(&self.tables, name) {
            None => Ok(None),
            Some(place) => {
                let found = self.hits(alloc, place, at, own, &[])?;
                let rows = rows_found(alloc, &self.stages[place], &found)?;
                Ok(Some(rows))
            }
        }
    }
}

// Copies of the rows that were found in a table.
fn rows_found(alloc: Global, table: &Stages, found: &[Found]) -> Result<Seq<Row>, AllocError>
    requires { finds.AreThere table.now.stages found.now }
    ensures { IfOk result (λ rows. rows ≡ map (row_in table.now.stages) found.now) }
{
    let mut rows = Seq::new(alloc);
    for hit in found {
        let values = table.values(alloc, hit.place)?;
        rows.push(Row { id: hit.id, values })?;
    }
    Ok(rows)
}
