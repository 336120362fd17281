//! What a session looks at, and the rows that it sees there.
ghost use Rattle.std.specs.Prelude.{◌≡◌, ◌<◌, ℕ, List, IfOk};
ghost use Rattle.ut_plain.specs.declared.statement.Pred.{Pred};
ghost use Rattle.ut_table.specs.Finds.{hits_of};
ghost use Rattle.ut_names.specs.Resolved.{IsSelection};
ghost use Rattle.ut_look.specs.Look.{sight};
ghost use Rattle.ut_query.specs.Tells.{IsSelected};
ghost use Rattle.ut_store.specs.Changes.{Looked};
ghost use Rattle.ut_store.specs.Listed.{Lists};
ghost use Rattle.ut_store.specs.Reads.{sight_of};
ghost use Rattle.ut_store.specs.Standing.{Stands};

use crate::Store;
use std::alloc::{AllocError, Global};
use ut_names::Selection;
use ut_query::Look;
use ut_scan::Found;
use ut_value::{OPERATOR, Row, Seq};

impl Store {
    /// The tables with their rows, and which of these a session sees, in or outside a transaction.
    pub(crate) fn look(&self, session: u8) -> Look<'_>
        requires { session < 17 }
        ensures { sight result ≡ sight_of self.now session }
    {
        match self.sessions.opened(session) {
            Some(opened) => self.rows.look(opened.snapshot, Some(opened.number)),
            None => self.rows.look(self.counts.entries, None),
        }
    }

    /// The rows of a selection that the session sees, by ascending id.
    pub(crate) fn selected(
        &self,
        alloc: Global,
        session: u8,
        rows: &Selection,
    ) -> Result<Vec<Found>, AllocError>
        requires seat { session < 17 }
        requires stands { Stands self.now }
        requires is { IsSelected self.now.rows.tables rows.now }
        ensures { IfOk result (λ found. (name : List ℕ) (asked : List Pred) → IsSelection self.now.rows.tables name asked rows.now
            → Looked self.now session rows.now.table asked (hits_of found.items)) }
    {
        let look = self.look(session);
        let preds = rows.preds.as_slice();
        self.rows.hits(
            alloc,
            rows.table,
            look.snapshot.at,
            look.snapshot.own,
            preds,
        )
    }

    /// The rows of the table of a name in the state of the whole journal, by ascending id. There are none where there is no such table.
    pub fn rows(&self, alloc: Global, name: &[u8]) -> Result<Option<Seq<Row>>, AllocError>
        requires { Stands self.now }
        ensures { IfOk result (Lists self.now name.now) }
    {
        let look = self.look(OPERATOR);
        self.rows
            .rows(alloc, name, look.snapshot.at, look.snapshot.own)
    }
}
