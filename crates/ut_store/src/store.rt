//! The store: its tables, their rows in stages, the transactions and what became of each.
ghost use Rattle.std.specs.Prelude.{◌≡◌, ◌<◌, ◌≤◌, ◌^◌, ℕ, IfOk};
ghost use Rattle.ut_plain.specs.Capture.{Directory};
ghost use Rattle.ut_plain.specs.Plain.{Plain, new_store, no_image};
ghost use Rattle.ut_tables.specs.Standing.{Opens};
ghost use Rattle.ut_store.specs.Stands.{StandsFor};

use crate::counts::Counts;
use std::alloc::{AllocError, Global};
use std::marker::Model;
use ut_frame::Frame;
use ut_tables::{Restored, Rows};
use ut_txn::Sessions;

/// The id of the first row.
const FIRST_ID: u32 = 1;

/// A store in memory. Sessions 1 to 16 have transactions; session 0 has the statements of the store.
pub struct Store {
    pub(crate) rows: Rows,
    pub(crate) sessions: Sessions,
    pub(crate) counts: Counts,
    pub(crate) frame: Frame,
}

// One step of a proof, wherever one is dropped.
impl Drop for Store {
    fn drop(self) {
        let Store {
            rows: _,
            sessions: _,
            counts: _,
            frame: _,
        } = self;
    }
}

impl Model for Store {
    ghost use Rattle.ut_store.specs.Held.{Held};

    ghost Value = { Held };

    ghost view = { λ s. record {
      rows = s.rows.rows;
      seats = s.sessions;
      counts = s.counts;
      frame = s.frame.payload;
    } };
}

impl Store {
    /// A store without tables, which gives at most so many ids.
    pub fn new(alloc: Global, rows_limit: u32) -> Result<Store, AllocError>
        requires { rows_limit ≤ 2 ^ 31 }
        ensures { IfOk result (λ s. (image_pages : Directory → ℕ) → StandsFor s (new_store (no_image image_pages) rows_limit)) }
    {
        let rows = Rows::restored(alloc, Vec::new(alloc), Vec::new(alloc))?;
        let nothing = Restored {
            rows,
            next_id: FIRST_ID,
            commits: 0,
            merges: 0,
            entries: 0,
        };
        Store::restored(alloc, nothing, rows_limit)
    }

    /// A store with these rows, which gives at most so many ids.
    pub fn restored(alloc: Global, restored: Restored, rows_limit: u32) -> Result<Store, AllocError>
        ensures { IfOk result (λ e. (p : Plain) → Opens restored p → p.rows_limit ≡ rows_limit → StandsFor e p) }
    {
        let sessions = Sessions::new(alloc)?;
        let frame = Frame::txn(alloc)?;
        let Restored {
            rows,
            next_id,
            commits,
            merges,
            entries,
        } = restored;
        let counts = Counts {
            next_id,
            rows_limit,
            commits,
            merges,
            entries,
            pending: None,
        };
        Ok(Store {
            rows,
            sessions,
            counts,
            frame,
        })
    }

    /// The rows of all tables, for the layers above.
    pub fn all_rows(&self) -> &Rows
        ensures { result.now.rows ≡ self.now.rows }
    {
        &self.rows
    }

    /// The frame that the log is to append.
    pub fn frame(&self) -> &Frame
        ensures { result.now.payload ≡ self.now.frame }
    {
        &self.frame
    }

    /// How many tables were made and transactions committed.
    pub fn commits(&self) -> u32
        ensures { result ≡ self.now.counts.commits }
    {
        self.counts.commits
    }

    /// How many entries the journal has.
    pub fn entries(&self) -> u32
        ensures { result ≡ self.now.counts.entries }
    {
        self.counts.entries
    }

    /// The id of the next row.
    pub fn next_id(&self) -> u32
        ensures { result ≡ self.now.counts.next_id }
    {
        self.counts.next_id
    }
}
