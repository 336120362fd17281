//! A statement's work is done: in the session's transaction, or as a transaction by itself.
ghost use Rattle.std.specs.Prelude.{◌≡◌, ◌+◌, ◌<◌, ◌≤◌, ◌^◌, Some, length, OnOk, OnErr};
ghost use Rattle.ut_value.specs.Spelling.{ops_len};
ghost use Rattle.ut_plain.specs.Rows.{inserts_of};
ghost use Rattle.ut_tables.specs.Works.{LoadsWell, ops_in, places_of, worked};
ghost use Rattle.ut_txn.specs.Seats.{opened_at, payload_at};
ghost use Rattle.ut_store.specs.Answers.{Same};
ghost use Rattle.ut_store.specs.Changes.{CanDo, CanAppend, DoneInside, DoneAlone, Stays};

use crate::Store;
use std::alloc::AllocError;
use ut_change::note_all;
use ut_tables::{Changes, Work};
use ut_txn::Opened;

impl Store {
    /// Does work in the session's transaction: all or none. Its operations are spelled in so many bytes.
    pub(crate) fn work_inside(
        &mut self,
        session: u8,
        opened: Opened,
        bytes: u32,
        work: Work<'_>,
    ) -> Result<(), AllocError>
        requires seat { session < 17 }
        requires opened { opened_at self.old.seats session ≡ Some opened }
        requires can { CanDo self.old work.place (places_of work) (ops_in work.changes) }
        requires bytes { bytes ≡ ops_len (ops_in work.changes) }
        requires count { work.inserts ≡ inserts_of (ops_in work.changes) }
        requires size { length (payload_at self.old.seats session) + bytes ≤ 2 ^ 30 }
        requires loads { LoadsWell self.old.rows work }
        ensures ok { OnOk result
            (DoneInside self.old self.new session opened work.entry.place (ops_in work.entry.changes) (worked work.entry)) }
        ensures err { OnErr result (Same self.old self.new) }
    {
        let Work {
            place,
            changes,
            inserts,
            ..
        } = work;
        self.sessions.room(session, bytes)?;
        match changes {
            Changes::Enters(row) => {
                self.rows.room(place, inserts)?;
                row.note(&mut self.sessions, session);
                self.rows.enter(place, opened.number, row);
                self.counts.next_id += inserts;
                Ok(())
            }
            Changes::Writes { hits, ops } => {
                self.rows.room(place, inserts)?;
                note_all(&mut self.sessions, session, &ops);
                self.rows.write_all(place, opened.number, hits, ops);
                self.counts.next_id += inserts;
                Ok(())
            }
            Changes::Loads(bulk) => {
                self.rows.load(place, bulk, opened.number)?;
                bulk.note(&mut self.sessions, session);
                self.counts.next_id += inserts;
                Ok(())
            }
        }
    }

    /// Does work as a transaction by itself, whose frame the log is to append: all or none. Its operations are spelled in so many bytes.
    pub(crate) fn work_alone(&mut self, bytes: u32, work: Work<'_>) -> Result<(), AllocError>
        requires can { CanDo self.old work.place (places_of work) (ops_in work.changes) }
        requires bytes { bytes ≡ ops_len (ops_in work.changes) }
        requires count { work.inserts ≡ inserts_of (ops_in work.changes) }
        requires journal { CanAppend self.old }
        requires loads { LoadsWell self.old.rows work }
        ensures ok { OnOk result (DoneAlone self.old self.new work.entry.place (ops_in work.entry.changes) (worked work.entry)) }
        ensures err { OnErr result (Stays self.old self.new) }
    {
        let inserts = work.inserts;
        work.changes.spell(&mut self.frame, bytes)?;
        self.rows.work_alone(work, self.counts.entries + 1)?;
        self.counts.next_id += inserts;
        self.counts.commits += 1;
        self.counts.entries += 1;
        Ok(())
    }
}
