//! Transactions: they begin, are given up, and are committed.
ghost use Rattle.std.specs.Prelude.{◌≡◌, ◌<◌, None, Some, true, nat_lt, length};
ghost use Rattle.ut_names.specs.declared.bound.Task.TheVariants as tasks;
ghost use Rattle.ut_txn.specs.Seats.{opened_at, payload_at};
ghost use Rattle.ut_store.specs.Ending.{Forgotten, MayEnd};
ghost use Rattle.ut_store.specs.Executing.{Executes, MayExecute};

use crate::{Outcome, Store};
use ut_plain::{Refusal, Why};
use ut_txn::Opened;

/// A journal has room for one entry more while it has fewer.
pub(crate) const ENTRIES_LIMIT: u32 = ut_value::ENTRIES_LIMIT;

impl Store {
    /// Begins the session's transaction: it sees the journal as it is now.
    pub(crate) fn begin(&mut self, session: u8) -> Outcome
        requires { MayExecute self.old session tasks.Begin }
        ensures { Executes self.old session tasks.Begin result self.new }
    {
        if self.sessions.opened(session).is_some() {
            return Outcome::Refused(Refusal::State(Why::TxnOpen));
        }
        let snapshot = self.counts.entries;
        match self.rows.start() {
            Err(_) => Outcome::Refused(Refusal::Memory),
            Ok(number) => {
                self.sessions.begin(session, Opened { snapshot, number });
                Outcome::Done
            }
        }
    }

    /// Ends the session's transaction, whose changes nobody will see. Takes no memory.
    pub(crate) fn abort(&mut self, session: u8) -> Outcome
        requires { MayExecute self.old session tasks.Abort }
        ensures { Executes self.old session tasks.Abort result self.new }
    {
        let Some(opened) = self.sessions.opened(session) else {
            return Outcome::Refused(Refusal::State(Why::TxnClosed));
        };
        self.forget(session, opened);
        Outcome::Done
    }

    /// Commits the session's transaction. Takes no memory.
    pub(crate) fn commit(&mut self, session: u8) -> Outcome
        requires { MayExecute self.old session tasks.Commit }
        ensures { Executes self.old session tasks.Commit result self.new }
    {
        let Some(opened) = self.sessions.opened(session) else {
            return Outcome::Refused(Refusal::State(Why::TxnClosed));
        };
        if !self.sessions.has_own(session) {
            self.forget(session, opened);
            return Outcome::Done;
        }
        if self.counts.entries >= ENTRIES_LIMIT {
            return Outcome::Refused(Refusal::Full);
        }
        self.commit_own(session, opened)
    }

    // Of a transaction that is given up, or has no operations, nothing is kept.
    fn forget(&mut self, session: u8, opened: Opened)
        requires seat { session < 17 }
        requires opened { opened_at self.old.seats session ≡ Some opened }
        requires may { MayEnd self.old opened }
        ensures { Forgotten self.old session opened self.new }
    {
        self.rows.abort(opened.number);
        self.sessions.close(session);
    }

    // The operations of the others become an entry.
    fn commit_own(&mut self, session: u8, opened: Opened) -> Outcome
        requires may { MayExecute self.old session tasks.Commit }
        requires opened { opened_at self.old.seats session ≡ Some opened }
        requires own { nat_lt 5 (length (payload_at self.old.seats session)) ≡ true }
        requires room { self.old.counts.entries < ENTRIES_LIMIT }
        ensures { Executes self.old session tasks.Commit result self.new }
    {
        self.counts.entries += 1;
        self.counts.commits += 1;
        self.rows.commit(opened.number, self.counts.entries);
        self.sessions.take_frame(session, &mut self.frame);
        Outcome::Committed(self.counts.commits)
    }
}
