//! Whether operations keep to the limits, and whether another transaction is in their way.
ghost use Rattle.std.specs.Prelude.{◌≡◌, ◌<◌, true, false, None, Some, IsTrue, IfOk, IfErr, IfSome, IfNone};
ghost use Rattle.std.specs.List.{list_all};
ghost use Rattle.ut_value.specs.Spelling.{is_op, ops_len};
ghost use Rattle.ut_plain.specs.Rows.{inserts_of};
ghost use Rattle.ut_tables.specs.Works.{AreChanges, ops_in, places_of};
ghost use Rattle.ut_store.specs.Changes.{HasPlaces, has_ids_for, has_room_for, late_refusal};

use crate::Store;
use crate::transactions::ENTRIES_LIMIT;
use ut_plain::Refusal;
use ut_tables::Work;
use ut_value::ENTRY_LIMIT;

/// The bytes of the longest entry.
pub(crate) const MOST_BYTES: u32 = ENTRY_LIMIT;

impl Store {
    /// How many bytes the operations of work are spelled in; or the refusal by a limit, or by the least row that another
    /// transaction took.
    pub(crate) fn measured(&self, session: u8, work: &Work<'_>) -> Result<u32, Refusal>
        requires seat { session < 17 }
        requires places { HasPlaces self.now work.now.place (places_of work.now) }
        requires are { AreChanges work.now.changes }
        requires rule { IsTrue (list_all is_op (ops_in work.now.changes)) }
        requires count { work.now.inserts ≡ inserts_of (ops_in work.now.changes) }
        ensures ok { IfOk result (λ bytes. late_refusal self.now session work.now.place (places_of work.now) (ops_in work.now.changes) ≡ None) }
        ensures bytes { IfOk result (λ bytes. bytes ≡ ops_len (ops_in work.now.changes)) }
        ensures err { IfErr result (λ why. late_refusal self.now session work.now.place (places_of work.now) (ops_in work.now.changes) ≡ Some why) }
    {
        let Some(bytes) = self.bytes_for(session, work) else {
            return Err(Refusal::Full);
        };
        let look = self.look(session);
        match self.rows.first_taken(
            work.place,
            look.snapshot.at,
            look.snapshot.own,
            work.changes.hits(),
        ) {
            Some(id) => Err(Refusal::Conflict(id)),
            None => Ok(bytes),
        }
    }

    /// Whether there are ids for so many new rows.
    pub(crate) fn has_ids_for(&self, rows: usize) -> bool
        ensures { result ≡ has_ids_for self.now rows }
    {
        let next = u64::from(self.counts.next_id);
        let free = (u64::from(self.counts.rows_limit) + 1).saturating_sub(next);
        rows == 0 || rows as u64 <= free
    }

    // How many bytes the operations are spelled in, where they keep to the limits.
    fn bytes_for(&self, session: u8, work: &Work<'_>) -> Option<u32>
        requires seat { session < 17 }
        requires are { AreChanges work.now.changes }
        requires rule { IsTrue (list_all is_op (ops_in work.now.changes)) }
        requires count { work.now.inserts ≡ inserts_of (ops_in work.now.changes) }
        ensures some { IfSome result (λ bytes. has_room_for self.now session (ops_in work.now.changes) ≡ true) }
        ensures bytes { IfSome result (λ bytes. bytes ≡ ops_len (ops_in work.now.changes)) }
        ensures none { IfNone result (has_room_for self.now session (ops_in work.now.changes) ≡ false) }
    {
        if work.changes.is_empty() {
            return Some(0);
        }
        let journal = self.sessions.opened(session).is_some()
            || self.counts.entries < ENTRIES_LIMIT;
        if !journal {
            return None;
        }
        if !self.has_ids_for(work.inserts as usize) {
            return None;
        }
        let own = self.sessions.size(session);
        if own > MOST_BYTES {
            return None;
        }
        work.changes.ops_len(MOST_BYTES - own)
    }
}
