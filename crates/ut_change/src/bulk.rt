//! The rows of a bulk, whose values stand one row's behind the other's. No value is copied.
ghost use Rattle.std.specs.Prelude.{◌≡◌, ◌+◌, ◌<◌, ◌≤◌, ◌^◌, ◌++◌, ◌∷◌, List, length, OnOk, MatchOption};
ghost use Rattle.ut_value.specs.declared.entry.Op.{Op};
ghost use Rattle.ut_value.specs.declared.entry.Op.TheVariants.{Insert};
ghost use Rattle.ut_value.specs.declared.entry.Entry.TheVariants.{Txn};
ghost use Rattle.ut_value.specs.Spelling.{spelling, ops_len};
ghost use Rattle.ut_txn.specs.Seats.{opened_at, payload_at, spare_at, SeatSet};
ghost use Rattle.ut_change.specs.Bulks.{bulk_ops, CanLoad};

use std::alloc::AllocError;
use ut_entry::insert_len;
use ut_frame::Frame;
use ut_txn::Sessions;
use ut_value::Value;

/// The rows of a bulk: so many values each, one row's behind the other's, under the ids from one on.
#[derive(Clone, Copy)]
pub struct Bulk<'a> {
    pub table: u16,
    pub id: u32,
    pub width: usize,
    pub values: &'a [Value],
}

impl<'a> Bulk<'a> {
    // The values of the first row, and the rows behind it.
    fn split(self) -> (&'a [Value], Bulk<'a>)
        requires is { CanLoad self }
        requires some { 0 < length self.values.now }
        ensures ops { bulk_ops self.entry ≡ Insert self.entry.table self.entry.id result.0.now ∷ bulk_ops result.1 }
        ensures behind { CanLoad result.1 }
        ensures id { result.1.id ≡ self.entry.id + 1 }
        ensures shorter { length result.1.values.now < length self.entry.values.now }
    {
        let (row, values) = self.values.split_at(self.width.min(self.values.len()));
        let id = self.id + 1;
        (row, Bulk { id, values, ..self })
    }

    /// How many bytes the spelling of the inserts has, where they are at most so many.
    pub fn ops_len(self, most: u32) -> Option<u32>
        requires is { CanLoad self }
        requires most { most ≤ 2 ^ 30 }
        ensures { MatchOption result (most < ops_len (bulk_ops self.entry)) (λ n. (n ≡ ops_len (bulk_ops self.entry)) × (n ≤ most)) }
    {
        let mut total = 0;
        let mut rest = self;
        while rest.values.len() > 0 {
            let (row, behind) = rest.split();
            total += insert_len(row);
            if total > most {
                return None;
            }
            rest = behind;
        }
        Some(total)
    }

    /// The inserts join a session's own operations, in the room that was made (`Sessions::room`). This takes no memory.
    pub fn note(self, sessions: &mut Sessions, session: u8)
        requires is { CanLoad self }
        requires seat { session < 17 }
        requires room { ops_len (bulk_ops self) ≤ spare_at sessions.old session }
        requires size { length (payload_at sessions.old session) + ops_len (bulk_ops self) ≤ 2 ^ 30 }
        ensures grown { (ps : List Op) → payload_at sessions.old session ≡ spelling (Txn ps)
            → payload_at sessions.new session ≡ spelling (Txn (ps ++ bulk_ops self.entry)) }
        ensures set { SeatSet sessions.old sessions.new session (opened_at sessions.old session) (payload_at sessions.new session) }
    {
        let mut rest = self;
        while rest.values.len() > 0 {
            let (row, behind) = rest.split();
            sessions.note_insert(session, rest.table, rest.id, row);
            rest = behind;
        }
    }

    /// Makes a frame that of an entry of the inserts, which are spelled in so many bytes.
    pub fn spell(self, frame: &mut Frame, bytes: u32) -> Result<(), AllocError>
        requires is { CanLoad self }
        requires bytes { bytes ≡ ops_len (bulk_ops self) }
        requires short { bytes + 5 ≤ 2 ^ 30 }
        ensures { OnOk result (frame.new.payload ≡ spelling (Txn (bulk_ops self.entry))) }
    {
        frame.clear();
        frame.room(bytes)?;
        self.add(frame);
        Ok(())
    }

    // The inserts are added to a frame, in the room that was made.
    fn add(self, frame: &mut Frame)
        requires is { CanLoad self }
        requires room { ops_len (bulk_ops self) ≤ frame.old.spare }
        requires size { length frame.old.payload + ops_len (bulk_ops self) ≤ 2 ^ 30 }
        ensures { (ps : List Op) → frame.old.payload ≡ spelling (Txn ps) → frame.new.payload ≡ spelling (Txn (ps ++ bulk_ops self.entry)) }
    {
        let mut rest = self;
        while rest.values.len() > 0 {
            let (row, behind) = rest.split();
            frame.add_insert(rest.table, rest.id, row);
            rest = behind;
        }
    }
}
