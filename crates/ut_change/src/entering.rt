//! One row that enters the first stage of its table. It is spelled as an insert, and no list of operations is made for it.
ghost use Rattle.std.specs.Prelude.{◌≡◌, ◌+◌, ◌<◌, ◌≤◌, ◌^◌, ◌++◌, ◌∷◌, [], List, None, length, IsTrue, MatchOption, OnOk};
ghost use Rattle.ut_value.specs.declared.entry.Op.{Op};
ghost use Rattle.ut_value.specs.declared.entry.Entry.TheVariants.{Txn};
ghost use Rattle.ut_value.specs.Spelling.{spelling, is_op, op_len};
ghost use Rattle.ut_txn.specs.Seats.{opened_at, payload_at, spare_at, SeatSet};
ghost use Rattle.ut_change.specs.Entering.{insert_of};

use std::alloc::AllocError;
use ut_entry::insert_len;
use ut_frame::Frame;
use ut_stamps::Stamp;
use ut_txn::Sessions;
use ut_value::{Row, Seq, Value};

/// A row of these values under an id, in the table at a place.
#[derive(Drop)]
pub struct Entering {
    pub table: u16,
    pub id: u32,
    pub values: Seq<Value>,
}

impl Entering {
    /// The row as it enters its stage in a transaction of this number.
    pub fn begun(self, number: u64) -> (Row, Stamp)
        ensures row { result.0 ≡ record { id = self.id; values = self.values } }
        ensures stamp { result.1 ≡ record { begin = number; end = None } }
    {
        let Entering { id, values, .. } = self;
        let stamp = Stamp {
            begin: number,
            end: None,
        };
        (Row { id, values }, stamp)
    }

    /// How many bytes the spelling of the insert has, where they are at most so many.
    pub fn ops_len(&self, most: u32) -> Option<u32>
        requires rule { IsTrue (is_op (insert_of self.now)) }
        requires most { most ≤ 2 ^ 30 }
        ensures { MatchOption result (most < op_len (insert_of self.now)) (λ n. (n ≡ op_len (insert_of self.now)) × (n ≤ most)) }
    {
        let bytes = insert_len(self.values.as_slice());
        if bytes > most {
            return None;
        }
        Some(bytes)
    }

    /// The insert joins a session's own operations, in the room that was made (`Sessions::room`). This takes no memory.
    pub fn note(&self, sessions: &mut Sessions, session: u8)
        requires rule { IsTrue (is_op (insert_of self.now)) }
        requires seat { session < 17 }
        requires room { op_len (insert_of self.now) ≤ spare_at sessions.old session }
        requires size { length (payload_at sessions.old session) + op_len (insert_of self.now) ≤ 2 ^ 30 }
        ensures grown { (ps : List Op) → payload_at sessions.old session ≡ spelling (Txn ps)
            → payload_at sessions.new session ≡ spelling (Txn (ps ++ insert_of self.now ∷ [])) }
        ensures set { SeatSet sessions.old sessions.new session (opened_at sessions.old session) (payload_at sessions.new session) }
    {
        sessions.note_insert(session, self.table, self.id, self.values.as_slice());
    }

    /// Makes a frame that of an entry of the insert, which is spelled in so many bytes.
    pub fn spell(&self, frame: &mut Frame, bytes: u32) -> Result<(), AllocError>
        requires rule { IsTrue (is_op (insert_of self.now)) }
        requires bytes { bytes ≡ op_len (insert_of self.now) }
        requires short { bytes + 5 ≤ 2 ^ 30 }
        ensures { OnOk result (frame.new.payload ≡ spelling (Txn (insert_of self.now ∷ []))) }
    {
        frame.clear();
        frame.room(bytes)?;
        frame.add_insert(self.table, self.id, self.values.as_slice());
        Ok(())
    }
}
