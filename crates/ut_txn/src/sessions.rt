//! The seats of the sessions. Beginning, committing and aborting a transaction take no memory: the
//! operations of each stand as the frame that its commit hands to the log.
ghost use Rattle.std.specs.Prelude.{◌≡◌, ◌≢◌, ◌+◌, ◌<◌, ◌≤◌, ◌^◌, ◌++◌, ◌∷◌, ◌↔◌, [], List, length, nat_lt, IsTrue, IfOk, OnOk};
ghost use Rattle.ut_value.specs.declared.entry.Op.{Op};
ghost use Rattle.ut_value.specs.declared.entry.Op.TheVariants.{Insert};
ghost use Rattle.ut_value.specs.declared.entry.Entry.TheVariants.{Txn};
ghost use Rattle.ut_value.specs.Spelling.{spelling, is_op, op_len};
ghost use Rattle.ut_txn.specs.Seats.{opened_at, payload_at, spare_at, snapshots_of, AreEmpty, SeatSet, SeatsStay};

use crate::opened::Opened;
use crate::seated::Seated;
use std::alloc::{AllocError, Global};
use std::marker::Model;
use ut_frame::Frame;
use ut_value::{Op, SEATS, Value};

/// The seats, by the number of the session.
#[derive(Drop)]
pub struct Sessions {
    seats: Vec<Seated>,
}

impl Model for Sessions {
    ghost use Rattle.std.specs.Prelude.{◌≡◌, List, length};
    ghost use Rattle.ut_txn.specs.Seats.{Seat};

    ghost Value = { List Seat };

    ghost view = { λ s. s.seats.items };

    ghost invariant = { λ s. length s.seats.items ≡ 17 };
}

impl Sessions {
    pub fn new(alloc: Global) -> Result<Sessions, AllocError>
        ensures { IfOk result (AreEmpty 17) }
    {
        let mut seats = Vec::with_capacity(alloc, SEATS)?;
        for _ in 0..SEATS {
            seats.push(Seated::new(alloc)?)?;
        }
        Ok(Sessions { seats })
    }

    /// The transaction of a session.
    pub fn opened(&self, session: u8) -> Option<Opened>
        requires { session < 17 }
        ensures { result ≡ opened_at self.now session }
    {
        self.seats[session as usize].opened()
    }

    /// Where the open transactions look.
    pub fn snapshots(&self, alloc: Global) -> Result<Vec<u32>, AllocError>
        ensures { IfOk result (λ snapshots. snapshots.items ≡ snapshots_of self.now) }
    {
        let mut snapshots = Vec::new(alloc);
        for seat in &self.seats {
            if let Some(opened) = seat.opened() {
                snapshots.push(opened.snapshot)?;
            }
        }
        Ok(snapshots)
    }

    /// Whether a session has own operations.
    pub fn has_own(&self, session: u8) -> bool
        requires { session < 17 }
        ensures value { result ≡ nat_lt 5 (length (payload_at self.now session)) }
        ensures own { (os : List Op) → payload_at self.now session ≡ spelling (Txn os) → (IsTrue result ↔ os ≢ []) }
    {
        self.seats[session as usize].has_own()
    }

    /// How many bytes a commit would append.
    pub fn size(&self, session: u8) -> u32
        requires { session < 17 }
        ensures { result ≡ length (payload_at self.now session) }
    {
        self.seats[session as usize].size()
    }

    /// Opens a session's transaction. Takes no memory.
    pub fn begin(&mut self, session: u8, opened: Opened)
        requires { session < 17 }
        ensures { SeatSet self.old self.new session (Some opened) (payload_at self.old session) }
    {
        self.seats[session as usize].begin(opened);
    }

    /// Makes room for so many bytes of operations more.
    pub fn room(&mut self, session: u8, bytes: u32) -> Result<(), AllocError>
        requires { session < 17 }
        ensures ok { OnOk result (bytes ≤ spare_at self.new session) }
        ensures stay { SeatsStay self.old self.new }
        ensures spare { spare_at self.old session ≤ spare_at self.new session }
    {
        self.seats[session as usize].room(bytes)
    }

    /// Adds an own operation, in the room that was made. Takes no memory.
    pub fn note(&mut self, session: u8, op: &Op)
        requires seat { session < 17 }
        requires rule { IsTrue (is_op op.now) }
        requires room { op_len op.now ≤ spare_at self.old session }
        requires size { length (payload_at self.old session) + op_len op.now ≤ 2 ^ 30 }
        ensures grown { (os : List Op) → payload_at self.old session ≡ spelling (Txn os) → payload_at self.new session ≡ spelling (Txn (os ++ op.now ∷ [])) }
        ensures len { length (payload_at self.new session) ≡ length (payload_at self.old session) + op_len op.now }
        ensures set { SeatSet self.old self.new session (opened_at self.old session) (payload_at self.new session) }
        ensures spare { spare_at self.old session ≤ spare_at self.new session + op_len op.now }
    {
        self.seats[session as usize].note(op);
    }

    /// Adds an own insert of these values, in the room that was made. Takes no memory.
    pub fn note_insert(&mut self, session: u8, table: u16, id: u32, values: &[Value])
        requires seat { session < 17 }
        requires rule { IsTrue (is_op (Insert table id values.now)) }
        requires room { op_len (Insert table id values.now) ≤ spare_at self.old session }
        requires size { length (payload_at self.old session) + op_len (Insert table id values.now) ≤ 2 ^ 30 }
        ensures grown { (os : List Op) → payload_at self.old session ≡ spelling (Txn os) → payload_at self.new session ≡ spelling (Txn (os ++ Insert table id values.now ∷ [])) }
        ensures len { length (payload_at self.new session) ≡ length (payload_at self.old session) + op_len (Insert table id values.now) }
        ensures set { SeatSet self.old self.new session (opened_at self.old session) (payload_at self.new session) }
        ensures spare { spare_at self.old session ≤ spare_at self.new session + op_len (Insert table id values.now) }
    {
        self.seats[session as usize].note_insert(table, id, values);
    }

    /// Hands out the frame of a session's operations for the log, and ends the transaction. Takes no memory.
    pub fn take_frame(&mut self, session: u8, out: &mut Frame)
        requires { session < 17 }
        ensures out { out.new.payload ≡ payload_at self.old session }
        ensures set { SeatSet self.old self.new session None (spelling (Txn [])) }
    {
        self.seats[session as usize].take_frame(out);
    }

    /// Ends a session's transaction and forgets its operations. Takes no memory.
    pub fn close(&mut self, session: u8)
        requires { session < 17 }
        ensures { SeatSet self.old self.new session None (spelling (Txn [])) }
    {
        self.seats[session as usize].close();
    }
}
