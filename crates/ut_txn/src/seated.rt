//! What one session has: its transaction, and its own operations as the frame that a commit will append.
ghost use Rattle.std.specs.Prelude.{◌≡◌, ◌+◌, ◌≤◌, ◌^◌, ◌++◌, ◌∷◌, [], List, length, nat_lt, IsTrue, IfOk, OnOk};
ghost use Rattle.ut_value.specs.declared.entry.Op.{Op};
ghost use Rattle.ut_value.specs.declared.entry.Op.TheVariants.{Insert};
ghost use Rattle.ut_value.specs.declared.entry.Entry.TheVariants.{Txn};
ghost use Rattle.ut_value.specs.Spelling.{spelling, is_op, op_len};

use crate::opened::Opened;
use std::alloc::{AllocError, Global};
use std::marker::Model;
use std::mem;
use ut_frame::Frame;
use ut_value::{Op, Value};

/// The bytes of a transaction without operations.
const NO_OPERATIONS_LEN: u32 = 5;

#[derive(Drop)]
pub(crate) struct Seated {
    opened: Option<Opened>,
    frame: Frame,
}

impl Model for Seated {
    ghost use Rattle.ut_txn.specs.Seats.{Seat};

    ghost Value = { Seat };

    ghost view = { λ s. record { opened = s.opened; payload = s.frame.payload; spare = s.frame.spare } };
}

impl Seated {
    pub(crate) fn new(alloc: Global) -> Result<Seated, AllocError>
        ensures opened { IfOk result (λ s. s.opened ≡ None) }
        ensures payload { IfOk result (λ s. s.payload ≡ spelling (Txn [])) }
    {
        let frame = Frame::txn(alloc)?;
        Ok(Seated {
            opened: None,
            frame,
        })
    }

    pub(crate) fn opened(&self) -> Option<Opened>
        ensures { result ≡ self.now.opened }
    {
        self.opened
    }

    pub(crate) fn has_own(&self) -> bool
        ensures { result ≡ nat_lt 5 (length self.now.payload) }
    {
        self.size() > NO_OPERATIONS_LEN
    }

    pub(crate) fn size(&self) -> u32
        ensures { result ≡ length self.now.payload }
    {
        self.frame.size()
    }

    pub(crate) fn begin(&mut self, opened: Opened)
        ensures opened { self.new.opened ≡ Some opened }
        ensures payload { self.new.payload ≡ self.old.payload }
    {
        self.opened = Some(opened);
    }

    pub(crate) fn room(&mut self, bytes: u32) -> Result<(), AllocError>
        ensures ok { OnOk result (bytes ≤ self.new.spare) }
        ensures opened { self.new.opened ≡ self.old.opened }
        ensures payload { self.new.payload ≡ self.old.payload }
        ensures spare { self.old.spare ≤ self.new.spare }
    {
        self.frame.room(bytes)
    }

    pub(crate) fn note(&mut self, op: &Op)
        requires rule { IsTrue (is_op op.now) }
        requires room { op_len op.now ≤ self.old.spare }
        requires size { length self.old.payload + op_len op.now ≤ 2 ^ 30 }
        ensures grown { (os : List Op) → self.old.payload ≡ spelling (Txn os) → self.new.payload ≡ spelling (Txn (os ++ op.now ∷ [])) }
        ensures len { length self.new.payload ≡ length self.old.payload + op_len op.now }
        ensures opened { self.new.opened ≡ self.old.opened }
        ensures spare { self.old.spare ≤ self.new.spare + op_len op.now }
    {
        self.frame.add(op);
    }

    pub(crate) fn note_insert(&mut self, table: u16, id: u32, values: &[Value])
        requires rule { IsTrue (is_op (Insert table id values.now)) }
        requires room { op_len (Insert table id values.now) ≤ self.old.spare }
        requires size { length self.old.payload + op_len (Insert table id values.now) ≤ 2 ^ 30 }
        ensures grown { (os : List Op) → self.old.payload ≡ spelling (Txn os) → self.new.payload ≡ spelling (Txn (os ++ Insert table id values.now ∷ [])) }
        ensures len { length self.new.payload ≡ length self.old.payload + op_len (Insert table id values.now) }
        ensures opened { self.new.opened ≡ self.old.opened }
        ensures spare { self.old.spare ≤ self.new.spare + op_len (Insert table id values.now) }
    {
        self.frame.add_insert(table, id, values);
    }

    pub(crate) fn take_frame(&mut self, out: &mut Frame)
        ensures out { out.new.payload ≡ self.old.payload }
        ensures opened { self.new.opened ≡ None }
        ensures payload { self.new.payload ≡ spelling (Txn []) }
    {
        mem::swap(&mut self.frame, out);
        self.close();
    }

    pub(crate) fn close(&mut self)
        ensures opened { self.new.opened ≡ None }
        ensures payload { self.new.payload ≡ spelling (Txn []) }
    {
        self.opened = None;
        self.frame.clear();
    }
}
