//! A frame as it goes to the disk, behind its gate.
//!
//!     frame: length (u32, lowest byte first), payload, closed gate of the next frame (0x00)
//!
//! The payload is one entry's bytes. They are never copied on their way to the disk.
ghost use Rattle.std.specs.Prelude.{◌≡◌, ◌+◌, ◌-◌, ◌<◌, ◌≤◌, ◌^◌, ◌++◌, ◌∷◌, [], ℕ, List, length, take, drop, IsTrue, IfOk, OnOk, min, vec_len, vec_capacity};
ghost use Rattle.std.specs.Int.{w32, to_le_bytes};
ghost use Rattle.ut_frame.specs.Framed.{Framed, body, payload_in, IsWhole};
ghost use Rattle.ut_value.specs.declared.entry.Op.{Op};
ghost use Rattle.ut_value.specs.declared.entry.Op.TheVariants.{Insert};
ghost use Rattle.ut_value.specs.declared.entry.Entry.TheVariants.{Txn};
ghost use Rattle.ut_value.specs.Spelling.{spelling, has_spelling, is_op, op_len, op_spelling};

use std::alloc::{AllocError, Global};
use std::marker::Model;
use ut_entry::{entry_bytes, entry_len, put_insert, put_op};
use ut_value::{Entry, Op, Value};

/// The bytes before the payload.
const LENGTH_LEN: usize = 4;

/// The bytes around the payload.
const AROUND_LEN: usize = 5;

/// Where a transaction's number of operations stands.
const COUNT_AT: usize = 5;

/// The frame of a transaction without operations.
const NO_OPERATIONS: [u8; 10] = [5, 0, 0, 0, 2, 0, 0, 0, 0, 0];

/// The room that an emptied frame keeps.
const KEPT_ROOM: usize = 1 << 16;

/// An entry that is ready to be appended.
#[derive(Drop)]
pub struct Frame {
    bytes: Vec<u8>,
}

impl Model for Frame {
    ghost Value = { Framed };

    ghost view = { λ f. record { payload = payload_in f.bytes.items; spare = vec_capacity f.bytes - vec_len f.bytes } };

    ghost invariant = { λ f. (10 ≤ vec_len f.bytes) × IsWhole f.bytes.items };
}

impl Frame {
    /// The frame of an entry.
    pub fn of(alloc: Global, entry: &Entry) -> Result<Frame, AllocError>
        requires { IsTrue (has_spelling entry.now) }
        ensures { IfOk result (λ f. f.payload ≡ spelling entry.now) }
    {
        let len = entry_len(entry);
        let mut bytes = Vec::with_capacity(alloc, len as usize + AROUND_LEN)?;
        bytes.extend_from_slice(&len.to_le_bytes())?;
        entry_bytes(entry, &mut bytes)?;
        bytes.push(0)?;
        Ok(Frame { bytes })
    }

    /// The frame of a transaction without operations.
    pub fn txn(alloc: Global) -> Result<Frame, AllocError>
        ensures { IfOk result (λ f. f.payload ≡ spelling (Txn [])) }
    {
        let bytes = Vec::from_slice(alloc, &NO_OPERATIONS)?;
        Ok(Frame { bytes })
    }

    /// Makes room for so many bytes more.
    pub fn room(&mut self, bytes: u32) -> Result<(), AllocError>
        ensures ok { OnOk result (bytes ≤ self.new.spare) }
        ensures payload { self.new.payload ≡ self.old.payload }
        ensures spare { self.old.spare ≤ self.new.spare }
    {
        self.bytes.reserve(bytes as usize)
    }

    /// Adds an operation to a transaction's frame, in the room that was made. This takes no memory.
    pub fn add(&mut self, op: &Op)
        requires rule { IsTrue (is_op op.now) }
        requires room { op_len op.now ≤ self.old.spare }
        requires size { length self.old.payload + op_len op.now ≤ 2 ^ 30 }
        ensures added { (os : List Op) → self.old.payload ≡ spelling (Txn os) → self.new.payload ≡ spelling (Txn (os ++ op.now ∷ [])) }
        ensures len { length self.new.payload ≡ length self.old.payload + op_len op.now }
        ensures spare { self.old.spare ≤ self.new.spare + op_len op.now }
    {
        add_bytes(&mut self.bytes, op);
    }

    /// Adds an insert of these values to a transaction's frame, in the room that was made. This takes no memory.
    pub fn add_insert(&mut self, table: u16, id: u32, values: &[Value])
        requires rule { IsTrue (is_op (Insert table id values.now)) }
        requires room { op_len (Insert table id values.now) ≤ self.old.spare }
        requires size { length self.old.payload + op_len (Insert table id values.now) ≤ 2 ^ 30 }
        ensures added { (os : List Op) → self.old.payload ≡ spelling (Txn os) → self.new.payload ≡ spelling (Txn (os ++ Insert table id values.now ∷ [])) }
        ensures len { length self.new.payload ≡ length self.old.payload + op_len (Insert table id values.now) }
        ensures spare { self.old.spare ≤ self.new.spare + op_len (Insert table id values.now) }
    {
        insert_bytes(&mut self.bytes, table, id, values);
    }

    /// Makes it the frame of a transaction without operations. This takes no memory. The room stays, but for what is beyond 64 KiB.
    pub fn clear(&mut self)
        ensures payload { self.new.payload ≡ spelling (Txn []) }
        ensures room { min (2 ^ 16) (length self.old.payload + 5 + self.old.spare) ≤ length self.new.payload + 5 + self.new.spare }
    {
        self.bytes.truncate(NO_OPERATIONS.len());
        self.bytes.copy_from_slice(&NO_OPERATIONS);
        self.bytes.shrink_to(KEPT_ROOM);
    }

    /// The number of the payload's bytes.
    pub fn size(&self) -> u32
        ensures { result ≡ length self.now.payload }
    {
        (self.bytes.len() - AROUND_LEN) as u32
    }

    /// Its payload: the entry's bytes.
    pub fn payload(&self) -> &[u8]
        ensures { result.now ≡ self.now.payload }
    {
        &self.bytes[LENGTH_LEN..self.bytes.len() - 1]
    }

    /// Its bytes behind the gate: the length, the payload and the next gate, closed.
    pub fn as_slice(&self) -> &[u8]
        ensures body { result.now ≡ body self.now.payload }
        ensures whole { IsWhole result.now }
        ensures payload { payload_in result.now ≡ self.now.payload }
        ensures short { length self.now.payload ≤ 2 ^ 30 }
    {
        &self.bytes
    }
}

// An operation more in a transaction's frame.
fn add_bytes(bytes: &mut Vec<u8>, op: &Op)
    requires whole { IsWhole bytes.old.items }
    requires rule { IsTrue (is_op op.now) }
    requires begun { 10 ≤ vec_len bytes.old }
    requires room { vec_len bytes.old + op_len op.now ≤ vec_capacity bytes.old }
    requires size { vec_len bytes.old + op_len op.now ≤ 2 ^ 30 + 5 }
    ensures whole { IsWhole bytes.new.items }
    ensures len { vec_len bytes.new ≡ vec_len bytes.old + op_len op.now }
    ensures capacity { vec_capacity bytes.old ≤ vec_capacity bytes.new }
    ensures added { (os : List Op) → payload_in bytes.old.items ≡ spelling (Txn os) → payload_in bytes.new.items ≡ spelling (Txn (os ++ op.now ∷ [])) }
{
    let payload_len = bytes.len() - 1;
    bytes.truncate(payload_len);
    put_op(op, bytes);
    close(bytes);
}

// An insert more in a transaction's frame.
fn insert_bytes(bytes: &mut Vec<u8>, table: u16, id: u32, values: &[Value])
    requires whole { IsWhole bytes.old.items }
    requires rule { IsTrue (is_op (Insert table id values.now)) }
    requires begun { 10 ≤ vec_len bytes.old }
    requires room { vec_len bytes.old + op_len (Insert table id values.now) ≤ vec_capacity bytes.old }
    requires size { vec_len bytes.old + op_len (Insert table id values.now) ≤ 2 ^ 30 + 5 }
    ensures whole { IsWhole bytes.new.items }
    ensures len { vec_len bytes.new ≡ vec_len bytes.old + op_len (Insert table id values.now) }
    ensures capacity { vec_capacity bytes.old ≤ vec_capacity bytes.new }
    ensures added { (os : List Op) → payload_in bytes.old.items ≡ spelling (Txn os) → payload_in bytes.new.items ≡ spelling (Txn (os ++ Insert table id values.now ∷ [])) }
{
    let payload_len = bytes.len() - 1;
    bytes.truncate(payload_len);
    put_insert(table, id, values, bytes);
    close(bytes);
}

// Closes a frame again, in which the bytes of one operation more stand where its gate was.
fn close(bytes: &mut Vec<u8>)
    requires begun { 9 ≤ vec_len bytes.old }
    requires room { vec_len bytes.old < vec_capacity bytes.old }
    requires size { vec_len bytes.old ≤ 2 ^ 30 + 4 }
    ensures whole { IsWhole bytes.new.items }
    ensures len { vec_len bytes.new ≡ vec_len bytes.old + 1 }
    ensures capacity { vec_capacity bytes.old ≤ vec_capacity bytes.new }
    ensures added { (os : List Op) (op : Op) (before : List ℕ) → IsWhole before → bytes.old.items ≡ take (length before - 1) before ++ op_spelling op
        → payload_in before ≡ spelling (Txn os) → payload_in bytes.new.items ≡ spelling (Txn (os ++ op ∷ [])) }
{
    set_numbers(bytes);
    bytes.push_reserved(0);
}

// Sets the payload's length, and raises the number of its operations.
fn set_numbers(bytes: &mut [u8])
    requires begun { 9 ≤ length bytes.old }
    requires size { length bytes.old ≤ 2 ^ 30 + 4 }
    ensures len { length bytes.new ≡ length bytes.old }
    ensures front { take 4 bytes.new ≡ to_le_bytes w32 (length bytes.old - 4) }
    ensures set { (n : ℕ) (front rest : List ℕ) → n + 1 < 2 ^ 32 → length front ≡ 4 → bytes.old ≡ front ++ (2 ∷ to_le_bytes w32 n ++ rest)
        → bytes.new ≡ to_le_bytes w32 (length bytes.old - 4) ++ (2 ∷ to_le_bytes w32 (n + 1) ++ rest) }
{
    let len = (bytes.len() - LENGTH_LEN) as u32;
    let count = u32::from_le_bytes([bytes[5], bytes[6], bytes[7], bytes[8]]).wrapping_add(1);
    put(bytes, 0, &len.to_le_bytes());
    put(bytes, COUNT_AT, &count.to_le_bytes());
}

// Writes over what is there.
fn put(bytes: &mut [u8], at: usize, field: &[u8])
    requires { at + length field.now ≤ length bytes.old }
    ensures { bytes.new ≡ take at bytes.old ++ field.now ++ drop (at + length field.now) bytes.old }
{
    bytes[at..at + field.len()].copy_from_slice(field);
}
