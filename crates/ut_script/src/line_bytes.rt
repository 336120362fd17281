//! The bytes of one line, in room for the longest.
ghost use Rattle.std.specs.Prelude.{◌≡◌, ◌+◌, ◌≤◌, ◌++◌, [], length, IfOk};

use std::alloc::{AllocError, Global};
use std::marker::Model;

/// The bytes of the longest line, without its end.
pub(crate) const MAX_LINE: usize = 65536;

/// The bytes of a line. They take memory when they are made, and none later.
#[derive(Drop)]
pub(crate) struct LineBytes {
    room: Vec<u8>,
    len: usize,
}

impl Model for LineBytes {
    ghost use Rattle.std.specs.Prelude.{◌≡◌, ◌≤◌, List, ℕ, take, vec_len};

    ghost Value = { List ℕ };

    ghost view = { λ l. take l.len l.room.items };

    ghost invariant = { λ l. (vec_len l.room ≡ 65536) × (l.len ≤ 65536) };
}

impl LineBytes {
    pub fn new(alloc: Global) -> Result<LineBytes, AllocError>
        ensures { IfOk result (λ line. line ≡ []) }
    {
        let room = vec![in alloc; 0; MAX_LINE]?;
        Ok(LineBytes { room, len: 0 })
    }

    pub fn len(&self) -> usize
        ensures len { result ≡ length self.now }
        ensures few { length self.now ≤ 65536 }
    {
        self.len
    }

    pub fn as_slice(&self) -> &[u8]
        ensures { result.now ≡ self.now }
    {
        &self.room[..self.len]
    }

    pub fn clear(&mut self)
        ensures { self.new ≡ [] }
    {
        self.len = 0;
    }

    /// Puts bytes behind those of the line.
    pub fn put(&mut self, bytes: &[u8])
        requires { length self.old + length bytes.now ≤ 65536 }
        ensures bytes { self.new ≡ self.old ++ bytes.now }
        ensures few { length self.new ≤ 65536 }
    {
        let end = self.len + bytes.len();
        self.room[self.len..end].copy_from_slice(bytes);
        self.len = end;
    }
}
