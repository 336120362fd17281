//! What a savepoint captures of a store.
ghost use Rattle.std.specs.Prelude.{◌≤◌, length, vec_len};

use std::sync::Arc;
use ut_main::Part;
use ut_plain::Table;
use ut_value::Seq;

/// A part, which never changes, and which of its rows are live.
#[derive(Drop)]
pub struct CapturedPart {
    pub part: Arc<Part>,
    pub live: Seq<bool>,
}

/// A table: its parts, and the rows of its deltas as a directory spells them, those of the second before those of the first.
pub struct CapturedTable {
    pub table: Table,
    pub parts: Vec<CapturedPart>,
    pub deltas: Vec<u8>,
    ghost columns: { length table.columns ≤ 64 },
    ghost few: { vec_len parts ≤ 8 },
}

// One step of a proof, wherever one is dropped.
impl Drop for CapturedTable {
    fn drop(self) {
        let CapturedTable {
            table: _,
            parts: _,
            deltas: _,
        } = self;
    }
}
