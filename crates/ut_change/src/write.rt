//! Operations are counted, spelled and written: into the session's bytes, a frame, the stages of their table.
ghost use Rattle.std.specs.Prelude.{◌≡◌, ◌+◌, ◌<◌, ◌≤◌, ◌^◌, ◌++◌, ◌∷◌, [], List, length, IsTrue, OnOk, MatchOption};
ghost use Rattle.std.specs.List.{list_all};
ghost use Rattle.ut_value.specs.declared.entry.Op.{Op};
ghost use Rattle.ut_value.specs.declared.entry.Entry.TheVariants.{Txn};
ghost use Rattle.ut_value.specs.Spelling.{spelling, is_op, ops_len};
ghost use Rattle.ut_plain.specs.Rows.{op_inserts, inserts_of};
ghost use Rattle.ut_table.specs.Finds.{hits_of};
ghost use Rattle.ut_txn.specs.Seats.{opened_at, payload_at, spare_at, SeatSet};
ghost use Rattle.ut_staged.specs.Staging.{written};
ghost use Rattle.ut_change.specs.Writes.{CanWrite, written_one, hits_behind};

use std::alloc::AllocError;
use ut_entry::op_len;
use ut_frame::Frame;
use ut_scan::Found;
use ut_stamps::Stamp;
use ut_table::Table as Stages;
use ut_txn::Sessions;
use ut_value::{Op, Row};

/// How many rows operations insert.
pub fn inserts_of(ops: &[Op]) -> usize
    ensures { result ≡ inserts_of ops.now }
{
    let mut inserts = 0;
    for op in ops {
        inserts += op_inserts(op);
    }
    inserts
}

// How many rows an operation inserts.
fn op_inserts(op: &Op) -> usize
    ensures { result ≡ op_inserts op.now }
{
    match op {
        Op::Insert { .. } => 1,
        Op::Delete { .. } => 0,
    }
}

/// How many bytes the spelling of operations has, where they are at most so many.
pub fn ops_len(ops: &[Op], most: u32) -> Option<u32>
    requires rule { IsTrue (list_all is_op ops.now) }
    requires most { most ≤ 2 ^ 30 }
    ensures { MatchOption result (most < ops_len ops.now) (λ n. (n ≡ ops_len ops.now) × (n ≤ most)) }
{
    let mut total = 0;
    for op in ops {
        total += op_len(op);
        if total > most {
            return None;
        }
    }
    Some(total)
}

/// Operations join a session's own, in the room that was made (`Sessions::room`). This takes no memory.
pub fn note_all(sessions: &mut Sessions, session: u8, ops: &[Op])
    requires seat { session < 17 }
    requires rule { IsTrue (list_all is_op ops.now) }
    requires room { ops_len ops.now ≤ spare_at sessions.old session }
    requires size { length (payload_at sessions.old session) + ops_len ops.now ≤ 2 ^ 30 }
    ensures grown { (ps : List Op) → payload_at sessions.old session ≡ spelling (Txn ps)
        → payload_at sessions.new session ≡ spelling (Txn (ps ++ ops.now)) }
    ensures set { SeatSet sessions.old sessions.new session (opened_at sessions.old session) (payload_at sessions.new session) }
{
    for op in ops {
        sessions.note(session, op);
    }
}

/// Makes a frame that of an entry of these operations, which are spelled in so many bytes.
pub fn spell_all(frame: &mut Frame, ops: &[Op], bytes: u32) -> Result<(), AllocError>
    requires rule { IsTrue (list_all is_op ops.now) }
    requires bytes { bytes ≡ ops_len ops.now }
    requires short { bytes + 5 ≤ 2 ^ 30 }
    ensures { OnOk result (frame.new.payload ≡ spelling (Txn ops.now)) }
{
    frame.clear();
    frame.room(bytes)?;
    add_all(frame, ops);
    Ok(())
}

// Operations are added to a frame, in the room that was made.
fn add_all(frame: &mut Frame, ops: &[Op])
    requires rule { IsTrue (list_all is_op ops.now) }
    requires room { ops_len ops.now ≤ frame.old.spare }
    requires size { length frame.old.payload + ops_len ops.now ≤ 2 ^ 30 }
    ensures { (ps : List Op) → frame.old.payload ≡ spelling (Txn ps) → frame.new.payload ≡ spelling (Txn (ps ++ ops.now)) }
{
    for op in ops {
        frame.add(op);
    }
}

/// Operations of a transaction are written into the stages of their table, in the room that was made (`Table::room`): an
/// insert enters the first stage, a delete ends the row in the next of the places found. This takes no memory.
pub fn write_all(table: &mut Stages, number: u64, hits: &[Found], ops: Vec<Op>)
    requires can { CanWrite table.old.stages (hits_of hits.now) ops.items }
    requires room { inserts_of ops.items ≤ table.old.spare }
    ensures { table.new.stages ≡ written number ops.items (hits_of hits.now) table.old.stages }
{
    let mut hits = hits;
    for op in ops {
        hits = write_one(table, number, hits, op);
    }
}

// One operation is written. The places that are left behind it are returned.
fn write_one<'a>(table: &mut Stages, number: u64, hits: &'a [Found], op: Op) -> &'a [Found]
    requires can { CanWrite table.old.stages (hits_of hits.now) (op ∷ []) }
    requires room { op_inserts op ≤ table.old.spare }
    ensures stages { table.new.stages ≡ written_one number op (hits_of hits.now) table.old.stages }
    ensures hits { hits_of result.now ≡ hits_behind op (hits_of hits.now) }
    ensures room { table.old.spare ≤ table.new.spare + op_inserts op }
{
    match op {
        Op::Insert { id, values, .. } => {
            let stamp = Stamp {
                begin: number,
                end: None,
            };
            table.push(Row { id, values }, stamp);
            hits
        }
        Op::Delete { .. } => match hits {
            [] => hits,
            [hit, others @ ..] => {
                table.end_row(hit.place, number);
                others
            }
        },
    }
}
