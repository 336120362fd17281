//! What the ids of a store that is opened follow from: the rows that entries insert.
ghost use Rattle.std.specs.Prelude.{◌≡◌, ◌<◌, [], ◌∷◌};
ghost use Rattle.std.specs.List.{sum_by};
ghost use Rattle.ut_plain.specs.Rows.{op_inserts, inserts_of, next_after};
ghost use Rattle.ut_plain.specs.State.{State, empty_state, entry_inserts};
ghost use Rattle.ut_plain.specs.Journal.{after_all};
ghost use Rattle.check_rows.specs.Known.{entry_next};

use ut_value::{Entry, Op};

fn op_inserts(op: &Op) -> usize
    ensures { result ≡ op_inserts op.now }
{
    match op {
        Op::Insert { .. } => 1,
        Op::Delete { .. } => 0,
    }
}

/// How many rows operations insert.
pub fn inserts_of(ops: &[Op]) -> usize
    ensures { result ≡ inserts_of ops.now }
{
    let mut count = 0;
    for op in ops {
        count += op_inserts(op);
    }
    count
}

fn next_after_op(next: u64, op: &Op) -> u64
    ensures { result ≡ next_after next (op.now ∷ []) }
{
    match op {
        Op::Insert { id, .. } => next.max(u64::from(*id) + 1),
        Op::Delete { .. } => next,
    }
}

fn next_after_ops(next: u64, ops: &[Op]) -> u64
    ensures { result ≡ next_after next ops.now }
{
    let mut last = next;
    for op in ops {
        last = next_after_op(last, op);
    }
    last
}

fn next_after_entry(next: u64, entry: &Entry) -> u64
    ensures { result ≡ entry_next next entry.now }
{
    match entry {
        Entry::Txn { ops } => next_after_ops(next, ops.as_slice()),
        Entry::Create { .. } => next,
        Entry::Begun { .. } => next,
        Entry::Ended { .. } => next,
    }
}

/// One above the greatest id that the first entries insert and those behind them.
pub fn next_of(first: &[Entry], behind: &[Entry]) -> u64
    ensures { result ≡ (after_all (after_all empty_state first.now) behind.now).next }
{
    next_from(next_from(1, first), behind)
}

fn next_from(from: u64, entries: &[Entry]) -> u64
    ensures { (s : State) → s.next ≡ from → result ≡ (after_all s entries.now).next }
{
    let mut next = from;
    for entry in entries {
        next = next_after_entry(next, entry);
    }
    next
}

fn entry_inserts(entry: &Entry) -> u64
    ensures { result ≡ entry_inserts entry.now }
{
    match entry {
        Entry::Txn { ops } => inserts_of(ops.as_slice()) as u64,
        Entry::Create { .. } => 0,
        Entry::Begun { .. } => 0,
        Entry::Ended { .. } => 0,
    }
}

/// How many rows these entries insert.
pub fn load_of(entries: &[Entry]) -> u64
    requires { sum_by entry_inserts entries.now < 4294967296 }
    ensures { result ≡ sum_by entry_inserts entries.now }
{
    let mut load = 0;
    for entry in entries {
        load += entry_inserts(entry);
    }
    load
}
