//! A transaction's entry that grows by one operation at a time, as bytes.
ghost use Rattle.std.specs.Prelude.{◌≡◌, ◌+◌, ◌<◌, ◌≤◌, ◌^◌, ◌++◌, ◌∷◌, [], ℕ, List, length, IsTrue, OnOk, OnErr, vec_len, vec_capacity};
ghost use Rattle.std.specs.Int.{w32, to_le_bytes};
ghost use Rattle.ut_value.specs.declared.entry.Op.{Op};
ghost use Rattle.ut_value.specs.Spelling.{is_op, op_len, spelling};
ghost use Rattle.ut_value.specs.declared.entry.Entry.TheVariants.{Txn};

use crate::write::put_op;
use std::alloc::AllocError;
use ut_value::Op;

/// The bytes before a transaction's first operation.
const TXN_HEADER_LEN: usize = 5;

/// Appends the bytes of a transaction without operations.
pub fn begin_txn(out: &mut Vec<u8>) -> Result<(), AllocError>
    ensures ok { OnOk result (out.new.items ≡ out.old.items ++ spelling (Txn [])) }
    ensures len { OnOk result (vec_len out.new ≡ vec_len out.old + 5) }
    ensures err { OnErr result (out.new.items ≡ out.old.items) }
{
    out.extend_from_slice(&[2, 0, 0, 0, 0])
}

/// Adds an operation to a transaction's bytes where there is room. This takes no memory.
pub fn add_op(payload: &mut Vec<u8>, op: &Op)
    requires rule { IsTrue (is_op op.now) }
    requires begun { 5 ≤ vec_len payload.old }
    requires room { vec_len payload.old + op_len op.now ≤ vec_capacity payload.old }
    requires size { vec_len payload.old + op_len op.now ≤ 2 ^ 30 }
    ensures added { (os : List Op) → payload.old.items ≡ spelling (Txn os) → payload.new.items ≡ spelling (Txn (os ++ op.now ∷ [])) }
    ensures len { vec_len payload.new ≡ vec_len payload.old + op_len op.now }
    ensures room { vec_capacity payload.old ≤ vec_capacity payload.new }
{
    raise_count(payload);
    put_op(op, payload);
}

// One more in the four bytes behind the first.
fn raise_count(bytes: &mut [u8])
    requires { 5 ≤ length bytes.old }
    ensures { (n : ℕ) (rest : List ℕ) → n + 1 < 2 ^ 32 → bytes.old ≡ 2 ∷ to_le_bytes w32 n ++ rest → bytes.new ≡ 2 ∷ to_le_bytes w32 (n + 1) ++ rest }
{
    let count = u32::from_le_bytes([bytes[1], bytes[2], bytes[3], bytes[4]]).wrapping_add(1);
    let raised = count.to_le_bytes();
    bytes[1..TXN_HEADER_LEN].copy_from_slice(&raised);
}
