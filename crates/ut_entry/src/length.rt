//! How many bytes a spelling has.
ghost use Rattle.std.specs.Prelude.{◌≡◌, ◌+◌, ◌<◌, ◌^◌};
ghost use Rattle.std.specs.List.{sum_by};
ghost use Rattle.ut_value.specs.Spelling.{value_len, column_len, op_len, ops_len, entry_len};

use ut_value::{Column, Entry, Op, Value};

fn value_len(value: &Value) -> u32
    ensures { result ≡ value_len value.now }
{
    match value {
        Value::Int(_) => 9,
        Value::Text(text) => text.as_slice().len() as u32 + 2,
    }
}

fn values_len(values: &[Value]) -> u32
    requires { sum_by value_len values.now < 2 ^ 32 }
    ensures { result ≡ sum_by value_len values.now }
{
    values.iter().map(|value| value_len(value)).sum()
}

/// The number of bytes of an insert of these values.
pub fn insert_len(values: &[Value]) -> u32
    requires { sum_by value_len values.now + 8 < 2 ^ 32 }
    ensures { result ≡ sum_by value_len values.now + 8 }
{
    values_len(values) + 8
}

/// The number of bytes of an operation.
pub fn op_len(op: &Op) -> u32
    requires { op_len op.now < 2 ^ 32 }
    ensures { result ≡ op_len op.now }
{
    match op {
        Op::Insert { values, .. } => insert_len(values.as_slice()),
        Op::Delete { .. } => 7,
    }
}

fn ops_len(ops: &[Op]) -> u32
    requires { ops_len ops.now < 2 ^ 32 }
    ensures { result ≡ ops_len ops.now }
{
    let mut total = 0;
    for op in ops {
        total += op_len(op);
    }
    total
}

fn columns_len(columns: &[Column]) -> u32
    requires { sum_by column_len columns.now < 2 ^ 32 }
    ensures { result ≡ sum_by column_len columns.now }
{
    columns
        .iter()
        .map(|column| column.name.as_slice().len() as u32 + 2)
        .sum()
}

/// The number of bytes of an entry.
pub fn entry_len(entry: &Entry) -> u32
    requires { entry_len entry.now < 2 ^ 32 }
    ensures { result ≡ entry_len entry.now }
{
    match entry {
        Entry::Create { name, columns } => {
            let names = columns_len(columns.as_slice());
            name.as_slice().len() as u32 + names + 3
        }
        Entry::Txn { ops } => ops_len(ops.as_slice()) + 5,
        Entry::Begun { .. } => 8,
        Entry::Ended { .. } => 5,
    }
}
