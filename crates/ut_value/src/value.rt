//! Values of a column, columns and rows.
ghost use Rattle.std.specs.Prelude.{◌≡◌, IfOk};

use crate::{Duplicate, Name, Seq, Text};
use std::alloc::{AllocError, Global};

/// What a column holds.
#[derive(Clone, Copy, Debug, PartialEq, Eq)]
pub enum Kind {
    Int,
    Text,
}

/// One value of a row.
#[derive(Drop)]
pub enum Value {
    Int(i64),
    Text(Text),
}

/// A column of a table.
#[derive(Drop)]
pub struct Column {
    pub name: Name,
    pub kind: Kind,
}

/// A row: its id, and a value for each column of its table.
#[derive(Drop)]
pub struct Row {
    pub id: u32,
    pub values: Seq<Value>,
}

impl Value {
    /// A copy. Only a long text takes memory.
    pub fn copy(&self, alloc: Global) -> Result<Value, AllocError>
        ensures { IfOk result (λ v. v ≡ self.now) }
    {
        match self {
            Value::Int(number) => Ok(Value::Int(*number)),
            Value::Text(text) => Ok(Value::Text(text.copy(alloc)?)),
        }
    }
}

impl Row {
    /// A copy. It takes memory.
    pub fn copy(&self, alloc: Global) -> Result<Row, AllocError>
        ensures { IfOk result (λ row. row ≡ self.now) }
    {
        let values = self.values.duplicate(alloc)?;
        Ok(Row {
            id: self.id,
            values,
        })
    }
}
