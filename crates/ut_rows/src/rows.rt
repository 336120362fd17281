//! Rows of values, each a list of its own, or column by column.
ghost use Rattle.std.specs.Prelude.{◌≡◌, ◌<◌, [], length, get_or, slice_get, Some, All, IfSome};
ghost use Rattle.ut_rows.specs.Columns.{rows_of};

use crate::Cells;
use std::marker::Model;
use ut_value::{Seq, Value};

#[derive(Drop)]
enum Form {
    Lists(Seq<Seq<Value>>),
    Columns { len: usize, columns: Vec<Cells> },
}

/// The rows of an answer, in their order: each a list of values.
#[derive(Drop)]
pub struct Rows {
    form: Form,
}

impl Model for Rows {
    ghost use Rattle.std.specs.Prelude.{List};
    ghost use Rattle.ut_value.specs.declared.value.Value as datum;
    ghost use Rattle.ut_rows.specs.Form.{rows_in, IsWhole};

    ghost Value = { List (List datum.Value) };

    ghost view = { λ r. rows_in r.form };

    ghost invariant = { λ r. IsWhole r.form };
}

impl Rows {
    /// Rows that are lists of their own.
    pub fn of_lists(rows: Seq<Seq<Value>>) -> Self
        ensures { result ≡ rows }
    {
        Rows {
            form: Form::Lists(rows),
        }
    }

    /// So many rows, of which these are the columns.
    pub fn of_columns(len: usize, columns: Vec<Cells>) -> Self
        requires { All (λ cells. length cells ≡ len) columns.items }
        ensures { result ≡ rows_of len columns.items }
    {
        Rows {
            form: Form::Columns { len, columns },
        }
    }

    /// How many rows there are.
    pub fn len(&self) -> usize
        ensures { result ≡ length self.now }
    {
        match &self.form {
            Form::Lists(rows) => rows.len(),
            Form::Columns { len, .. } => *len,
        }
    }

    /// The columns, where the rows are held by them.
    pub fn columns(&self) -> Option<&[Cells]>
        ensures rows { IfSome result (λ columns. self.now ≡ rows_of (length self.now) columns.now) }
        ensures each { IfSome result (λ columns. All (λ column. length column ≡ length self.now) columns.now) }
    {
        match &self.form {
            Form::Lists(_) => None,
            Form::Columns { columns, .. } => Some(columns),
        }
    }

    /// How many values a row has.
    pub fn width(&self, row: usize) -> usize
        requires { row < length self.now }
        ensures { result ≡ length (get_or self.now row []) }
    {
        match &self.form {
            Form::Lists(rows) => rows.as_slice()[row].len(),
            Form::Columns { columns, .. } => columns.len(),
        }
    }

    /// One value of a row.
    pub fn value(&self, row: usize, column: usize) -> &Value
        requires row { row < length self.now }
        requires column { column < length (get_or self.now row []) }
        ensures { slice_get (get_or self.now row []) column ≡ Some result.now }
    {
        match &self.form {
            Form::Lists(rows) => &rows.as_slice()[row].as_slice()[column],
            Form::Columns { columns, .. } => columns[column].value(row),
        }
    }
}
