//! Rows on their way into columns.
ghost use Rattle.std.specs.Prelude.{◌≡◌, ◌<◌};
ghost use Rattle.ut_value.specs.KeyBytes.{key_of};
ghost use Rattle.ut_l2.specs.Sources.{count_in, key_in, HasColumn, IsSource};

use ut_value::{Row, Value};

/// Rows that are to be appended.
#[derive(Clone, Copy)]
pub enum Source<'a> {
    /// A list of rows.
    Rows(&'a [Row]),
    /// The values of rows of so many each, one row's behind the other's.
    Flat(usize, &'a [Value]),
}

impl<'a> Source<'a> {
    /// How many rows there are.
    pub(crate) fn len(self) -> usize
        requires { IsSource self }
        ensures { result ≡ count_in self.entry }
    {
        match self {
            Source::Rows(rows) => rows.len(),
            Source::Flat(width, values) => values.len() / width,
        }
    }

    /// A row's value in a column.
    pub(crate) fn value(self, column: usize, row: usize) -> &'a Value
        requires column { HasColumn self column }
        requires row { row < count_in self }
        ensures { key_of result.now ≡ key_in self.entry column row }
    {
        match self {
            Source::Rows(rows) => &rows[row].values.as_slice()[column],
            Source::Flat(width, values) => &values[row * width + column],
        }
    }
}
