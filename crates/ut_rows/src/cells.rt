//! The values of a column over the rows of an answer: a value that many rows have stands once.
ghost use Rattle.std.specs.Prelude.{◌≡◌, ◌<◌, length, slice_get, Some, All};
ghost use Rattle.ut_rows.specs.Columns.{values_at};

use std::marker::Model;
use ut_value::Value;

/// The values of a column over some rows, in the order of the rows.
#[derive(Drop)]
pub struct Cells {
    values: Vec<Value>,
    /// For each row, where its value stands.
    places: Vec<u32>,
}

impl Model for Cells {
    ghost use Rattle.std.specs.Prelude.{◌<◌, List, All, length};
    ghost use Rattle.ut_value.specs.declared.value.Value as datum;
    ghost use Rattle.ut_rows.specs.Columns.{values_at};

    ghost Value = { List datum.Value };

    ghost view = { λ c. values_at c.values.items c.places.items };

    ghost invariant = { λ c. All (λ p. p < length c.values.items) c.places.items };
}

impl Cells {
    /// For each row the value in its place.
    pub fn of(values: Vec<Value>, places: Vec<u32>) -> Self
        requires { All (λ p. p < length values.items) places.items }
        ensures { result ≡ values_at values.items places.items }
    {
        Cells { values, places }
    }

    /// How many rows there are.
    pub fn len(&self) -> usize
        ensures { result ≡ length self.now }
    {
        self.places.len()
    }

    /// The values, and for each row the place of its own among them.
    pub fn shared(&self) -> (&[Value], &[u32])
        ensures rows { self.now ≡ values_at result.0.now result.1.now }
        ensures within { All (λ p. p < length result.0.now) result.1.now }
    {
        (&self.values, &self.places)
    }

    /// The value of a row.
    pub fn value(&self, row: usize) -> &Value
        requires { row < length self.now }
        ensures { slice_get self.now row ≡ Some result.now }
    {
        &self.values[self.places[row] as usize]
    }
}
