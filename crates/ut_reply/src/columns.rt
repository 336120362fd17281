//! The columns of an answer: the text of a value that many rows have is made once.
ghost use Rattle.std.specs.Prelude.{◌≡◌, ◌<◌, ◌≤◌, ◌+◌, ◌++◌, ◌∷◌, length, vec_len, vec_capacity, flat_map, sum_by, All, IfOk, IfSome};
ghost use Rattle.ut_reply.specs.Columns.{led, led_columns, cell_text, cell_room, row_text, row_room, Show, AreTexts};
ghost use Rattle.ut_reply.specs.Texts.{tuple_text, tuple_room};

use crate::room::value_room;
use crate::values::add_value;
use std::alloc::{AllocError, Global};
use std::marker::Model;
use ut_digits::add;
use ut_rows::{Cells, Rows};
use ut_value::Value;

/// Fewer rows are put value by value, which takes no memory.
const FEW: usize = 64;

/// A value's text is made once where a column has so many times as many rows as values.
const OFTEN: usize = 4;

/// The texts of values, one behind another: each from one bound to the next.
#[derive(Drop)]
struct Texts {
    bytes: Vec<u8>,
    bounds: Vec<usize>,
}

/// A column of an answer, and the byte in front of each of its values.
#[derive(Drop)]
pub(crate) struct Column<'a> {
    lead: u8,
    values: &'a [Value],
    /// For each row, where its value stands.
    places: &'a [u32],
    /// The texts of the values, where they were made.
    texts: Option<Texts>,
}

impl<'a> Model for Column<'a> {
    ghost use Rattle.ut_rows.specs.Columns.{values_at};
    ghost use Rattle.ut_reply.specs.Columns.{Led, led, IsHeld};

    ghost Value = { Led };

    ghost view = { λ c. led c.lead (values_at c.values.now c.places.now) };

    ghost invariant = { λ c. IsHeld c.lead c.values.now c.places.now c.texts };
}

impl Column<'_> {
    /// Puts the text of a row's value at the end, and the byte in front of it.
    pub(crate) fn add(&self, out: &mut Vec<u8>, row: usize)
        requires within { row < length self.now.values }
        requires room { vec_len out.old + cell_room row self.now ≤ vec_capacity out.old }
        ensures text { out.new.items ≡ out.old.items ++ cell_text row self.now }
        ensures len { vec_len out.new ≤ vec_len out.old + cell_room row self.now }
        ensures capacity { vec_capacity out.old ≤ vec_capacity out.new }
    {
        let places = self.places;
        let place = places[row] as usize;
        match &self.texts {
            Some(texts) => add(
                out,
                &texts.bytes[texts.bounds[place]..texts.bounds[place + 1]],
            ),
            None => {
                out.push_reserved(self.lead);
                add_value(out, &self.values[place]);
            }
        }
    }
}

/// Puts rows at the end, each on a line of its own, by the columns that show them.
pub(crate) fn add_by_columns(out: &mut Vec<u8>, rows: &Rows, columns: &[Column])
    requires shown { Show columns.now rows.now }
    requires room { vec_len out.old + sum_by (λ t. tuple_room t + 1) rows.now ≤ vec_capacity out.old }
    ensures text { out.new.items ≡ out.old.items ++ flat_map (λ t. 10 ∷ tuple_text t) rows.now }
    ensures len { vec_len out.new ≤ vec_len out.old + sum_by (λ t. tuple_room t + 1) rows.now }
    ensures capacity { vec_capacity out.old ≤ vec_capacity out.new }
{
    for row in 0..rows.len() {
        add_row(out, columns, row);
    }
}

/// Puts the texts of the columns in a row.
fn add_row(out: &mut Vec<u8>, columns: &[Column], row: usize)
    requires within { All (λ c. row < length c.values) columns.now }
    requires room { vec_len out.old + row_room columns.now row ≤ vec_capacity out.old }
    ensures text { out.new.items ≡ out.old.items ++ row_text columns.now row }
    ensures len { vec_len out.new ≤ vec_len out.old + row_room columns.now row }
    ensures capacity { vec_capacity out.old ≤ vec_capacity out.new }
{
    for column in columns {
        column.add(out, row);
    }
}

/// Whether so many rows share the values of a column that what is made of each is made once.
pub(crate) fn are_shared(values: &[Value], places: &[u32]) -> bool {
    FEW <= places.len() && values.len() <= places.len() / OFTEN
}

/// The columns of rows that are many, where they are held by columns and there is memory.
pub(crate) fn columns_of<'a>(alloc: Global, rows: &'a Rows) -> Option<Vec<Column<'a>>>
    ensures { IfSome result (λ columns. Show columns.items rows.now) }
{
    if rows.len() < FEW {
        return None;
    }
    let Some([first, more @ ..]) = rows.columns() else {
        return None;
    };
    match led_columns(alloc, first, more) {
        Ok(columns) => Some(columns),
        Err(_) => None,
    }
}

fn led_columns<'a>(
    alloc: Global,
    first: &'a Cells,
    more: &'a [Cells],
) -> Result<Vec<Column<'a>>, AllocError>
    ensures { IfOk result (λ columns. columns.items ≡ led_columns (first.now ∷ more.now)) }
{
    let mut columns = Vec::with_capacity(alloc, more.len() + 1)?;
    columns.push(column_of(alloc, b'\n', first))?;
    for cells in more {
        columns.push(column_of(alloc, b' ', cells))?;
    }
    Ok(columns)
}

/// A column. Its values' texts are made where many rows have them and there is memory.
fn column_of<'a>(alloc: Global, lead: u8, cells: &'a Cells) -> Column<'a>
    ensures { result ≡ led lead cells.now }
{
    let (values, places) = cells.shared();
    let texts = if are_shared(values, places) {
        texts_of(alloc, lead, values).ok()
    } else {
        None
    };
    Column {
        lead,
        values,
        places,
        texts,
    }
}

fn texts_of(alloc: Global, lead: u8, values: &[Value]) -> Result<Texts, AllocError>
    ensures { IfOk result (λ texts. AreTexts lead values.now texts.bytes.items texts.bounds.items) }
{
    let mut bytes = Vec::new(alloc);
    let mut bounds = Vec::with_capacity(alloc, values.len() + 1)?;
    bounds.push(0)?;
    for value in values {
        bytes.reserve(value_room(value) + 1)?;
        bytes.push_reserved(lead);
        add_value(&mut bytes, value);
        bounds.push(bytes.len())?;
    }
    Ok(Texts { bytes, bounds })
}
