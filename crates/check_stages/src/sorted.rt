//! The order of a re-sorting merge.
ghost use Rattle.std.specs.Prelude.{◌≡◌, ◌≤◌, length, IfOk};
ghost use Rattle.std.specs.List.{insert, list_any};
ghost use Rattle.std.specs.Ordering.{is_eq, is_lt};
ghost use Rattle.ut_key.specs.Keys.{key_cmp};
ghost use Rattle.ut_plain.specs.Merges.{put, key_in, distinct_in, comes_first, width_of, column_order, place_cmp, resorted};

use std::alloc::{AllocError, Global};
use std::cmp::Ordering;
use ut_key::Key;
use ut_plain::Placed;
use ut_value::{Duplicate, Seq, key_of};

// The key of a place in a column.
fn key_in(column: usize, place: &Placed) -> Key
    ensures { result ≡ key_in column place.now }
{
    match place.values.as_slice().get(column) {
        None => Key::new(),
        Some(value) => key_of(value),
    }
}

fn key_order(column: usize, left: &Placed, right: &Placed) -> Ordering
    ensures { result ≡ key_cmp (key_in column left.now) (key_in column right.now) }
{
    let x = key_in(column, left);
    let y = key_in(column, right);
    x.as_slice().cmp(&y.as_slice())
}

// How many different keys places have in a column.
fn distinct_in(places: &[Placed], column: usize) -> usize
    ensures { result ≡ distinct_in places.now column }
{
    let mut count = 0;
    for at in (0..places.len()).rev() {
        let place = &places[at];
        if !is_among(&places[at + 1..], column, place) {
            count += 1;
        }
    }
    count
}

fn same_key(column: usize, left: &Placed, right: &Placed) -> bool
    ensures { result ≡ is_eq (key_cmp (key_in column left.now) (key_in column right.now)) }
{
    key_order(column, left, right).is_eq()
}

// Whether one of these places has the key of a place.
fn is_among(places: &[Placed], column: usize, place: &Placed) -> bool
    ensures { result ≡ list_any (λ other. is_eq (key_cmp (key_in column place.now) (key_in column other))) places.now }
{
    places.iter().any(|other| same_key(column, place, other))
}

// A column with fewer different keys comes first, on a tie the one that stands first.
fn comes_first(places: &[Placed], a: usize, b: usize) -> bool
    ensures { result ≡ comes_first places.now a b }
{
    let x = distinct_in(places, a);
    let y = distinct_in(places, b);
    x < y || (x == y && a < b)
}

fn width_of(places: &[Placed]) -> usize
    ensures { result ≡ width_of places.now }
{
    match places {
        [] => 0,
        [place, ..] => place.values.len(),
    }
}

// Where a column belongs among others in their order.
fn place_for_column(places: &[Placed], order: &[usize], column: usize) -> usize
    ensures within { result ≤ length order.now }
    ensures put { put (comes_first places.now) column order.now ≡ insert order.now result column }
{
    for (at, other) in order.iter().enumerate() {
        if !comes_first(places, *other, column) {
            return at;
        }
    }
    order.len()
}

fn column_order(alloc: Global, places: &[Placed]) -> Result<Vec<usize>, AllocError>
    ensures { IfOk result (λ order. order.items ≡ column_order places.now) }
{
    let mut order = Vec::new(alloc);
    for column in (0..width_of(places)).rev() {
        let at = place_for_column(places, order.as_slice(), column);
        order.insert(at, column)?;
    }
    Ok(order)
}

// The order of places by their keys in these columns, then by id.
fn place_cmp(columns: &[usize], a: &Placed, b: &Placed) -> Ordering
    ensures { result ≡ place_cmp columns.now a.now b.now }
{
    for column in columns {
        let order = key_order(*column, a, b);
        if !order.is_eq() {
            return order;
        }
    }
    a.id.cmp(&b.id)
}

// Where a place belongs among others in their order.
fn place_for(columns: &[usize], sorted: &[Placed], place: &Placed) -> usize
    ensures within { result ≤ length sorted.now }
    ensures put { put (λ a b. is_lt (place_cmp columns.now a b)) place.now sorted.now ≡ insert sorted.now result place.now }
{
    for (at, other) in sorted.iter().enumerate() {
        if !place_cmp(columns, other, place).is_lt() {
            return at;
        }
    }
    sorted.len()
}

/// The places in re-sorted order.
pub(crate) fn resorted(alloc: Global, places: &[Placed]) -> Result<Seq<Placed>, AllocError>
    ensures { IfOk result (λ sorted. sorted ≡ resorted places.now) }
{
    let columns = column_order(alloc, places)?;
    let mut sorted = Vec::new(alloc);
    for at in (0..places.len()).rev() {
        let place = places[at].duplicate(alloc)?;
        let to = place_for(columns.as_slice(), sorted.as_slice(), &place);
        sorted.insert(to, place)?;
    }
    Ok(Seq::from_vec(sorted))
}
