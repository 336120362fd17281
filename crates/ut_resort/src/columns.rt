//! The order of the columns.
ghost use Rattle.std.specs.Prelude.{◌≡◌, ◌<◌, length, map, get_or, All, IfOk};
ghost use Rattle.std.specs.List.{range_with_len};
ghost use Rattle.ut_resort.specs.Resorted.{codes_of, columns_by};
ghost use Rattle.ut_resort.specs.Sorting.{counted_cmp, lists_by, lists_now};

use std::alloc::{AllocError, Global};
use std::cmp::Ordering;

/// A column and the number of its different keys.
#[derive(Clone, Copy)]
struct Counted {
    keys: u32,
    column: usize,
}

fn compare_columns(a: &Counted, b: &Counted) -> Ordering
    ensures { result ≡ counted_cmp a.now b.now }
{
    a.keys.cmp(&b.keys).then(a.column.cmp(&b.column))
}

fn counted_columns(alloc: Global, distinct: &[u32]) -> Result<Vec<Counted>, AllocError>
    ensures columns { IfOk result (λ all. map (λ (c : Counted). c.column) all.items ≡ range_with_len 0 (length distinct.now)) }
    ensures counts { IfOk result (λ all. All (λ (c : Counted). c.keys ≡ get_or distinct.now c.column 0) all.items) }
{
    let mut all = Vec::with_capacity(alloc, distinct.len())?;
    for column in 0..distinct.len() {
        let keys = distinct[column];
        all.push(Counted { keys, column })?;
    }
    Ok(all)
}

fn columns_of(alloc: Global, counted: &[Counted]) -> Result<Vec<usize>, AllocError>
    ensures { IfOk result (λ by. by.items ≡ map (λ (c : Counted). c.column) counted.now) }
{
    counted.iter().map(|counted| counted.column).collect(alloc)
}

// The columns by their number of different keys, on a tie by their place.
fn order_columns(alloc: Global, distinct: &[u32]) -> Result<Vec<usize>, AllocError>
    ensures columns { IfOk result (λ by. by.items ≡ columns_by distinct.now) }
    ensures within { IfOk result (λ by. All (λ column. column < length distinct.now) by.items) }
{
    let mut counted = counted_columns(alloc, distinct)?;
    counted.sort_unstable_by(|a, b| compare_columns(a, b));
    columns_of(alloc, counted.as_slice())
}

/// The codes of the columns in their order, and the ids behind them.
pub(crate) fn lists_in_order<'a>(
    alloc: Global,
    columns: &'a [Vec<u32>],
    distinct: &[u32],
    ids: &'a [u32],
) -> Result<Vec<&'a [u32]>, AllocError>
    requires { length distinct.now ≡ length columns.now }
    ensures { IfOk result (λ lists.
        lists_now lists.items ≡ lists_by (columns_by distinct.now) (codes_of columns.now) ids.now) }
{
    let by = order_columns(alloc, distinct)?;
    let mut lists = Vec::new(alloc);
    for column in by.as_slice() {
        lists.push(columns[*column].as_slice())?;
    }
    lists.push(ids)?;
    Ok(lists)
}
