//! The order of the rows.
ghost use Rattle.std.specs.Prelude.{◌≡◌, ◌^◌, ◌<◌, length, map, get_or, All, IfOk};
ghost use Rattle.std.specs.List.{range_with_len};
ghost use Rattle.std.specs.List.Sorted.{IsPermutation, IsSorted};
ghost use Rattle.ut_resort.specs.Resorted.{codes_of, columns_by, row_cmp};
ghost use Rattle.ut_resort.specs.Sorting.{codes_cmp, keyed_cmp, lists_now, IsKeyed};

use crate::columns::lists_in_order;
use crate::packing::pack;
use std::alloc::{AllocError, Global};
use std::cmp::Ordering;

/// A row with the key that its first codes make.
#[derive(Clone, Copy)]
struct Keyed {
    key: u64,
    row: u32,
}

fn code_of(codes: &[u32], row: u32) -> u32
    ensures { result ≡ get_or codes.now row 0 }
{
    match codes.get(row as usize) {
        Some(code) => *code,
        None => 0,
    }
}

// How the codes of two rows are ordered: the first list in which they differ decides.
fn compare_codes(lists: &[&[u32]], a: u32, b: u32) -> Ordering
    ensures { result ≡ codes_cmp (lists_now lists.now) a b }
{
    for codes in lists {
        match code_of(codes, a).cmp(&code_of(codes, b)) {
            Ordering::Less => return Ordering::Less,
            Ordering::Equal => {}
            Ordering::Greater => return Ordering::Greater,
        }
    }
    Ordering::Equal
}

fn compare_rows(rest: &[&[u32]], a: &Keyed, b: &Keyed) -> Ordering
    ensures { result ≡ keyed_cmp (lists_now rest.now) a.now b.now }
{
    match a.key.cmp(&b.key) {
        Ordering::Less => Ordering::Less,
        Ordering::Equal => compare_codes(rest, a.row, b.row),
        Ordering::Greater => Ordering::Greater,
    }
}

fn keyed_rows(alloc: Global, keys: &[u64]) -> Result<Vec<Keyed>, AllocError>
    requires { length keys.now < 2 ^ 32 }
    ensures rows { IfOk result (λ all. map (λ (k : Keyed). k.row) all.items ≡ range_with_len 0 (length keys.now)) }
    ensures keys { IfOk result (λ all. All (IsKeyed keys.now) all.items) }
{
    let mut rows = Vec::with_capacity(alloc, keys.len())?;
    for row in 0..keys.len() as u32 {
        let key = keys[row as usize];
        rows.push(Keyed { key, row })?;
    }
    Ok(rows)
}

fn rows_of(alloc: Global, keyed: &[Keyed]) -> Result<Vec<u32>, AllocError>
    ensures { IfOk result (λ rows. rows.items ≡ map (λ (k : Keyed). k.row) keyed.now) }
{
    keyed.iter().map(|keyed| keyed.row).collect(alloc)
}

/// The old places of rows in re-sorted order: by their codes, those of the column with fewest
/// different keys first, and then by row id. Columns with as many keys keep their order.
pub fn order(
    alloc: Global,
    columns: &[Vec<u32>],
    distinct: &[u32],
    ids: &[u32],
) -> Result<Vec<u32>, AllocError>
    requires sizes { All (λ column. length column.items ≡ length ids.now) columns.now }
    requires counts { length distinct.now ≡ length columns.now }
    requires few { length ids.now < 2 ^ 32 }
    ensures all { IfOk result (λ places. IsPermutation (range_with_len 0 (length ids.now)) places.items) }
    ensures sorted { IfOk result (λ places.
        IsSorted (row_cmp (columns_by distinct.now) (codes_of columns.now) ids.now) places.items) }
{
    let lists = lists_in_order(alloc, columns, distinct, ids)?;
    let mut keys = vec![in alloc; 0u64; ids.len()]?;
    let packed = pack(keys.as_mut_slice(), lists.as_slice());
    let rest = &lists[packed..];
    let mut rows = keyed_rows(alloc, keys.as_slice())?;
    rows.sort_unstable_by(|a, b| compare_rows(rest, a, b));
    rows_of(alloc, rows.as_slice())
}
