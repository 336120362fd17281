//! The pairs of rows of two tables with equal values.
ghost use Rattle.std.specs.Prelude.{◌≡◌, ◌<◌, ◌++◌, ◌∷◌, [], ℕ, List, length, map, cond, Some, IfOk, OnOk};
ghost use Rattle.std.specs.List.{flat_map};
ghost use Rattle.std.specs.Ordering.{is_eq};
ghost use Rattle.ut_value.specs.declared.value.Value.{Value};
ghost use Rattle.ut_value.specs.KeyOrder.{value_cmp};
ghost use Rattle.ut_plain.specs.Tables.{column_of};
ghost use Rattle.ut_plain.specs.Query.{joined};
ghost use Rattle.ut_table.specs.Finds.{rows_at};
ghost use Rattle.ut_ops.specs.Fit.{Fit, cell};
ghost use Rattle.ut_ops.specs.Index.{listed, lists_now, IsIndex, beside_each};

use crate::columns::{add_columns, all_places};
use crate::gather::{ReadValues, cells, read_values};
use crate::ranked::Ranked;
use std::alloc::{AllocError, Global};
use std::collections::BTreeMap;
use ut_rows::Rows;
use ut_scan::Found;
use ut_table::Table;
use ut_value::{Seq, Value};

/// The left and the right row of each pair.
#[derive(Drop)]
struct Pairs {
    lefts: Vec<Found>,
    rights: Vec<Found>,
}

/// The pairs of a left and a right row with equal values: by the left ones, and then by the right ones.
pub fn join(
    alloc: Global,
    left: &Table,
    left_column: usize,
    left_hits: &[Found],
    right: &Table,
    right_column: usize,
    right_hits: &[Found],
) -> Result<Rows, AllocError>
    requires left_column { left_column < length left.now.stages.columns }
    requires left_fit { Fit left.now.stages left_hits.now }
    requires right_column { right_column < length right.now.stages.columns }
    requires right_fit { Fit right.now.stages right_hits.now }
    ensures { let l = left.now.stages in let r = right.now.stages in
        IfOk result (λ rows. (n m : ℕ) (left_name right_name : List ℕ)
        → column_of l.columns left_name ≡ Some left_column
        → column_of r.columns right_name ≡ Some right_column
        → rows ≡ joined l.columns left_name (rows_at n l left_hits.now)
        r.columns right_name (rows_at m r right_hits.now)) }
{
    let index = index_of(alloc, right, right_column, right_hits)?;
    let pairs = pairs_of(alloc, left, left_column, left_hits, &index)?;
    let rows = beside_each(
        alloc,
        left,
        pairs.lefts.as_slice(),
        right,
        pairs.rights.as_slice(),
    )?;
    Ok(rows)
}

/// The rows by their values.
fn index_of(
    alloc: Global,
    table: &Table,
    column: usize,
    hits: &[Found],
) -> Result<BTreeMap<Ranked, Seq<Found>>, AllocError>
    requires column { column < length table.now.stages.columns }
    requires fit { Fit table.now.stages hits.now }
    ensures { IfOk result (λ index. IsIndex table.now.stages column hits.now index) }
{
    let keys = cells(alloc, table, column, hits)?;
    let mut index = BTreeMap::new(alloc);
    for row in 0..hits.len() {
        let value = keys.value(row).copy(alloc)?;
        list(alloc, &mut index, Ranked::new(value), hits[row])?;
    }
    Ok(index)
}

/// One row more under a value.
fn list(
    alloc: Global,
    index: &mut BTreeMap<Ranked, Seq<Found>>,
    value: Ranked,
    hit: Found,
) -> Result<(), AllocError>
    ensures { OnOk result ((v : Value) → listed index.new v ≡ cond (is_eq (value_cmp v value)) (listed index.old v ++ hit ∷ []) (listed index.old v)) }
{
    let mut hits = index.remove(&value).unwrap_or(Seq::new(alloc));
    hits.push(hit)?;
    index.insert(value, hits)?;
    Ok(())
}

/// The rows with a value.
fn partners<'a>(index: &'a BTreeMap<Ranked, Seq<Found>>, value: &Ranked) -> &'a [Found]
    ensures { result.now ≡ listed index.now value.now }
{
    match index.get(value) {
        None => &[],
        Some(others) => others.as_slice(),
    }
}

/// Each left row beside those that have its value.
fn pairs_of(
    alloc: Global,
    left: &Table,
    column: usize,
    hits: &[Found],
    index: &BTreeMap<Ranked, Seq<Found>>,
) -> Result<Pairs, AllocError>
    requires column { column < length left.now.stages.columns }
    requires fit { Fit left.now.stages hits.now }
    ensures lefts { IfOk result (λ pairs. pairs.lefts.items ≡ flat_map (λ f. map (λ g. f) (listed index.now (cell left.now.stages column f))) hits.now) }
    ensures rights { IfOk result (λ pairs. pairs.rights.items ≡ flat_map (λ f. listed index.now (cell left.now.stages column f)) hits.now) }
{
    let ReadValues { values, places } = read_values(alloc, left, column, hits)?;
    let partners = partners_of(alloc, index, values)?;
    let lefts = Vec::with_capacity(alloc, hits.len())?;
    let rights = Vec::with_capacity(alloc, hits.len())?;
    let mut pairs = Pairs { lefts, rights };
    for row in 0..hits.len() {
        let others = partners[places[row] as usize];
        add_pairs(hits[row], others, &mut pairs)?;
    }
    Ok(pairs)
}

/// For each value the rows that have it.
fn partners_of<'a>(
    alloc: Global,
    index: &'a BTreeMap<Ranked, Seq<Found>>,
    values: Vec<Value>,
) -> Result<Vec<&'a [Found]>, AllocError>
    ensures { IfOk result (λ partners. lists_now partners.items ≡ map (listed index.now) values.items) }
{
    let mut all = Vec::with_capacity(alloc, values.len())?;
    for value in values {
        let key = Ranked::new(value);
        all.push(partners(index, &key))?;
    }
    Ok(all)
}

/// A left row beside each of these.
fn add_pairs(hit: Found, others: &[Found], pairs: &mut Pairs) -> Result<(), AllocError>
    ensures lefts { OnOk result (pairs.new.lefts.items ≡ pairs.old.lefts.items ++ map (λ g. hit) others.now) }
    ensures rights { OnOk result (pairs.new.rights.items ≡ pairs.old.rights.items ++ others.now) }
{
    for other in others {
        pairs.lefts.push(hit)?;
        pairs.rights.push(*other)?;
    }
    Ok(())
}

/// Pair by pair the left row's values, and behind them those of the right one.
fn beside_each(
    alloc: Global,
    left: &Table,
    lefts: &[Found],
    right: &Table,
    rights: &[Found],
) -> Result<Rows, AllocError>
    requires left_fit { Fit left.now.stages lefts.now }
    requires right_fit { Fit right.now.stages rights.now }
    requires pairs { length rights.now ≡ length lefts.now }
    ensures { IfOk result (λ rows. rows ≡ beside_each left.now.stages lefts.now right.now.stages rights.now) }
{
    let left_places = all_places(alloc, left.columns().len())?;
    let right_places = all_places(alloc, right.columns().len())?;
    let width = left_places.len().saturating_add(right_places.len());
    let mut columns = Vec::with_capacity(alloc, width)?;
    add_columns(alloc, left, left_places.as_slice(), lefts, &mut columns)?;
    add_columns(alloc, right, right_places.as_slice(), rights, &mut columns)?;
    Ok(Rows::of_columns(lefts.len(), columns))
}
