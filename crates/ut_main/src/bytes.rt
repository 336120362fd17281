//! The bytes of a part, both ways.
//!
//! part:   rows: u32, id: u32[rows], column[columns]
//! column: own dictionary, code vector
ghost use Rattle.std.specs.Prelude.{◌≡◌, ◌≢◌, ◌+◌, ◌<◌, ◌≤◌, ◌++◌, ℕ, List, [], All, length, take, map, get_or, IfOk, IfSome, IfNone, OnOk, OnErr};
ghost use Rattle.std.specs.List.{flat_map};
ghost use Rattle.ut_prefix.specs.Chain.{end_to_end};
ghost use Rattle.ut_main.specs.Columns.{AreDistinct, ColumnValue};
ghost use Rattle.ut_main.specs.Parts.{PartValue, rows_in};
ghost use Rattle.ut_main.specs.Spelling.{column_bytes, part_bytes, HaveKinds, MayStand};
ghost use Rattle.ut_main.specs.Reading.{MayBeColumn, MayBeColumns};

use crate::column::CodedColumn;
use crate::ids::{append_ids, ids_from};
use crate::own::own_from;
use crate::part::Part;
use crate::parts::Main;
use crate::used::codes_from;
use std::alloc::{AllocError, Global};
use std::marker::Brand;
use std::sync::Arc;
use std::sync::ledger::{Blank, Ledger};
use ut_key::Steps;
use ut_prefix::DictChain;
use ut_value::{Column, Kind};

// Appends a column's own dictionary and codes. At a refusal some bytes may have been added.
fn append_column(column: &CodedColumn, out: &mut Vec<u8>) -> Result<(), AllocError>
    ensures ok { OnOk result (out.new.items ≡ out.old.items ++ column_bytes column.now) }
    ensures err { OnErr result (take (length out.old.items) out.new.items ≡ out.old.items) }
{
    column.dict().bytes_of(out)?;
    column.codes().bytes_of(out)?;
    Ok(())
}

// Appends the columns one after the other. At a refusal some bytes may have been added.
fn append_columns(columns: &[CodedColumn], out: &mut Vec<u8>) -> Result<(), AllocError>
    ensures ok { OnOk result (out.new.items ≡ out.old.items ++ flat_map column_bytes columns.now) }
    ensures err { OnErr result (take (length out.old.items) out.new.items ≡ out.old.items) }
{
    for column in columns {
        append_column(column, out)?;
    }
    Ok(())
}

// Appends ids and columns. At a refusal some bytes may have been added.
fn append_part(part: &Part, out: &mut Vec<u8>) -> Result<(), AllocError>
    ensures ok { OnOk result (out.new.items ≡ out.old.items ++ part_bytes part.now) }
    ensures err { OnErr result (take (length out.old.items) out.new.items ≡ out.old.items) }
{
    append_ids(part.ids(), out)?;
    append_columns(part.columns(), out)
}

/// Appends the bytes of a part.
pub fn part_bytes(part: &Part, out: &mut Vec<u8>) -> Result<(), AllocError>
    ensures ok { OnOk result (out.new.items ≡ out.old.items ++ part_bytes part.now) }
    ensures err { OnErr result (out.new.items ≡ out.old.items) }
{
    let start = out.len();
    match append_part(part, out) {
        Ok(()) => Ok(()),
        Err(failed) => {
            out.truncate(start);
            Err(failed)
        }
    }
}

// The column behind a chain that begins the bytes, and what stands behind it.
fn column_from<'a, L: Ledger>(
    alloc: Global,
    bytes: &'a [u8],
    rows: u32,
    kind: Kind,
    chain: DictChain,
    steps: &mut Steps<L>,
) -> Result<Option<(CodedColumn, &'a [u8])>, AllocError>
    requires distinct { AreDistinct (end_to_end chain) }
    requires few { length (end_to_end chain) + rows ≤ 2147483647 }
    ensures some { IfOk result (λ found. IfSome found (λ r.
        MayBeColumn rows kind chain r.0 × (bytes.now ≡ column_bytes r.0 ++ r.1.now))) }
    ensures none { IfOk result (λ found. IfNone found (
        (c : ColumnValue) (rest : List ℕ) → MayBeColumn rows kind chain c
        → bytes.now ≢ column_bytes c ++ rest)) }
{
    let start = chain.len();
    let Some((dict, behind)) = own_from(alloc, bytes, rows, kind, &chain, steps)? else {
        return Ok(None);
    };
    let dict = Arc::new(alloc, dict)?;
    let mut chain = chain;
    chain.push(Arc::try_clone(&dict)?)?;
    match codes_from(alloc, behind, rows, start, chain.len())? {
        Some((codes, rest)) => Ok(Some((CodedColumn::of(dict, chain, codes), rest))),
        None => Ok(None),
    }
}

// The columns of a part behind main that are all of the bytes.
fn columns_from<L: Ledger>(
    alloc: Global,
    bytes: &[u8],
    rows: u32,
    columns: &[Column],
    earlier: &Main,
    steps: &mut Steps<L>,
) -> Result<Option<Vec<CodedColumn>>, AllocError>
    requires width { length columns.now ≡ earlier.now.width }
    requires few { rows_in earlier.now + rows ≤ 2147483647 }
    ensures some { IfOk result (λ found. IfSome found (λ cs.
        MayBeColumns columns.now earlier.now rows cs.items
        × (bytes.now ≡ flat_map column_bytes cs.items))) }
    ensures none { IfOk result (λ found. IfNone found (
        (cs : List ColumnValue) → MayBeColumns columns.now earlier.now rows cs
        → bytes.now ≢ flat_map column_bytes cs)) }
{
    let mut read = Vec::with_capacity(alloc, columns.len())?;
    let mut rest = bytes;
    for j in 0..earlier.width() {
        let chain = earlier.dicts(alloc, j)?;
        let kind = columns[j as usize].kind;
        let Some((column, later)) = column_from(alloc, rest, rows, kind, chain, steps)? else {
            return Ok(None);
        };
        read.push(column)?;
        rest = later;
    }
    if rest.is_empty() {
        Ok(Some(read))
    } else {
        Ok(None)
    }
}

// The part behind main whose bytes these are, with a counter for reading keys over a new ledger.
fn counted_part<L: Ledger>(
    alloc: Global,
    bytes: &[u8],
    columns: &[Column],
    earlier: &Main,
    blank: Blank,
) -> Result<Option<Part>, AllocError>
    requires name { blank.name ≡ L.name }
    requires parts { blank.parts ≡ L.parts }
    requires positive { 0 < blank.parts }
    requires width { length columns.now ≡ earlier.now.width }
    ensures some { IfOk result (λ found. IfSome found (λ part.
        MayStand columns.now earlier.now part × (bytes.now ≡ part_bytes part))) }
    ensures none { IfOk result (λ found. IfNone found (
        (part : PartValue) → MayStand columns.now earlier.now part → bytes.now ≢ part_bytes part)) }
{
    let mut steps = Steps::<L>::new(blank);
    let Some((ids, rest)) = ids_from(alloc, bytes, earlier.rows())? else {
        return Ok(None);
    };
    let rows = ids.len() as u32;
    match columns_from(alloc, rest, rows, columns, earlier, &mut steps)? {
        Some(read) => Ok(Some(Part::of(ids, read))),
        None => Ok(None),
    }
}

/// The part behind main whose bytes these are. Other bytes than `part_bytes` gives are refused, and
/// ids or keys out of range.
pub fn part_from(
    alloc: Global,
    bytes: &[u8],
    columns: &[Column],
    earlier: &Main,
) -> Result<Option<Part>, AllocError>
    requires { length columns.now ≡ earlier.now.width }
    ensures some { IfOk result (λ found. IfSome found (λ part.
        MayStand columns.now earlier.now part × (bytes.now ≡ part_bytes part))) }
    ensures none { IfOk result (λ found. IfNone found (
        (part : PartValue) → MayStand columns.now earlier.now part → bytes.now ≢ part_bytes part)) }
    ensures kinds { IfOk result (λ found. IfSome found (λ part.
        All (HaveKinds columns.now) earlier.now.parts → HaveKinds columns.now part.rows)) }
{
    counted_part::<Brand>(alloc, bytes, columns, earlier, Blank::new(1))
}
