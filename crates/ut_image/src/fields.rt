//! Reads heads of tables, values and rows.
ghost use Rattle.std.specs.Prelude.{IfOk, IfSome, IfNone};
ghost use Rattle.std.specs.List.{flat_map};
ghost use Rattle.ut_value.specs.Reading.{Begins, BeginsNone};
ghost use Rattle.ut_image.specs.Bytes.{cell_bytes, row_bytes, rows_bytes, head_bytes};
ghost use Rattle.ut_image.specs.Rules.{is_cell, are_cells, is_row, are_rows, is_head};

use std::alloc::{AllocError, Global};
use ut_entry::{Spelled, read_columns, read_int, read_list, read_name, read_text, read_u32};
use ut_plain::Table;
use ut_value::{Column, Kind, Row, Seq, Value};

/// A table's name and columns.
pub(crate) fn read_head(alloc: Global, bytes: &[u8]) -> Result<Option<(Table, &[u8])>, AllocError>
    ensures found { IfOk result (λ o. IfSome o (λ r. Begins head_bytes is_head bytes.now r.0 r.1.now)) }
    ensures none { IfOk result (λ o. IfNone o (BeginsNone head_bytes is_head bytes.now)) }
{
    let Some((name, rest)) = read_name(alloc, bytes)? else {
        return Ok(None);
    };
    let Some((columns, behind)) = read_columns(alloc, rest)? else {
        return Ok(None);
    };
    Ok(Some((Table { name, columns }, behind)))
}

// A value of a kind.
fn read_cell(alloc: Global, kind: Kind, bytes: &[u8]) -> Result<Option<(Value, &[u8])>, AllocError>
    ensures found { IfOk result (λ o. IfSome o (λ r. Begins cell_bytes (is_cell kind) bytes.now r.0 r.1.now)) }
    ensures none { IfOk result (λ o. IfNone o (BeginsNone cell_bytes (is_cell kind) bytes.now)) }
{
    match kind {
        Kind::Int => match read_int(bytes) {
            Some((number, rest)) => Ok(Some((Value::Int(number), rest))),
            None => Ok(None),
        },
        Kind::Text => match read_text(alloc, bytes)? {
            Some((text, rest)) => Ok(Some((Value::Text(text), rest))),
            None => Ok(None),
        },
    }
}

// A value for each column.
fn read_cells<'a>(
    alloc: Global,
    columns: &[Column],
    bytes: &'a [u8],
) -> Result<Option<(Seq<Value>, &'a [u8])>, AllocError>
    ensures found { IfOk result (λ o. IfSome o (λ r. Begins (flat_map cell_bytes) (are_cells columns.now) bytes.now r.0 r.1.now)) }
    ensures none { IfOk result (λ o. IfNone o (BeginsNone (flat_map cell_bytes) (are_cells columns.now) bytes.now)) }
{
    let mut values = Vec::with_capacity(alloc, columns.len().min(bytes.len()))?;
    let mut rest = bytes;
    for column in columns {
        let Some((value, behind)) = read_cell(alloc, column.kind, rest)? else {
            return Ok(None);
        };
        values.push(value)?;
        rest = behind;
    }
    Ok(Some((Seq::from_vec(values), rest)))
}

/// The columns that the rows have.
#[derive(Clone, Copy)]
struct RowsOf<'c> {
    columns: &'c Seq<Column>,
}

impl<'c> Spelled<RowsOf<'c>> for Row {
    ghost spelling = { row_bytes };

    ghost keeps = { λ of. is_row of.columns.now };

    fn read<'a>(
        alloc: Global,
        context: &RowsOf<'c>,
        bytes: &'a [u8],
    ) -> Result<Option<(Self, &'a [u8])>, AllocError> {
        let Some((id, rest)) = read_u32(bytes) else {
            return Ok(None);
        };
        match read_cells(alloc, context.columns.as_slice(), rest)? {
            Some((values, behind)) => Ok(Some((Row { id, values }, behind))),
            None => Ok(None),
        }
    }
}

/// Rows of these columns, behind their number.
pub(crate) fn read_rows<'a>(
    alloc: Global,
    columns: &Seq<Column>,
    bytes: &'a [u8],
) -> Result<Option<(Seq<Row>, &'a [u8])>, AllocError>
    ensures found { IfOk result (λ o. IfSome o (λ r. Begins rows_bytes (are_rows columns.now) bytes.now r.0 r.1.now)) }
    ensures none { IfOk result (λ o. IfNone o (BeginsNone rows_bytes (are_rows columns.now) bytes.now)) }
{
    let Some((count, rest)) = read_u32(bytes) else {
        return Ok(None);
    };
    read_list(alloc, &RowsOf { columns }, count as usize, rest)
}
