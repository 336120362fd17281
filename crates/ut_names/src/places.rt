//! Where the tables and the columns of a name stand.
ghost use Rattle.std.specs.Prelude.{◌≡◌, ◌<◌, ◌≤◌, true, false, length, None, Some, IsErr, IfOk, IfSome, IfNone};
ghost use Rattle.std.specs.List.{filter_map, list_all};
ghost use Rattle.ut_value.specs.Spelling.{has_column};
ghost use Rattle.ut_plain.specs.Tables.{place_of, columns_of, column_of};
ghost use Rattle.ut_plain.specs.Names.{names_in};
ghost use Rattle.ut_plain.specs.Kinds.{kind_in, is_int};
ghost use Rattle.ut_names.specs.Resolved.{AreNarrow, AreColumns, IsWrong};

use crate::Columns;
use std::alloc::{AllocError, Global};
use ut_plain::{Table, column_of, place_of};
use ut_value::{Column, Kind, Name, Seq};

/// A table that is there: its place in order of creation, and its columns.
#[derive(Clone, Copy)]
pub(crate) struct TableAt<'a> {
    pub place: usize,
    pub columns: &'a [Column],
}

/// A column that is there: its place in its table, and its kind.
#[derive(Clone, Copy)]
pub(crate) struct ColumnAt {
    pub place: usize,
    pub kind: Kind,
}

/// The table of a name.
pub(crate) fn table_at<'a>(tables: &'a [Table], name: &[u8]) -> Option<TableAt<'a>>
    requires { AreNarrow tables.now }
    ensures place { IfSome result (λ t. place_of tables.now name.now ≡ Some t.place) }
    ensures columns { IfSome result (λ t. columns_of tables.now name.now ≡ Some t.columns.now) }
    ensures narrow { IfSome result (λ t. length t.columns.now ≤ 64) }
    ensures none { IfNone result (columns_of tables.now name.now ≡ None) }
{
    let place = place_of(tables, name)?;
    let table = tables.get(place)?;
    Some(TableAt {
        place,
        columns: table.columns.as_slice(),
    })
}

/// The column of a name.
#[tactic(auto, using(crate::proofs::PlaceLemmas::column_missing))]
pub(crate) fn column_at(columns: &[Column], name: &[u8]) -> Option<ColumnAt>
    ensures place { IfSome result (λ c. column_of columns.now name.now ≡ Some c.place) }
    ensures below { IfSome result (λ c. c.place < length columns.now) }
    ensures known { IfSome result (λ c. has_column columns.now name.now ≡ true) }
    ensures kind { IfSome result (λ c. kind_in columns.now name.now ≡ Some c.kind) }
    ensures none { IfNone result (has_column columns.now name.now ≡ false) }
{
    let place = column_of(columns, name)?;
    let column = columns.get(place)?;
    Some(ColumnAt {
        place,
        kind: column.kind,
    })
}

/// The place of the column of numbers of a name.
pub(crate) fn number_at(columns: &[Column], name: &[u8]) -> Option<usize>
    ensures place { IfSome result (λ place. column_of columns.now name.now ≡ Some place) }
    ensures known { IfSome result (λ place. has_column columns.now name.now ≡ true) }
    ensures kind { IfSome result (λ place. is_int (kind_in columns.now name.now) ≡ true) }
    ensures none { IfNone result (IsWrong (has_column columns.now name.now) (is_int (kind_in columns.now name.now))) }
{
    let column = column_at(columns, name)?;
    match column.kind {
        Kind::Int => Some(column.place),
        Kind::Text => None,
    }
}

/// The places of the columns of these names, or all columns. None where one isn't there.
pub(crate) fn columns_at(
    alloc: Global,
    columns: &[Column],
    names: &Option<Seq<Name>>,
) -> Result<Option<Columns>, AllocError>
    ensures are { IfOk result (λ o. IfSome o (AreColumns columns.now names.now)) }
    ensures known { IfOk result (λ o. IfSome o (λ _. names_in names.now columns.now ≡ true)) }
    ensures none { IfOk result (λ o. IfNone o (names_in names.now columns.now ≡ false)) }
    ensures room { names.now ≡ None → IsErr result → ⊥ }
{
    match names {
        None => Ok(Some(Columns::All)),
        Some(names) => match places(alloc, columns, names.as_slice())? {
            Some(places) => Ok(Some(Columns::Named(places))),
            None => Ok(None),
        },
    }
}

fn places(
    alloc: Global,
    columns: &[Column],
    names: &[Name],
) -> Result<Option<Vec<usize>>, AllocError>
    ensures are { IfOk result (λ o. IfSome o (λ list. list.items ≡ filter_map (column_of columns.now) names.now)) }
    ensures known { IfOk result (λ o. IfSome o (λ _. list_all (has_column columns.now) names.now ≡ true)) }
    ensures none { IfOk result (λ o. IfNone o (list_all (has_column columns.now) names.now ≡ false)) }
{
    let mut list = Vec::with_capacity(alloc, names.len())?;
    for name in names {
        let Some(column) = column_at(columns, name.as_slice()) else {
            return Ok(None);
        };
        list.push(column.place)?;
    }
    Ok(Some(list))
}
