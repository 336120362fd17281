//! Reads the parts of an entry: texts, names, values, columns and operations, and lists of these.
ghost use Rattle.std.specs.Prelude.{◌≡◌, ◌<◌, ◌∷◌, IfOk, IfSome, IfNone};
ghost use Rattle.ut_value.specs.declared.value.Kind.{Kind};
ghost use Rattle.ut_value.specs.KeyBytes.{is_value};
ghost use Rattle.ut_value.specs.Text.{is_name, is_text};
ghost use Rattle.ut_value.specs.Spelling.{value_spelling, column_spelling, text_spelling, values_spelling, columns_spelling, op_spelling, kind_byte, has_column, names_differ, is_column, are_values, are_columns, is_op};
ghost use Rattle.ut_value.specs.Reading.{Begins, BeginsNone};

use crate::read::{Place, Spelled, counted, first_byte, read_int, read_list, read_place};
use std::alloc::{AllocError, Global};
use ut_value::{
    COLUMNS_LIMIT, Column, Kind, Name, Op, Seq, Text, Value, is_name, is_text, same_bytes,
};

/// The text whose spelling begins the bytes, and what stands behind it.
pub fn read_text(alloc: Global, bytes: &[u8]) -> Result<Option<(Text, &[u8])>, AllocError>
    ensures found { IfOk result (λ o. IfSome o (λ r. Begins text_spelling is_text bytes.now r.0 r.1.now)) }
    ensures none { IfOk result (λ o. IfNone o (BeginsNone text_spelling is_text bytes.now)) }
{
    let Some((text, rest)) = counted(bytes) else {
        return Ok(None);
    };
    if !is_text(text) {
        return Ok(None);
    }
    let text = Text::from_slice(alloc, text)?;
    Ok(Some((text, rest)))
}

/// The name whose spelling begins the bytes, and what stands behind it.
pub fn read_name(alloc: Global, bytes: &[u8]) -> Result<Option<(Name, &[u8])>, AllocError>
    ensures found { IfOk result (λ o. IfSome o (λ r. Begins text_spelling is_name bytes.now r.0 r.1.now)) }
    ensures none { IfOk result (λ o. IfNone o (BeginsNone text_spelling is_name bytes.now)) }
{
    let Some((name, rest)) = counted(bytes) else {
        return Ok(None);
    };
    if !is_name(name) {
        return Ok(None);
    }
    let name = Name::of(Vec::from_slice(alloc, name)?);
    Ok(Some((name, rest)))
}

impl Spelled<()> for Value {
    ghost spelling = { value_spelling };

    ghost keeps = { λ _. is_value };

    fn read<'a>(
        alloc: Global,
        _context: &(),
        bytes: &'a [u8],
    ) -> Result<Option<(Self, &'a [u8])>, AllocError> {
        let Some((kind, rest)) = first_byte(bytes) else {
            return Ok(None);
        };
        match kind {
            0 => match read_int(rest) {
                Some((number, behind)) => Ok(Some((Value::Int(number), behind))),
                None => Ok(None),
            },
            1 => match read_text(alloc, rest)? {
                Some((text, behind)) => Ok(Some((Value::Text(text), behind))),
                None => Ok(None),
            },
            _ => Ok(None),
        }
    }
}

fn kind_of(byte: u8) -> Option<Kind>
    ensures found { IfSome result (λ kind. byte ≡ kind_byte kind) }
    ensures none { IfNone result ((kind : Kind) → byte ≡ kind_byte kind → ⊥) }
{
    match byte {
        0 => Some(Kind::Int),
        1 => Some(Kind::Text),
        _ => None,
    }
}

impl Spelled<()> for Column {
    ghost spelling = { column_spelling };

    ghost keeps = { λ _. is_column };

    fn read<'a>(
        alloc: Global,
        _context: &(),
        bytes: &'a [u8],
    ) -> Result<Option<(Self, &'a [u8])>, AllocError> {
        let Some((byte, rest)) = first_byte(bytes) else {
            return Ok(None);
        };
        let Some(kind) = kind_of(byte) else {
            return Ok(None);
        };
        match read_name(alloc, rest)? {
            Some((name, behind)) => Ok(Some((Column { name, kind }, behind))),
            None => Ok(None),
        }
    }
}

// A row's values: their number, then each.
fn read_values(alloc: Global, bytes: &[u8]) -> Result<Option<(Seq<Value>, &[u8])>, AllocError>
    ensures found { IfOk result (λ o. IfSome o (λ r. Begins values_spelling are_values bytes.now r.0 r.1.now)) }
    ensures none { IfOk result (λ o. IfNone o (BeginsNone values_spelling are_values bytes.now)) }
{
    let Some((count, rest)) = first_byte(bytes) else {
        return Ok(None);
    };
    if count == 0 || count > COLUMNS_LIMIT {
        return Ok(None);
    }
    read_list(alloc, &(), usize::from(count), rest)
}

/// A table's columns: their number, then each.
pub fn read_columns(alloc: Global, bytes: &[u8]) -> Result<Option<(Seq<Column>, &[u8])>, AllocError>
    ensures found { IfOk result (λ o. IfSome o (λ r. Begins columns_spelling are_columns bytes.now r.0 r.1.now)) }
    ensures none { IfOk result (λ o. IfNone o (BeginsNone columns_spelling are_columns bytes.now)) }
{
    let Some((count, rest)) = first_byte(bytes) else {
        return Ok(None);
    };
    if count == 0 || count > COLUMNS_LIMIT {
        return Ok(None);
    }
    let Some((columns, behind)) = read_list(alloc, &(), usize::from(count), rest)? else {
        return Ok(None);
    };
    if !names_differ(columns.as_slice()) {
        return Ok(None);
    }
    Ok(Some((columns, behind)))
}

fn has_column(columns: &[Column], name: &[u8]) -> bool
    ensures { result ≡ has_column columns.now name.now }
{
    columns
        .iter()
        .any(|column| same_bytes(column.name.as_slice(), name))
}

fn names_differ(columns: &[Column]) -> bool
    ensures { result ≡ names_differ columns.now }
{
    match columns {
        [] => true,
        [first, rest @ ..] => !has_column(rest, first.name.as_slice()) && names_differ(rest),
    }
}

impl Spelled<()> for Op {
    ghost spelling = { op_spelling };

    ghost keeps = { λ _. is_op };

    fn read<'a>(
        alloc: Global,
        _context: &(),
        bytes: &'a [u8],
    ) -> Result<Option<(Self, &'a [u8])>, AllocError> {
        let Some((tag, rest)) = first_byte(bytes) else {
            return Ok(None);
        };
        match tag {
            1 => read_insert(alloc, rest),
            2 => Ok(read_delete(rest)),
            _ => Ok(None),
        }
    }
}

fn read_insert(alloc: Global, bytes: &[u8]) -> Result<Option<(Op, &[u8])>, AllocError>
    ensures found { IfOk result (λ o. IfSome o (λ r. Begins op_spelling is_op (1 ∷ bytes.now) r.0 r.1.now)) }
    ensures none { IfOk result (λ o. IfNone o (BeginsNone op_spelling is_op (1 ∷ bytes.now))) }
{
    let Some((place, rest)) = read_place(bytes) else {
        return Ok(None);
    };
    let Some((values, behind)) = read_values(alloc, rest)? else {
        return Ok(None);
    };
    let Place { table, id } = place;
    Ok(Some((Op::Insert { table, id, values }, behind)))
}

fn read_delete(bytes: &[u8]) -> Option<(Op, &[u8])>
    ensures found { IfSome result (λ r. Begins op_spelling is_op (2 ∷ bytes.now) r.0 r.1.now) }
    ensures none { IfNone result (BeginsNone op_spelling is_op (2 ∷ bytes.now)) }
{
    let (place, rest) = read_place(bytes)?;
    let Place { table, id } = place;
    Some((Op::Delete { table, id }, rest))
}
