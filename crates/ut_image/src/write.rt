//! Writes a directory, table by table. Only the public calls take memory, each all or nothing.
ghost use Rattle.std.specs.Prelude.{◌≡◌, ◌+◌, ◌<◌, ◌≤◌, ◌^◌, ◌++◌, length, OnOk, OnErr, vec_len, vec_capacity};
ghost use Rattle.std.specs.Int.{w32, to_le_bytes};
ghost use Rattle.std.specs.List.{flat_map, sum_by};
ghost use Rattle.ut_image.specs.Bytes.{row_bytes, rows_bytes, parts_bytes, head_bytes, drawn_bytes};
ghost use Rattle.ut_image.specs.Steps.{row_len, front_len};

use crate::PartRef;
use crate::length::{front_len, row_len, rows_len, table_len};
use crate::put::{put_front, put_row, put_rows};
use std::alloc::AllocError;
use ut_plain::Table;
use ut_value::Row;

/// Appends the first bytes of a directory of so many tables.
pub fn image_start(tables: u32, out: &mut Vec<u8>) -> Result<(), AllocError>
    ensures ok { OnOk result (out.new.items ≡ out.old.items ++ to_le_bytes w32 tables) }
    ensures err { OnErr result (out.new.items ≡ out.old.items) }
{
    out.extend_from_slice(&tables.to_le_bytes())
}

/// Appends one table of a directory.
pub fn image_table(
    table: &Table,
    parts: &[PartRef],
    l2: &[Row],
    l1: &[Row],
    out: &mut Vec<u8>,
) -> Result<(), AllocError>
    requires columns { length table.now.columns ≤ 64 }
    requires parts { length parts.now ≤ 8 }
    requires l2 { length l2.now ≤ 2 ^ 31 }
    requires l1 { length l1.now ≤ 2 ^ 31 }
    ensures ok { OnOk result (out.new.items ≡ out.old.items ++ drawn_bytes (record { table = table.now; parts = parts.now; l2 = l2.now; l1 = l1.now })) }
    ensures err { OnErr result (out.new.items ≡ out.old.items) }
{
    let Some(len) = table_len(table, parts, l2, l1) else {
        return Err(AllocError);
    };
    out.reserve(len)?;
    put_front(table, parts, out);
    put_rows(l2, out);
    put_rows(l1, out);
    Ok(())
}

/// Appends what stands before the rows of a table: its name, its columns and its parts.
pub fn image_front(table: &Table, parts: &[PartRef], out: &mut Vec<u8>) -> Result<(), AllocError>
    requires columns { length table.now.columns ≤ 64 }
    requires parts { length parts.now ≤ 8 }
    ensures ok { OnOk result (out.new.items ≡ out.old.items ++ (head_bytes table.now ++ parts_bytes parts.now)) }
    ensures err { OnErr result (out.new.items ≡ out.old.items) }
{
    let Some(len) = front_len(table, parts) else {
        return Err(AllocError);
    };
    out.reserve(len)?;
    put_front(table, parts, out);
    Ok(())
}

/// Appends the rows of a delta, behind their number.
pub fn image_rows(rows: &[Row], out: &mut Vec<u8>) -> Result<(), AllocError>
    requires { length rows.now ≤ 2 ^ 31 }
    ensures ok { OnOk result (out.new.items ≡ out.old.items ++ rows_bytes rows.now) }
    ensures err { OnErr result (out.new.items ≡ out.old.items) }
{
    let Some(len) = rows_len(rows) else {
        return Err(AllocError);
    };
    out.reserve(len)?;
    put_rows(rows, out);
    Ok(())
}

/// Appends one row of a delta, whose number of rows stands before them.
pub fn image_row(row: &Row, out: &mut Vec<u8>) -> Result<(), AllocError>
    ensures ok { OnOk result (out.new.items ≡ out.old.items ++ row_bytes row.now) }
    ensures err { OnErr result (out.new.items ≡ out.old.items) }
{
    let Some(len) = row_len(row) else {
        return Err(AllocError);
    };
    out.reserve(len)?;
    put_row(row, out);
    Ok(())
}
