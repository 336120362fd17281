//! A directory as its description gives it, of up to eight parts.
use std::alloc::{AllocError, Global};
use std::test::Fail;
use ut_image::{Drawn, image_from, image_start, image_table};
use ut_value::same_bytes;

/// One table T of the columns k and v: a part of ten rows, of which the second and the last are dead, a row in the second
/// delta, and one in the first.
const DIRECTORY: &[u8] =
    b"\x01\0\0\0\x01T\x02\0\x01k\x01\x01v\x01\x04\0\0\0\x64\0\0\0\0\0\0\0\x0a\0\0\0\xfd\x01\x01\0\0\0\x07\0\0\0\x80\0\0\0\0\0\0\x05\x01a\x01\0\0\0\x08\0\0\0\x7f\xff\xff\xff\xff\xff\xff\xff\0";

/// One table T of one column k, with nothing in it.
const EMPTY_TABLE: &[u8] = b"\x01\0\0\0\x01T\x01\0\x01k\0\0\0\0\0\0\0\0\0";

/// Where the number of parts stands in it.
const PARTS_AT: usize = 10;

// A table is written where it is small enough.
fn put_table(drawn: &Drawn, out: &mut Vec<u8>) -> Result<(), Fail> {
    let columns = drawn.table.columns.len();
    let (l2, l1) = (drawn.l2.as_slice(), drawn.l1.as_slice());
    if columns > 64 || drawn.parts.len() > 8 || l2.len() > 1 << 31 || l1.len() > 1 << 31 {
        return Err("large")?;
    }
    image_table(&drawn.table, drawn.parts.as_slice(), l2, l1, out)?;
    Ok(())
}

fn put_tables(tables: &[Drawn], out: &mut Vec<u8>) -> Result<(), Fail> {
    let Ok(count) = u32::try_from(tables.len()) else {
        return Err("many")?;
    };
    image_start(count, out)?;
    for drawn in tables {
        put_table(drawn, out)?;
    }
    Ok(())
}

fn written(alloc: Global, tables: &[Drawn]) -> Result<Vec<u8>, Fail> {
    let mut out = Vec::new(alloc);
    put_tables(tables, &mut out)?;
    Ok(out)
}

fn put_parts(count: u8, bytes: &mut Vec<u8>) -> Result<(), AllocError> {
    bytes.push(count)?;
    for part in 0..count {
        bytes.extend_from_slice(&[part, 1, 0, 0, 12, 0, 0, 0, 0, 0, 0, 0, 0, 0, 0, 0])?;
    }
    Ok(())
}

// That table with so many parts of no rows.
fn with_parts(alloc: Global, count: u8) -> Result<Vec<u8>, AllocError> {
    let (front, behind) = EMPTY_TABLE.split_at(PARTS_AT);
    let mut bytes = Vec::from_slice(alloc, front)?;
    put_parts(count, &mut bytes)?;
    bytes.extend_from_slice(&behind[1..])?;
    Ok(bytes)
}

fn is_written_again(alloc: Global, bytes: &[u8]) -> Result<bool, Fail> {
    let Some(tables) = image_from(alloc, bytes, 9, 1)? else {
        return Ok(false);
    };
    let out = written(alloc, tables.as_slice());
    drop(tables);
    let out = out?;
    Ok(same_bytes(&out, bytes))
}

fn parts_are_written_again(alloc: Global, count: u8) -> Result<bool, Fail> {
    let bytes = with_parts(alloc, count)?;
    is_written_again(alloc, &bytes)
}

fn parts_are_refused(alloc: Global, count: u8) -> Result<bool, AllocError> {
    let bytes = with_parts(alloc, count)?;
    let tables = image_from(alloc, &bytes, 9, 1)?;
    let is_none = tables.is_none();
    drop(tables);
    Ok(is_none)
}

#[test]
fn a_directory_is_read_and_written_again(rt: HostRuntime) -> Result<(), Fail> {
    for bytes in [DIRECTORY, EMPTY_TABLE, b"\0\0\0\0"] {
        assert!(rt; is_written_again(rt.alloc(), bytes)?);
    }
    let eight = parts_are_written_again(rt.alloc(), 8)?;
    let nine = parts_are_refused(rt.alloc(), 9)?;
    assert!(rt; eight && nine);
    Ok(())
}
