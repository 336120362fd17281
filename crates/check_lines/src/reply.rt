//! A reply's text behind what is there, and the same rows as lists and by columns.
use std::alloc::{AllocError, Global};
use std::process::Abort;
use ut_plain::{Refusal, Reply};
use ut_reply::{put_reply, put_small};
use ut_rows::{Cells, Rows};
use ut_value::{Seq, Text, Value, is_text, same_bytes};

fn refused(alloc: Global) -> Result<Vec<u8>, AllocError> {
    let mut out = Vec::with_capacity(alloc, 96)?;
    let reply = Reply::Refused(Refusal::Syntax);
    put_small(&mut out, None, &reply);
    drop(reply);
    Ok(out)
}

fn put_changed(out: &mut Vec<u8>) -> Result<(), AllocError> {
    let changed = Reply::Changed {
        rows: 2,
        commit: Some(7),
    };
    let put = put_reply(out, Some(3), &changed);
    drop(changed);
    put
}

#[test]
fn replies_stand_one_behind_the_other(rt: HostRuntime) -> Result<(), AllocError> {
    let mut out = refused(rt.alloc())?;
    put_changed(&mut out)?;
    assert!(rt; same_bytes(&out, b"? refused syntax\n3 ok 2 commit 7\n"));
    Ok(())
}

fn text(rt: &impl Abort, alloc: Global, bytes: &[u8]) -> Result<Value, AllocError> {
    assert!(rt; is_text(bytes));
    Ok(Value::Text(Text::from_slice(alloc, bytes)?))
}

// So many values, a text and then numbers.
fn values(rt: &impl Abort, alloc: Global, count: u32) -> Result<Vec<Value>, AllocError> {
    let first = text(rt, alloc, b"it's")?;
    let mut values = Vec::new(alloc);
    values.push(first)?;
    for number in 1..count {
        values.push(Value::Int(i64::from(number)))?;
    }
    Ok(values)
}

// A column of so many values, which the rows have by turns.
fn by_turns(rt: &impl Abort, alloc: Global, rows: u32, distinct: u32) -> Result<Cells, AllocError> {
    assert!(rt; distinct > 0);
    let values = values(rt, alloc, distinct)?;
    assert!(rt; values.len() == distinct as usize);
    let mut places = Vec::new(alloc);
    for row in 0..rows {
        places.push(row % distinct)?;
    }
    Ok(Cells::of(values, places))
}

fn by_columns(
    rt: &impl Abort,
    alloc: Global,
    rows: u32,
    first: Cells,
    second: Cells,
) -> Result<Rows, AllocError> {
    assert!(rt; first.len() == rows as usize && second.len() == rows as usize);
    let columns = vec![in alloc; first, second]?;
    Ok(Rows::of_columns(rows as usize, columns))
}

// Rows of two values: one of a few, and one that no other row has.
fn rows_by_turns(
    rt: &impl Abort,
    alloc: Global,
    rows: u32,
    distinct: u32,
) -> Result<Rows, AllocError> {
    let first = by_turns(rt, alloc, rows, distinct)?;
    let second = by_turns(rt, alloc, rows, rows)?;
    by_columns(rt, alloc, rows, first, second)
}

fn add_shown(alloc: Global, text: &mut String, place: u32) -> Result<(), AllocError> {
    match place {
        0 => text.push_str("'it''s'"),
        number => text.push_str(&format!(in alloc; "{number}")?),
    }
}

fn add_row(alloc: Global, text: &mut String, first: u32, second: u32) -> Result<(), AllocError> {
    text.push('\n')?;
    add_shown(alloc, text, first)?;
    text.push(' ')?;
    add_shown(alloc, text, second)
}

// The text of the reply of those rows.
fn wanted(rt: &impl Abort, alloc: Global, rows: u32, distinct: u32) -> Result<String, AllocError> {
    assert!(rt; distinct > 0);
    let mut text = format!(in alloc; "7 rows {rows}")?;
    for row in 0..rows {
        add_row(alloc, &mut text, row % distinct, row)?;
    }
    text.push('\n')?;
    Ok(text)
}

fn put(alloc: Global, reply: &Reply) -> Result<Vec<u8>, AllocError> {
    let mut out = Vec::new(alloc);
    put_reply(&mut out, Some(7), reply)?;
    Ok(out)
}

fn put_all(alloc: Global, rows: Rows) -> Result<Vec<u8>, AllocError> {
    let reply = Reply::Rows(rows);
    let out = put(alloc, &reply);
    drop(reply);
    out
}

fn put_rows(
    rt: &impl Abort,
    alloc: Global,
    rows: u32,
    distinct: u32,
) -> Result<Vec<u8>, AllocError> {
    let rows = rows_by_turns(rt, alloc, rows, distinct)?;
    put_all(alloc, rows)
}

fn are_put(rt: &impl Abort, alloc: Global, rows: u32, distinct: u32) -> Result<(), AllocError> {
    let out = put_rows(rt, alloc, rows, distinct)?;
    let text = wanted(rt, alloc, rows, distinct)?;
    assert!(rt; same_bytes(&out, text.as_bytes()), "{rows}, {distinct}");
    Ok(())
}

/// Of how many rows, with how many values in the first column: few rows, and many of which each
/// value has four or not.
const SHARED: [(u32, u32); 4] = [(63, 1), (64, 16), (64, 17), (300, 2)];

#[test]
fn rows_that_share_values_are_put_as_others(rt: HostRuntime) -> Result<(), AllocError> {
    for (rows, distinct) in SHARED {
        are_put(&rt, rt.alloc(), rows, distinct)?;
    }
    Ok(())
}

fn put_lines(alloc: Global) -> Result<Vec<u8>, AllocError> {
    put_all(alloc, Rows::of_columns(64, Vec::new(alloc)))
}

#[test]
fn rows_without_columns_are_lines(rt: HostRuntime) -> Result<(), AllocError> {
    let out = put_lines(rt.alloc())?;
    assert!(rt; out.len() == 9 + 64 + 1 && same_bytes(&out[..11], b"7 rows 64\n\n"));
    Ok(())
}

fn numbers(alloc: Global, numbers: &[i64]) -> Result<Vec<Value>, AllocError> {
    let mut values = Vec::new(alloc);
    for number in numbers {
        values.push(Value::Int(*number))?;
    }
    Ok(values)
}

// A column whose first and third row have the value 8, and the second 7.
fn column(rt: &impl Abort, alloc: Global) -> Result<Cells, AllocError> {
    let values = numbers(alloc, &[7, 8])?;
    assert!(rt; values.len() == 2);
    let places = Vec::from_slice(alloc, &[1, 0, 1])?;
    Ok(Cells::of(values, places))
}

// The rows of that column alone.
fn by_column(rt: &impl Abort, alloc: Global) -> Result<Rows, AllocError> {
    let only = column(rt, alloc)?;
    assert!(rt; only.len() == 3);
    let mut columns = Vec::new(alloc);
    columns.push(only)?;
    Ok(Rows::of_columns(3, columns))
}

fn by_lists(alloc: Global, all: &[&[i64]]) -> Result<Rows, AllocError> {
    let mut lists = Seq::new(alloc);
    for list in all {
        lists.push(Seq::from_vec(numbers(alloc, list)?))?;
    }
    Ok(Rows::of_lists(lists))
}

fn int_of(rt: &impl Abort, value: &Value) -> i64 {
    match value {
        Value::Int(number) => *number,
        Value::Text(_) => panic!(rt; "a text"),
    }
}

fn number(rt: &impl Abort, rows: &Rows, row: usize, column: usize) -> i64 {
    assert!(rt; row < rows.len() && column < rows.width(row));
    int_of(rt, rows.value(row, column))
}

fn are_lists(rt: &impl Abort, rows: &Rows) {
    assert!(rt; rows.len() == 2);
    assert!(rt; number(rt, rows, 0, 1) == 6 && number(rt, rows, 1, 0) == 9);
}

fn are_by_column(rt: &impl Abort, rows: &Rows) {
    assert!(rt; rows.len() == 3 && number(rt, rows, 0, 0) == 8);
    assert!(rt; number(rt, rows, 1, 0) == 7 && number(rt, rows, 2, 0) == 8);
}

#[test]
fn rows_are_lists_or_stand_by_columns(rt: HostRuntime) -> Result<(), AllocError> {
    let lists = by_lists(rt.alloc(), &[&[5, 6], &[9]])?;
    are_lists(&rt, &lists);
    drop(lists);
    let column = by_column(&rt, rt.alloc())?;
    are_by_column(&rt, &column);
    drop(column);
    Ok(())
}

fn are_numbers(rt: &impl Abort, values: &[Value], numbers: &[i64]) {
    assert!(rt; values.len() == numbers.len());
    for at in 0..values.len() {
        assert!(rt; int_of(rt, &values[at]) == numbers[at], "at {at}");
    }
}

// The values of a column, and where each row's stands among them.
fn shares(rt: &impl Abort, cells: &Cells, numbers: &[i64], places: &[u32]) {
    let (values, at) = cells.shared();
    are_numbers(rt, values, numbers);
    assert!(rt; at == places);
}

fn lists_have_no_columns(rt: &impl Abort, alloc: Global) {
    let lists = Rows::of_lists(Seq::new(alloc));
    assert!(rt; lists.columns().is_none());
    drop(lists);
}

fn no_rows_have_no_columns(rt: &impl Abort, alloc: Global) {
    let none = Rows::of_columns(0, Vec::new(alloc));
    assert!(rt; matches!(none.columns(), Some([])));
    drop(none);
}

fn have_one_column(rt: &impl Abort, rows: &Rows) {
    match rows.columns() {
        Some([only]) => shares(rt, only, &[7, 8], &[1, 0, 1]),
        _ => panic!(rt; "not one column"),
    }
}

fn without_rows(alloc: Global) -> Result<Cells, AllocError> {
    let values = numbers(alloc, &[9])?;
    Ok(Cells::of(values, Vec::new(alloc)))
}

#[test]
fn columns_hand_out_what_rows_share(rt: HostRuntime) -> Result<(), AllocError> {
    let alloc = rt.alloc();
    lists_have_no_columns(&rt, alloc);
    no_rows_have_no_columns(&rt, alloc);
    let rows = by_column(&rt, alloc)?;
    have_one_column(&rt, &rows);
    drop(rows);
    let cells = without_rows(alloc)?;
    shares(&rt, &cells, &[9], &[]);
    drop(cells);
    Ok(())
}
