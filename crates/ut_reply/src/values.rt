//! The texts of values, rows and groups, put where there is room for them.
ghost use Rattle.std.specs.Prelude.{◌≡◌, ◌<◌, ◌≤◌, ◌+◌, ◌*◌, ◌++◌, ◌∷◌, [], length, get_or, vec_len, vec_capacity, flat_map, sum_by, decimal};
ghost use Rattle.ut_reply.specs.Texts.{quoted, value_text, tuple_text, rows_text, group_text, groups_text, value_room, tuple_room};

use crate::columns::{add_by_columns, columns_of};
use ut_digits::{add, add_number};
use ut_plain::Group;
use ut_rows::Rows;
use ut_value::Value;

/// The sign in front of a text and behind it; inside one it is doubled.
pub const QUOTE: u8 = b'\'';

/// The number of rows, and each row on a line of its own.
pub(crate) fn add_rows(out: &mut Vec<u8>, rows: &Rows)
    requires room { vec_len out.old + (sum_by (λ t. tuple_room t + 1) rows.now + 25) ≤ vec_capacity out.old }
    ensures text { out.new.items ≡ out.old.items ++ rows_text rows.now }
    ensures len { vec_len out.new ≤ vec_len out.old + (sum_by (λ t. tuple_room t + 1) rows.now + 25) }
    ensures capacity { vec_capacity out.old ≤ vec_capacity out.new }
{
    add(out, b"rows ");
    add_number(out, rows.len());
    match columns_of(*out.allocator(), rows) {
        Some(columns) => add_by_columns(out, rows, &columns),
        None => add_tuples(out, rows),
    }
}

/// The number of groups, and each group on a line of its own.
pub(crate) fn add_groups(out: &mut Vec<u8>, groups: &[Group])
    requires room { vec_len out.old + (sum_by (λ g. value_room g.key + 42) groups.now + 27) ≤ vec_capacity out.old }
    ensures text { out.new.items ≡ out.old.items ++ groups_text groups.now }
    ensures len { vec_len out.new ≤ vec_len out.old + (sum_by (λ g. value_room g.key + 42) groups.now + 27) }
    ensures capacity { vec_capacity out.old ≤ vec_capacity out.new }
{
    add(out, b"groups ");
    add_number(out, groups.len());
    add_each_group(out, groups);
}

fn add_tuples(out: &mut Vec<u8>, rows: &Rows)
    requires room { vec_len out.old + sum_by (λ t. tuple_room t + 1) rows.now ≤ vec_capacity out.old }
    ensures text { out.new.items ≡ out.old.items ++ flat_map (λ t. 10 ∷ tuple_text t) rows.now }
    ensures len { vec_len out.new ≤ vec_len out.old + sum_by (λ t. tuple_room t + 1) rows.now }
    ensures capacity { vec_capacity out.old ≤ vec_capacity out.new }
{
    for row in 0..rows.len() {
        add(out, b"\n");
        add_tuple(out, rows, row);
    }
}

fn add_each_group(out: &mut Vec<u8>, groups: &[Group])
    requires room { vec_len out.old + sum_by (λ g. value_room g.key + 42) groups.now ≤ vec_capacity out.old }
    ensures text { out.new.items ≡ out.old.items ++ flat_map (λ g. 10 ∷ group_text g) groups.now }
    ensures len { vec_len out.new ≤ vec_len out.old + sum_by (λ g. value_room g.key + 42) groups.now }
    ensures capacity { vec_capacity out.old ≤ vec_capacity out.new }
{
    for group in groups {
        add_group(out, group);
    }
}

fn add_group(out: &mut Vec<u8>, group: &Group)
    requires room { vec_len out.old + (value_room group.now.key + 42) ≤ vec_capacity out.old }
    ensures text { out.new.items ≡ out.old.items ++ 10 ∷ group_text group.now }
    ensures len { vec_len out.new ≤ vec_len out.old + (value_room group.now.key + 42) }
    ensures capacity { vec_capacity out.old ≤ vec_capacity out.new }
{
    add(out, b"\n");
    add_value(out, &group.key);
    add(out, b" ");
    add_number(out, group.sum);
}

// The values of a row, those behind the first each behind a space.
fn add_tuple(out: &mut Vec<u8>, rows: &Rows, row: usize)
    requires within { row < length rows.now }
    requires room { vec_len out.old + tuple_room (get_or rows.now row []) ≤ vec_capacity out.old }
    ensures text { out.new.items ≡ out.old.items ++ tuple_text (get_or rows.now row []) }
    ensures len { vec_len out.new ≤ vec_len out.old + tuple_room (get_or rows.now row []) }
    ensures capacity { vec_capacity out.old ≤ vec_capacity out.new }
{
    let width = rows.width(row);
    if width == 0 {
        return;
    }
    add_value(out, rows.value(row, 0));
    for column in 1..width {
        add(out, b" ");
        add_value(out, rows.value(row, column));
    }
}

/// A number in decimal, or a text in quotes.
pub(crate) fn add_value(out: &mut Vec<u8>, value: &Value)
    requires room { vec_len out.old + value_room value.now ≤ vec_capacity out.old }
    ensures text { out.new.items ≡ out.old.items ++ value_text value.now }
    ensures len { vec_len out.new ≤ vec_len out.old + value_room value.now }
    ensures capacity { vec_capacity out.old ≤ vec_capacity out.new }
{
    match value {
        Value::Int(number) => add_number(out, *number),
        Value::Text(text) => {
            add(out, b"'");
            add_quoted(out, text.as_slice());
            add(out, b"'");
        }
    }
}

// Bytes with each quote doubled: each run that ends in a quote, and that quote once more.
fn add_quoted(out: &mut Vec<u8>, bytes: &[u8])
    requires room { vec_len out.old + 2 * length bytes.now ≤ vec_capacity out.old }
    ensures text { out.new.items ≡ out.old.items ++ quoted bytes.now }
    ensures len { vec_len out.new ≤ vec_len out.old + 2 * length bytes.now }
    ensures capacity { vec_capacity out.old ≤ vec_capacity out.new }
{
    let mut start = 0;
    for (i, b) in bytes.iter().enumerate() {
        if *b == QUOTE {
            add(out, &bytes[start..i + 1]);
            out.push_reserved(QUOTE);
            start = i + 1;
        }
    }
    add(out, &bytes[start..]);
}

/// The rows of each part.
pub(crate) fn add_parts(out: &mut Vec<u8>, parts: &[u32])
    requires room { vec_len out.old + 11 * length parts.now ≤ vec_capacity out.old }
    ensures text { out.new.items ≡ out.old.items ++ flat_map (λ n. 32 ∷ decimal n) parts.now }
    ensures len { vec_len out.new ≤ vec_len out.old + 11 * length parts.now }
    ensures capacity { vec_capacity out.old ≤ vec_capacity out.new }
{
    for rows in parts {
        add(out, b" ");
        add_number(out, *rows);
    }
}
