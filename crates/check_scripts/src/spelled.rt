//! Which statements a line can spell. Names and values keep their rules by themselves: only numbers can be wrong.
ghost use Rattle.std.specs.Prelude.{◌≡◌, ◌&&◌, nat_le, length};
ghost use Rattle.std.specs.List.{list_all};
ghost use Rattle.ut_value.specs.KeyBytes.{is_value};
ghost use Rattle.ut_value.specs.Spelling.{is_count, is_column};
ghost use Rattle.ut_value.specs.Text.{is_name};
ghost use Rattle.ut_plain.specs.Spelled.{are_some_values, are_preds, are_names, is_query, is_spelled};

use ut_plain::{Pred, Query, Statement};
use ut_value::{COLUMNS_LIMIT, COUNT_LIMIT, Column, Name, Seq, Value, value_keeps_rule};

/// The most columns of a table.
const MAX_COLUMNS: usize = COLUMNS_LIMIT as usize;

/// Whether a line can spell a statement.
pub(crate) fn is_spelled(st: &Statement) -> bool
    ensures { result ≡ is_spelled st.now }
{
    match st {
        Statement::Create { table, columns } => is_table(table, columns.as_slice()),
        Statement::Insert { table, values } => is_row(table, values.as_slice()),
        Statement::Bulk { table, values } => is_row(table, values.as_slice()),
        Statement::Ask(query) => is_query(query),
        Statement::Update {
            table,
            column,
            value,
            preds,
        } => is_update(table, column, value, preds.as_slice()),
        Statement::Delete { table, preds } => are_hits(table, preds.as_slice()),
        Statement::MergeL1 { table, n } => is_name(table) && is_count(*n),
        Statement::MergeBegin { table, .. } => is_name(table),
        Statement::SaveStep { n } => is_count(*n),
        Statement::Shape { table } => is_name(table),
        _ => true,
    }
}

fn is_name(name: &Name) -> bool
    ensures { result ≡ is_name name.now }
{
    let _bytes = name.as_slice();
    true
}

fn is_count(n: u32) -> bool
    ensures { result ≡ is_count 1048576 n }
{
    1 <= n && n <= COUNT_LIMIT
}

fn is_value(value: &Value) -> bool
    ensures { result ≡ is_value value.now }
{
    value_keeps_rule(value);
    true
}

fn is_table(table: &Name, columns: &[Column]) -> bool
    ensures { result ≡ (is_name table.now && is_count 64 (length columns.now) && list_all is_column columns.now) }
{
    let names = are_columns(columns);
    let count = is_width(columns.len());
    is_name(table) && count && names
}

fn is_width(n: usize) -> bool
    ensures { result ≡ is_count 64 n }
{
    1 <= n && n <= MAX_COLUMNS
}

fn are_columns(columns: &[Column]) -> bool
    ensures { result ≡ list_all is_column columns.now }
{
    columns.iter().all(|column| is_name(&column.name))
}

fn is_row(table: &Name, values: &[Value]) -> bool
    ensures { result ≡ (is_name table.now && are_some_values values.now) }
{
    is_name(table) && are_some_values(values)
}

fn are_some_values(values: &[Value]) -> bool
    ensures { result ≡ are_some_values values.now }
{
    let all = are_values(values);
    1 <= values.len() && all
}

fn are_values(values: &[Value]) -> bool
    ensures { result ≡ list_all is_value values.now }
{
    values.iter().all(|value| is_value(value))
}

fn is_pred(pred: &Pred) -> bool
    ensures { result ≡ (is_name pred.now.column && is_value pred.now.value) }
{
    is_name(&pred.column) && is_value(&pred.value)
}

fn are_preds(preds: &[Pred]) -> bool
    ensures { result ≡ are_preds preds.now }
{
    preds.iter().all(|pred| is_pred(pred))
}

fn are_hits(table: &Name, preds: &[Pred]) -> bool
    ensures { result ≡ (is_name table.now && are_preds preds.now) }
{
    is_name(table) && are_preds(preds)
}

fn is_update(table: &Name, column: &Name, value: &Value, preds: &[Pred]) -> bool
    ensures { result ≡ (is_name table.now && is_name column.now && is_value value.now && are_preds preds.now) }
{
    is_name(table) && is_name(column) && is_value(value) && are_preds(preds)
}

fn are_names(names: &Option<Seq<Name>>) -> bool
    ensures { result ≡ are_names names.now }
{
    match names {
        None => true,
        Some(names) => are_some_names(names.as_slice()),
    }
}

fn are_some_names(names: &[Name]) -> bool
    ensures { result ≡ (nat_le 1 (length names.now) && list_all is_name names.now) }
{
    let all = all_names(names);
    1 <= names.len() && all
}

fn all_names(names: &[Name]) -> bool
    ensures { result ≡ list_all is_name names.now }
{
    names.iter().all(|name| is_name(name))
}

fn is_query(query: &Query) -> bool
    ensures { result ≡ is_query query.now }
{
    match query {
        Query::Select {
            table,
            columns,
            preds,
        } => is_name(table) && are_names(columns) && are_preds(preds.as_slice()),
        Query::Count { table, preds } => is_name(table) && are_preds(preds.as_slice()),
        Query::Sum {
            table,
            column,
            preds,
        } => is_name(table) && is_name(column) && are_preds(preds.as_slice()),
        Query::Min {
            table,
            column,
            preds,
        } => is_name(table) && is_name(column) && are_preds(preds.as_slice()),
        Query::Max {
            table,
            column,
            preds,
        } => is_name(table) && is_name(column) && are_preds(preds.as_slice()),
        Query::Group {
            table,
            key,
            sum,
            preds,
        } => is_name(table) && is_name(key) && is_name(sum) && are_preds(preds.as_slice()),
        Query::Join {
            left,
            left_column,
            right,
            right_column,
        } => { is_name(left) && is_name(left_column) && is_name(right) && is_name(right_column) }
    }
}
