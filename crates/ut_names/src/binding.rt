//! Statements are bound: their names are looked up once, and their values moved.
ghost use Rattle.std.specs.Prelude.{◌≡◌, true, [], IsErrOf, IsTrue, IfOk, IfErr};
ghost use Rattle.ut_value.specs.Text.{is_name};
ghost use Rattle.ut_plain.specs.declared.statement.Statement.TheVariants as statements;
ghost use Rattle.ut_plain.specs.Names.{has_table, names_known, query_known};
ghost use Rattle.ut_plain.specs.Kinds.{kinds_fit, query_fits};
ghost use Rattle.ut_plain.specs.Tables.{place_of};
ghost use Rattle.ut_names.specs.Resolved.{AreNarrow, Hinders, rows_known, rows_fit, target_known, target_fits};
ghost use Rattle.ut_names.specs.Binding.{Binds, IsPlainlyBound};

use crate::asking::question;
use crate::bound::{Bound, Piece, Task};
use crate::places::table_at;
use crate::selecting::{selection, target};
use std::alloc::Global;
use ut_plain::{
    Pred, Query, Refusal, Statement, Table, bulk_fits, fits_columns, has_table, names_differ,
    place_of,
};
use ut_value::{Column, MergeKind, Name, Seq, Value};

/// The statement with its names bound and its values moved; or why it is refused: a name isn't there, else a value isn't of its
/// column's kind, else memory ran out.
pub fn bind(alloc: Global, tables: &[Table], st: Statement) -> Result<Bound, Refusal>
    requires narrow { AreNarrow tables.now }
    ensures ok { IfOk result (Binds tables.now st) }
    ensures err { IfErr result (Hinders (names_known tables.now st) (kinds_fit tables.now st)) }
    // What compares nothing and shows no named columns takes no memory.
    ensures room { IsPlainlyBound st → IsErrOf result Refusal.Memory → ⊥ }
{
    match st {
        Statement::Create { table, columns } => bind_create(tables, table, columns),
        Statement::Insert { table, values } => bind_insert(tables, &table, values),
        Statement::Bulk { table, values } => bind_bulk(tables, &table, values),
        Statement::Ask(query) => bind_query(alloc, tables, &query),
        Statement::Update {
            table,
            column,
            value,
            preds,
        } => bind_update(alloc, tables, &table, &column, value, &preds),
        Statement::Delete { table, preds } => bind_delete(alloc, tables, &table, &preds),
        Statement::Begin => Ok(Bound::Task(Task::Begin)),
        Statement::Commit => Ok(Bound::Task(Task::Commit)),
        Statement::Abort => Ok(Bound::Task(Task::Abort)),
        Statement::MergeL1 { table, n } => bind_merge_l1(tables, &table, n),
        Statement::MergeBegin { table, kind } => bind_merge(tables, &table, kind),
        Statement::MergeEnd => Ok(Bound::MergeEnd),
        Statement::SaveBegin => Ok(Bound::Save(Piece::Begin)),
        Statement::SaveStep { n } => Ok(Bound::Save(Piece::Step { n })),
        Statement::SaveSeal => Ok(Bound::Save(Piece::Seal)),
        Statement::SaveFlip => Ok(Bound::Save(Piece::Flip)),
        Statement::SaveDrop => Ok(Bound::Save(Piece::GiveUp)),
        Statement::Shape { table } => bind_shape(tables, &table),
    }
}

/// The place of the table of a name, in order of creation.
pub fn table_place(tables: &[Table], name: &Name) -> Option<usize>
    ensures place { result ≡ place_of tables.now name.now }
    // A name is one.
    ensures rule { IsTrue (is_name name.now) }
{
    place_of(tables, name.as_slice())
}

fn bind_create(tables: &[Table], name: Name, columns: Seq<Column>) -> Result<Bound, Refusal>
    ensures ok { IfOk result (Binds tables.now (statements.Create name columns)) }
    ensures err { IfErr result (Hinders (names_known tables.now (statements.Create name columns)) true) }
    ensures room { IsErrOf result Refusal.Memory → ⊥ }
{
    if has_table(tables, name.as_slice()) || !names_differ(columns.as_slice()) {
        return Err(Refusal::Name);
    }
    Ok(Bound::Task(Task::Create(Table { name, columns })))
}

fn bind_insert(tables: &[Table], name: &Name, values: Seq<Value>) -> Result<Bound, Refusal>
    requires { AreNarrow tables.now }
    ensures ok { IfOk result (Binds tables.now (statements.Insert name.now values)) }
    ensures err { IfErr result (Hinders (has_table tables.now name.now) (kinds_fit tables.now (statements.Insert name.now values))) }
    ensures room { IsErrOf result Refusal.Memory → ⊥ }
{
    let Some(table) = table_at(tables, name.as_slice()) else {
        return Err(Refusal::Name);
    };
    if !fits_columns(table.columns, values.as_slice()) {
        return Err(Refusal::Kind);
    }
    Ok(Bound::Task(Task::Insert {
        table: table.place,
        values,
    }))
}

fn bind_bulk(tables: &[Table], name: &Name, values: Seq<Value>) -> Result<Bound, Refusal>
    requires { AreNarrow tables.now }
    ensures ok { IfOk result (Binds tables.now (statements.Bulk name.now values)) }
    ensures err { IfErr result (Hinders (has_table tables.now name.now) (kinds_fit tables.now (statements.Bulk name.now values))) }
    ensures room { IsErrOf result Refusal.Memory → ⊥ }
{
    let Some(table) = table_at(tables, name.as_slice()) else {
        return Err(Refusal::Name);
    };
    if !bulk_fits(table.columns, values.as_slice()) {
        return Err(Refusal::Kind);
    }
    Ok(Bound::Task(Task::Load {
        table: table.place,
        width: table.columns.len(),
        values,
    }))
}

fn bind_query(alloc: Global, tables: &[Table], query: &Query) -> Result<Bound, Refusal>
    requires { AreNarrow tables.now }
    ensures ok { IfOk result (Binds tables.now (statements.Ask query.now)) }
    ensures err { IfErr result (Hinders (query_known tables.now query.now) (query_fits tables.now query.now)) }
    ensures room { IsPlainlyBound (statements.Ask query.now) → IsErrOf result Refusal.Memory → ⊥ }
{
    let question = question(alloc, tables, query)?;
    Ok(Bound::Task(Task::Ask(question)))
}

fn bind_update(
    alloc: Global,
    tables: &[Table],
    name: &Name,
    column: &Name,
    value: Value,
    preds: &Seq<Pred>,
) -> Result<Bound, Refusal>
    requires { AreNarrow tables.now }
    ensures ok { IfOk result (Binds tables.now (statements.Update name.now column.now value preds.now)) }
    ensures err { IfErr result (Hinders (target_known tables.now name.now column.now preds.now)
        (target_fits tables.now name.now column.now value preds.now)) }
    ensures room { preds.now ≡ [] → IsErrOf result Refusal.Memory → ⊥ }
{
    let target = target(
        alloc,
        tables,
        name.as_slice(),
        column.as_slice(),
        &value,
        preds.as_slice(),
    );
    match target {
        Ok(target) => Ok(Bound::Task(Task::Update { target, value })),
        Err(why) => Err(why),
    }
}

fn bind_delete(
    alloc: Global,
    tables: &[Table],
    name: &Name,
    preds: &Seq<Pred>,
) -> Result<Bound, Refusal>
    requires { AreNarrow tables.now }
    ensures ok { IfOk result (Binds tables.now (statements.Delete name.now preds.now)) }
    ensures err { IfErr result (Hinders (rows_known tables.now name.now preds.now) (rows_fit tables.now name.now preds.now)) }
    ensures room { preds.now ≡ [] → IsErrOf result Refusal.Memory → ⊥ }
{
    match selection(alloc, tables, name.as_slice(), preds.as_slice()) {
        Ok(rows) => Ok(Bound::Task(Task::Delete(rows))),
        Err(why) => Err(why),
    }
}

fn bind_merge_l1(tables: &[Table], name: &Name, n: u32) -> Result<Bound, Refusal>
    ensures ok { IfOk result (Binds tables.now (statements.MergeL1 name.now n)) }
    ensures err { IfErr result (Hinders (has_table tables.now name.now) true) }
    ensures room { IsErrOf result Refusal.Memory → ⊥ }
{
    match table_place(tables, name) {
        Some(table) => Ok(Bound::Task(Task::MergeL1 { table, n })),
        None => Err(Refusal::Name),
    }
}

fn bind_merge(tables: &[Table], name: &Name, kind: MergeKind) -> Result<Bound, Refusal>
    ensures ok { IfOk result (Binds tables.now (statements.MergeBegin name.now kind)) }
    ensures err { IfErr result (Hinders (has_table tables.now name.now) true) }
    ensures room { IsErrOf result Refusal.Memory → ⊥ }
{
    match table_place(tables, name) {
        Some(table) => Ok(Bound::Task(Task::MergeBegin { table, kind })),
        None => Err(Refusal::Name),
    }
}

fn bind_shape(tables: &[Table], name: &Name) -> Result<Bound, Refusal>
    ensures ok { IfOk result (Binds tables.now (statements.Shape name.now)) }
    ensures err { IfErr result (Hinders (has_table tables.now name.now) true) }
    ensures room { IsErrOf result Refusal.Memory → ⊥ }
{
    match table_place(tables, name) {
        Some(table) => Ok(Bound::Task(Task::Shape { table })),
        None => Err(Refusal::Name),
    }
}
