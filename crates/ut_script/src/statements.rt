//! The statements of sessions and of the store.
ghost use Rattle.std.specs.Prelude.{◌≡◌};
ghost use Rattle.ut_script.specs.Words.{words_of};
ghost use Rattle.ut_script.specs.Statements.{Reads, ReadsStatement, alone, transaction_verb, table_statement_of, session_statement_of};

use crate::queries::query_of;
use crate::rows::{Stage, create_of, delete_of, rows_of, update_of};
use crate::words::next_word;
use std::alloc::{AllocError, Global};
use ut_plain::Statement;
use ut_value::same_bytes;

/// The statements of sessions 1 to 16.
pub(crate) fn session_statement_of(
    alloc: Global,
    line: &[u8],
) -> Result<Option<Statement>, AllocError>
    ensures { ReadsStatement result (session_statement_of (words_of line.now)) }
{
    let Some((verb, rest)) = next_word(line) else {
        return Ok(None);
    };
    match transaction_verb(verb) {
        Some(st) => Ok(alone(st, rest)),
        None => table_statement_of(alloc, verb, rest),
    }
}

fn transaction_verb(verb: &[u8]) -> Option<Statement>
    ensures { result ≡ transaction_verb verb.now }
{
    if same_bytes(verb, b"begin") {
        Some(Statement::Begin)
    } else if same_bytes(verb, b"commit") {
        Some(Statement::Commit)
    } else if same_bytes(verb, b"abort") {
        Some(Statement::Abort)
    } else {
        None
    }
}

fn table_statement_of(
    alloc: Global,
    verb: &[u8],
    line: &[u8],
) -> Result<Option<Statement>, AllocError>
    ensures { Reads result (table_statement_of verb.now (words_of line.now)) }
{
    if same_bytes(verb, b"insert") {
        rows_of(alloc, Stage::L1, line)
    } else if same_bytes(verb, b"bulk") {
        rows_of(alloc, Stage::L2, line)
    } else if same_bytes(verb, b"update") {
        update_of(alloc, line)
    } else if same_bytes(verb, b"delete") {
        delete_of(alloc, line)
    } else if same_bytes(verb, b"create") {
        create_of(alloc, line)
    } else {
        query_of(alloc, verb, line)
    }
}

/// A statement that no word follows.
pub(crate) fn alone(st: Statement, line: &[u8]) -> Option<Statement>
    ensures { result ≡ alone st (words_of line.now) }
{
    match next_word(line) {
        None => Some(st),
        Some(_) => None,
    }
}
