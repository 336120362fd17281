//! What a line of the script says.
ghost use Rattle.std.specs.Prelude.{◌≡◌, IfOk, IfErr};
ghost use Rattle.ut_script.specs.Words.{words_of};
ghost use Rattle.ut_script.specs.Statements.{ReadsStatement};
ghost use Rattle.ut_script.specs.Grammar.{MayLackMemory, line_of, parsed, session_of, statement_of};

use crate::literals::{number_of, within};
use crate::statements::session_statement_of;
use crate::store::store_statement_of;
use crate::words::next_word;
use std::alloc::{AllocError, Global};
use thiserror::Error;
use ut_plain::{Parsed, Statement};
use ut_value::LAST_SESSION;

/// The sign of a comment, where a line begins with it.
const COMMENT: u8 = b'#';

/// The greatest number of a session.
const MAX_SESSION: u64 = LAST_SESSION as u64;

/// No memory was there for a good line of this session.
#[derive(Debug, Drop, Error)]
#[error("no memory for a line of session {session}")]
pub struct LineMemory {
    pub session: u8,
}

/// What a line says. In a crowd no line is of session 0.
pub fn parse_line(alloc: Global, line: &[u8], crowd: bool) -> Result<Parsed, LineMemory>
    ensures says { IfOk result (λ p. p ≡ parsed crowd line.now) }
    ensures memory { IfErr result (λ e. MayLackMemory e.session (parsed crowd line.now)) }
{
    match line {
        [] => Ok(Parsed::Comment),
        [first, ..] => {
            if *first == COMMENT {
                Ok(Parsed::Comment)
            } else {
                line_of(alloc, line, crowd)
            }
        }
    }
}

fn line_of(alloc: Global, line: &[u8], crowd: bool) -> Result<Parsed, LineMemory>
    ensures says { IfOk result (λ p. p ≡ line_of crowd (words_of line.now)) }
    ensures memory { IfErr result (λ e. MayLackMemory e.session (line_of crowd (words_of line.now))) }
{
    let Some((word, rest)) = next_word(line) else {
        return Ok(Parsed::Stranger);
    };
    let Some(session) = session_of(word, crowd) else {
        return Ok(Parsed::Stranger);
    };
    match statement_of(alloc, session, rest) {
        Ok(None) => Ok(Parsed::Bad(session)),
        Ok(Some(st)) => Ok(Parsed::Good(session, st)),
        Err(AllocError) => Err(LineMemory { session }),
    }
}

// The session that a line begins with.
fn session_of(word: &[u8], crowd: bool) -> Option<u8>
    ensures { result ≡ session_of crowd word.now }
{
    let least = if crowd { 1 } else { 0 };
    match within(least, MAX_SESSION, number_of(word)) {
        None => None,
        Some(n) => Some(n as u8),
    }
}

fn statement_of(alloc: Global, session: u8, line: &[u8]) -> Result<Option<Statement>, AllocError>
    ensures { ReadsStatement result (statement_of session (words_of line.now)) }
{
    if session == 0 {
        store_statement_of(alloc, line)
    } else {
        session_statement_of(alloc, line)
    }
}
