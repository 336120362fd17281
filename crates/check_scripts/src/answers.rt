//! Stores that answer lines, and the first line that two of them answer otherwise.
use crate::scripts::{LINES, StoreLines, script_line};
use crate::spelled::is_spelled;
use check_oracle::Oracle;
use std::alloc::{AllocError, Global};
use ut_plain::{Parsed, Refusal, Reply, Statement};
use ut_reply::put_reply;
use ut_script::parse_line;
use ut_value::LAST_SESSION;

/// A store that answers lines.
pub trait Answers {
    /// Puts the answer to a line at the end. A comment has none.
    fn answer(&mut self, alloc: Global, line: &[u8], out: &mut Vec<u8>) -> Result<(), AllocError>;
}

impl Answers for Oracle {
    fn answer(&mut self, alloc: Global, line: &[u8], out: &mut Vec<u8>) -> Result<(), AllocError> {
        let parsed = read(alloc, line)?;
        answer_parsed(self, alloc, &parsed, out)
    }
}

// The calls from here on promise nothing and hold one value each, so that the proofs of what calls them are short.

// What a line says.
fn read(alloc: Global, line: &[u8]) -> Result<Parsed, AllocError> {
    match parse_line(alloc, line, false) {
        Ok(parsed) => Ok(parsed),
        Err(_) => Err(AllocError),
    }
}

// Puts the answer to what a line says at the end.
fn answer_parsed(
    store: &mut Oracle,
    alloc: Global,
    parsed: &Parsed,
    out: &mut Vec<u8>,
) -> Result<(), AllocError> {
    match parsed {
        Parsed::Comment => Ok(()),
        Parsed::Stranger => refuse(out, None),
        Parsed::Bad(session) => refuse(out, Some(*session)),
        Parsed::Good(session, st) => answer_good(store, alloc, *session, st, out),
    }
}

fn refuse(out: &mut Vec<u8>, session: Option<u8>) -> Result<(), AllocError> {
    put(out, session, &Reply::Refused(Refusal::Syntax))
}

fn answer_good(
    store: &mut Oracle,
    alloc: Global,
    session: u8,
    st: &Statement,
    out: &mut Vec<u8>,
) -> Result<(), AllocError> {
    let reply = reply_to(store, alloc, session, st)?;
    put(out, Some(session), &reply)
}

// Puts the text of a reply at the end.
fn put(out: &mut Vec<u8>, session: Option<u8>, reply: &Reply) -> Result<(), AllocError> {
    put_reply(out, session, reply)
}

// The reply to a statement. A statement that no line can spell doesn't come, and would be refused.
fn reply_to(
    store: &mut Oracle,
    alloc: Global,
    session: u8,
    st: &Statement,
) -> Result<Reply, AllocError> {
    if session > LAST_SESSION || !is_spelled(st) {
        return Ok(Reply::Refused(Refusal::Syntax));
    }
    store.statement(alloc, session, st, pages_of(store))
}

// So many pages has what a savepoint captures now, where it is small: a part takes one, and so does the directory.
fn pages_of(store: &Oracle) -> u32 {
    let parts = u32::try_from(store.parts()).unwrap_or(u32::MAX);
    parts.saturating_add(1)
}

/// The first line of the script of a seed that two stores answer otherwise.
pub fn first_apart<A: Answers, B: Answers>(
    alloc: Global,
    left: &mut A,
    right: &mut B,
    lines: StoreLines,
    seed: u64,
) -> Result<Option<u32>, AllocError> {
    for number in 0..LINES {
        let mut line = Vec::new(alloc);
        script_line(lines, seed, number, &mut line)?;
        let mut one = Vec::new(alloc);
        left.answer(alloc, line.as_slice(), &mut one)?;
        let mut other = Vec::new(alloc);
        right.answer(alloc, line.as_slice(), &mut other)?;
        if one.as_slice() != other.as_slice() {
            return Ok(Some(number));
        }
    }
    Ok(None)
}
