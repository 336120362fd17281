//! The lines of a source, read by blocks.
ghost use Rattle.std.specs.Prelude.{◌≡◌, ◌≢◌, ◌<◌, ◌≤◌, ◌+◌, ◌++◌, [], None, true, false, if◌then◌else◌, IfOk, OnOk, IsErrOf, length, vec_len, vec_capacity, Ok};
ghost use Rattle.ut_outside.specs.Faults.{HasCause, Rose};
ghost use Rattle.ut_script.specs.Lines.{Reading, NextLine, StepsLine, AsksFew, Counts, StaysFailed, MayFail, counted};
ghost use Rattle.ut_script.specs.Words.{has_bytes};
ghost use Rattle.ut_script.specs.LineSteps.{IsLineEnd, SameCounts, CountsLine, TakesPiece, Fills};

use crate::line_bytes::{LineBytes, MAX_LINE};
use memchr::memchr;
use std::alloc::{AllocError, Global};
use std::marker::Model;
use thiserror::Error;
use ut_outside::{Source, Taken};

/// The bytes that are read ahead.
const BLOCK_LEN: usize = 65536;

const FEED: u8 = b'\n';

/// Why there is no next line.
#[derive(Clone, Copy, Debug, PartialEq, Eq, Error)]
pub enum LineError {
    /// The source failed.
    #[error("the source failed")]
    Read,
    /// The line has more than 65,536 bytes, or is one too many.
    #[error("a line is too long, or one too many")]
    TooLong,
}

/// A reader of the lines of a source, of so many lines at most. It takes memory when it is made, and none later.
#[derive(Drop)]
pub struct Lines {
    line: LineBytes,
    block: Vec<u8>,
    at: usize,
    filled: usize,
    number: u32,
    limit: u32,
    failed: Option<LineError>,
}

impl Model for Lines {
    ghost use Rattle.std.specs.Prelude.{◌≤◌, take, drop, length, vec_len};
    ghost use Rattle.ut_script.specs.Lines.{Reading};

    ghost Value = { Reading };

    ghost view = { λ l. record { held = drop l.at (take l.filled l.block.items); line = l.line; number = l.number; limit = l.limit; failed = l.failed } };

    ghost invariant = { λ l. (l.at ≤ l.filled) × (l.filled ≤ vec_len l.block) × (65536 ≤ vec_len l.block) × (length l.line ≤ 65536) × (l.number ≤ l.limit) };
}

impl Lines {
    /// A reader of at most so many lines.
    pub fn new(alloc: Global, limit: u32) -> Result<Lines, AllocError>
        ensures { IfOk result (λ lines. lines ≡ record { held = []; line = []; number = 0; limit = limit; failed = None }) }
    {
        let line = LineBytes::new(alloc)?;
        let block = vec![in alloc; 0; BLOCK_LEN]?;
        Ok(Lines {
            line,
            block,
            at: 0,
            filled: 0,
            number: 0,
            limit,
            failed: None,
        })
    }

    /// The line that `advance` handed out last.
    pub fn line(&self) -> &[u8]
        ensures { result.now ≡ self.now.line }
    {
        self.line.as_slice()
    }

    /// Reads the next line, and says whether there is one. After an error each call answers that error. The source, which sees what the
    /// sink took so far, is asked for more only while no whole line is held.
    pub fn advance<S: Source<K>, K: Taken>(
        &mut self,
        source: &mut S,
        sink: &K,
    ) -> Result<bool, LineError>
        ensures next { self.old.failed ≡ None → NextLine self.old (S.left source.old) result self.new (S.left source.new) }
        ensures steps { self.old.failed ≡ None → OnOk result (StepsLine self.old (S.left source.old) self.new (S.left source.new)) }
        ensures asks { AsksFew self.old (S.left source.old) (K.held sink.now) (S.asks source.old) (S.asks source.new) }
        ensures counts { self.old.failed ≡ None → Counts self.old result self.new }
        ensures again { StaysFailed self.old.failed self.old result self.new }
        ensures cause { MayFail self.old (S.faults source.old) (S.faults source.new) result }
    {
        if let Some(error) = self.failed {
            return Err(error);
        }
        match self.next_line(source, sink) {
            Ok(more) => Ok(more),
            Err(error) => {
                self.failed = Some(error);
                Err(error)
            }
        }
    }

    fn next_line<S: Source<K>, K: Taken>(
        &mut self,
        source: &mut S,
        sink: &K,
    ) -> Result<bool, LineError>
        requires { self.old.failed ≡ None }
        ensures next { NextLine self.old (S.left source.old) result self.new (S.left source.new) }
        ensures steps { OnOk result (StepsLine self.old (S.left source.old) self.new (S.left source.new)) }
        ensures asks { AsksFew self.old (S.left source.old) (K.held sink.now) (S.asks source.old) (S.asks source.new) }
        ensures counts { CountsLine self.old result self.new }
        ensures cause { MayFail self.old (S.faults source.old) (S.faults source.new) result }
    {
        if self.number == self.limit {
            self.next_past_limit(source, sink)
        } else {
            self.read_line(source, sink)
        }
    }

    // Where no more lines may be handed out, one more is an error.
    fn next_past_limit<S: Source<K>, K: Taken>(
        &mut self,
        source: &mut S,
        sink: &K,
    ) -> Result<bool, LineError>
        requires { self.old.number ≡ self.old.limit }
        ensures next { NextLine self.old (S.left source.old) result self.new (S.left source.new) }
        ensures steps { OnOk result (StepsLine self.old (S.left source.old) self.new (S.left source.new)) }
        ensures asks { AsksFew self.old (S.left source.old) (K.held sink.now) (S.asks source.old) (S.asks source.new) }
        ensures counts { CountsLine self.old result self.new }
        ensures cause { MayFail self.old (S.faults source.old) (S.faults source.new) result }
    {
        if self.fill(source, sink)? {
            Err(LineError::TooLong)
        } else {
            Ok(false)
        }
    }

    fn read_line<S: Source<K>, K: Taken>(
        &mut self,
        source: &mut S,
        sink: &K,
    ) -> Result<bool, LineError>
        requires { self.old.number < self.old.limit }
        ensures next { NextLine self.old (S.left source.old) result self.new (S.left source.new) }
        ensures steps { OnOk result (StepsLine self.old (S.left source.old) self.new (S.left source.new)) }
        ensures asks { AsksFew self.old (S.left source.old) (K.held sink.now) (S.asks source.old) (S.asks source.new) }
        ensures counts { CountsLine self.old result self.new }
        ensures cause { MayFail self.old (S.faults source.old) (S.faults source.new) result }
    {
        self.line.clear();
        loop {
            if !self.fill(source, sink)? {
                return Ok(self.end_line());
            }
            let ended = match self.take_piece() {
                Ok(ended) => ended,
                Err(_) => return Err(LineError::TooLong),
            };
            if ended {
                self.number += 1;
                return Ok(true);
            }
        }
    }

    // The line that the end of the input ends, if it has a byte.
    fn end_line(&mut self) -> bool
        requires { self.old.number < self.old.limit }
        ensures some { result ≡ has_bytes self.old.line }
        ensures number { self.new ≡ (if result then counted self.old else self.old) }
    {
        if self.line.len() == 0 {
            return false;
        }
        self.number += 1;
        true
    }

    // Holds bytes, where the input has any more, and says whether it does.
    fn fill<S: Source<K>, K: Taken>(&mut self, source: &mut S, sink: &K) -> Result<bool, LineError>
        ensures bytes { Fills self.old (S.left source.old) result self.new (S.left source.new) }
        ensures asks { AsksFew self.old (S.left source.old) (K.held sink.now) (S.asks source.old) (S.asks source.new) }
        ensures some { result ≡ Ok true → 0 < length self.new.held }
        ensures same { SameCounts self.old self.new }
        ensures line { self.new.line ≡ self.old.line }
        ensures short { length self.new.line ≤ 65536 }
        ensures cause { MayFail self.old (S.faults source.old) (S.faults source.new) result }
        ensures read { IsErrOf result LineError.TooLong → ⊥ }
    {
        if self.at < self.filled {
            return Ok(true);
        }
        self.at = 0;
        self.filled = 0;
        match source.take(sink, &mut self.block) {
            Ok(count) => {
                self.filled = count;
                Ok(count > 0)
            }
            Err(_) => Err(LineError::Read),
        }
    }

    // Moves what is held to the line, up to a line feed, and says whether the line ended there.
    fn take_piece(&mut self) -> Result<bool, LineError>
        ensures piece { TakesPiece self.old result self.new }
        ensures same { SameCounts self.old self.new }
        ensures short { length self.new.line ≤ 65536 }
    {
        let held = &self.block[self.at..self.filled];
        let room = MAX_LINE - self.line.len();
        match line_end(held) {
            Some(count) => {
                if count > room {
                    return Err(LineError::TooLong);
                }
                self.line.put(&held[..count]);
                self.at += count + 1;
                Ok(true)
            }
            None => {
                if held.len() > room {
                    return Err(LineError::TooLong);
                }
                self.line.put(held);
                self.at = self.filled;
                Ok(false)
            }
        }
    }
}

// Where the first line feed stands.
fn line_end(bytes: &[u8]) -> Option<usize>
    ensures { IsLineEnd bytes.now result }
{
    memchr(FEED, bytes)
}
