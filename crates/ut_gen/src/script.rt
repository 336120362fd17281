//! The lines of the script, one after the other or by number.
ghost use Rattle.std.specs.Prelude.{ℕ, ◌≡◌, ◌<◌, ◌≤◌, ◌+◌, ◌*◌, ◌++◌, IfOk, OnErr, length, vec_len, vec_capacity};
ghost use Rattle.std.specs.List.{slice_get};
ghost use Rattle.ut_gen.specs.Script.{script};
ghost use Rattle.ut_gen.specs.Draws.{advanced};
ghost use Rattle.ut_gen.specs.Lines.{PutsLine, TakesLine, IsShort, line_text, line_room, draws_of};

use crate::draws::Draws;
use crate::plan::{Line, draws_before, line_at};
use crate::rows::{add_bulk, add_insert, add_update};
use std::alloc::AllocError;
use std::marker::Model;
use ut_digits::add;

/// At most so many bytes has a bulk.
const BULK_ROOM: usize = 16_384;

/// At most so many bytes has a line that is no bulk.
const LINE_ROOM: usize = 100;

/// The lines of a script that are left. A line takes time by its length, and memory for its bytes alone.
#[derive(Drop)]
pub struct Script {
    seed: u64,
    size: u32,
    next: u32,
    draws: Draws,
}

impl Model for Script {
    ghost use Rattle.std.specs.Prelude.{ℕ, ◌≡◌, ◌≤◌, ◌+◌, ◌*◌, List, drop};
    ghost use Rattle.ut_gen.specs.Draws.{advanced};
    ghost use Rattle.ut_gen.specs.Lines.{drawn};
    ghost use Rattle.ut_gen.specs.Script.{script};

    ghost Value = { List (List ℕ) };

    ghost view = { λ s. drop s.next (script s.seed s.size) };

    ghost invariant = { λ s. (s.size ≤ 500) × (s.next ≤ 24 * s.size + 26) × (s.draws.state ≡ advanced s.seed (drawn s.size s.next)) };
}

impl Script {
    /// All lines of a script of that size.
    pub fn new(seed: u64, size: u32) -> Script
        requires { size ≤ 500 }
        ensures { result ≡ script seed size }
    {
        Script {
            seed,
            size,
            next: 0,
            draws: Draws { state: seed },
        }
    }

    /// Appends the next line without its end, or says that there is none. Where there is no memory for it, nothing changes.
    pub fn next_line(&mut self, out: &mut Vec<u8>) -> Result<bool, AllocError>
        ensures line { IfOk result (λ found. TakesLine self.old self.new found out.old.items out.new.items) }
        ensures same { OnErr result (out.new.items ≡ out.old.items) }
        ensures left { OnErr result (self.new ≡ self.old) }
        ensures full { OnErr result (vec_capacity out.old < vec_len out.old + 16384) }
    {
        let Some(line) = line_at(self.size, self.next) else {
            return Ok(false);
        };
        put_line(out, &mut self.draws, line)?;
        self.next += 1;
        Ok(true)
    }
}

/// How many lines a script of that size has.
pub fn script_len(size: u32) -> u32
    requires { size ≤ 500 }
    ensures number { result ≡ 24 * size + 26 }
    ensures all { (seed : ℕ) → length (script seed size) ≡ result }
{
    24 * size + 26
}

/// Appends line i of a script, from 0, without its end, or says that there is none. Where there is no memory for it,
/// nothing changes.
pub fn script_line(seed: u64, size: u32, i: u32, out: &mut Vec<u8>) -> Result<bool, AllocError>
    requires { size ≤ 500 }
    ensures line { IfOk result (λ found. PutsLine (slice_get (script seed size) i) found out.old.items out.new.items) }
    ensures same { OnErr result (out.new.items ≡ out.old.items) }
    ensures full { OnErr result (vec_capacity out.old < vec_len out.old + 16384) }
{
    let Some(line) = line_at(size, i) else {
        return Ok(false);
    };
    let mut draws = Draws::behind(seed, draws_before(size, i));
    put_line(out, &mut draws, line)?;
    Ok(true)
}

// Appends a line, whose draws are the next ones.
#[tactic(auto, using(crate::proofs::DrawLemmas::advanced_none))]
fn put_line(out: &mut Vec<u8>, draws: &mut Draws, line: Line) -> Result<(), AllocError>
    requires { IsShort line }
    ensures text { IfOk result (λ _. out.new.items ≡ out.old.items ++ line_text draws.old.state line) }
    ensures state { IfOk result (λ _. draws.new.state ≡ advanced draws.old.state (draws_of line)) }
    ensures same { OnErr result (out.new.items ≡ out.old.items) }
    ensures left { OnErr result (draws.new.state ≡ draws.old.state) }
    ensures full { OnErr result (vec_capacity out.old < vec_len out.old + 16384) }
{
    out.reserve(room_of(line))?;
    match line {
        Line::Fixed(text) => add(out, text),
        Line::Bulk(first) => add_bulk(out, draws, first),
        Line::Insert(row) => add_insert(out, draws, row),
        Line::Update(rows) => add_update(out, draws, rows),
    }
    Ok(())
}

// At most so many bytes has the line.
fn room_of(line: Line) -> usize
    ensures { result ≡ line_room line }
{
    match line {
        Line::Bulk(_) => BULK_ROOM,
        Line::Fixed(_) | Line::Insert(_) | Line::Update(_) => LINE_ROOM,
    }
}
