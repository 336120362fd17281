//! A code vector by its runs.
ghost use Rattle.std.specs.Prelude.{◌≡◌, ◌^◌, ◌<◌, ◌≤◌, ◌↔◌, IsTrue, length, slice_index, IfOk, IfSome, IfNone, OnOk, OnErr, ◌++◌, ◌∷◌, [], ◌≢◌, List, ℕ, take, map};
ghost use Rattle.ut_bits.specs.Bits.{AllBelow};
ghost use Rattle.ut_bits.specs.Coded.{HasCodes, IsRead};
ghost use Rattle.ut_bits.specs.Places.{is_in, places_where};
ghost use Rattle.ut_rle.specs.Runs.{runs_of, run_bytes};
ghost use Rattle.ut_mask.specs.Mask.{both};

use crate::reading::read_runs;
use crate::run::Run;
use crate::scan::{
    append_codes, append_entries, append_places_in, codes_are_below, keep_runs, run_at,
};
use std::alloc::{AllocError, Global};
use std::marker::Model;
use ut_bits::{append_word, cut_at_error, read_word};
use ut_mask::Mask;

/// A vector of codes by its runs, in order.
#[derive(Drop)]
pub struct Runs {
    runs: Vec<Run>,
    len: u32,
    width: u8,
}

impl Model for Runs {
    ghost use Rattle.std.specs.Prelude.{◌≡◌, ◌^◌, ◌≤◌};
    ghost use Rattle.ut_bits.specs.Coded.{Coded};
    ghost use Rattle.ut_rle.specs.Runs.{expanded, AreRuns};
    ghost use Rattle.ut_rle.specs.Ends.{lengths_from, end_from};

    ghost Value = { Coded };

    ghost view = { λ p. record { width = p.width; codes = expanded (lengths_from 0 p.runs.items) } };

    ghost invariant = { λ p. (p.width ≤ 32) × (p.len ≤ 2 ^ 31) × (p.len ≡ end_from 0 p.runs.items) × AreRuns (2 ^ p.width) (lengths_from 0 p.runs.items) };
}

impl Runs {
    pub fn from_codes(alloc: Global, codes: &[u32], width: u8) -> Result<Self, AllocError>
        requires width { width ≤ 32 }
        requires below { AllBelow (2 ^ width) codes.now }
        requires count { length codes.now ≤ 2 ^ 31 }
        ensures { IfOk result (λ p. HasCodes width codes.now p) }
    {
        let mut runs = Vec::new(alloc);
        if codes.is_empty() {
            return Ok(Runs {
                runs,
                len: 0,
                width,
            });
        }
        let mut current = codes[0];
        for i in 1..codes.len() {
            if codes[i] != current {
                runs.push(Run {
                    code: current,
                    end: i as u32,
                })?;
                current = codes[i];
            }
        }
        let len = codes.len() as u32;
        runs.push(Run {
            code: current,
            end: len,
        })?;
        Ok(Runs { runs, len, width })
    }

    pub fn len(&self) -> u32
        ensures len { result ≡ length self.now.codes }
        ensures small { result ≤ 2 ^ 31 }
    {
        self.len
    }

    /// How many bits hold each code.
    pub fn width(&self) -> u8
        ensures width { result ≡ self.now.width }
        ensures small { result ≤ 32 }
    {
        self.width
    }

    /// How many runs there are.
    pub fn run_count(&self) -> u32
        ensures { result ≡ length (runs_of self.now.codes) }
    {
        self.runs.as_slice().len() as u32
    }

    /// The code of a row, by binary search among the runs.
    pub fn get(&self, i: u32) -> u32
        requires { i < length self.now.codes }
        ensures { result ≡ slice_index self.now.codes i }
    {
        let runs = self.runs.as_slice();
        runs[run_at(runs, i)].code
    }

    /// Whether every code is below a limit.
    pub fn are_below(&self, limit: u32) -> bool
        ensures { IsTrue result ↔ AllBelow limit self.now.codes }
    {
        codes_are_below(self.runs.as_slice(), limit)
    }

    /// Appends the places, ascending, whose code stands in one of the ranges, run by run.
    pub fn places_in(&self, ranges: &[(u32, u32)], out: &mut Vec<u32>) -> Result<(), AllocError>
        ensures ok { OnOk result (out.new.items ≡ out.old.items ++ places_where (is_in ranges.now) self.now.codes) }
        ensures err { OnErr result (out.new.items ≡ out.old.items) }
    {
        append_places_in(self.runs.as_slice(), ranges, out)
    }

    /// Keeps of a mask the places whose code stands in one of the ranges, run by run.
    pub fn keep_in(&self, ranges: &[(u32, u32)], mask: &mut Mask)
        requires { length mask.old ≡ length self.now.codes }
        ensures { mask.new ≡ both mask.old (map (is_in ranges.now) self.now.codes) }
    {
        keep_runs(self.runs.as_slice(), ranges, mask);
    }

    /// Appends all codes in order.
    pub fn codes_of(&self, out: &mut Vec<u32>) -> Result<(), AllocError>
        ensures ok { OnOk result (out.new.items ≡ out.old.items ++ self.now.codes) }
        ensures err { OnErr result (out.new.items ≡ out.old.items) }
    {
        append_codes(self.runs.as_slice(), out)
    }

    /// Appends the number of runs, then each run's code and length.
    pub fn bytes_of(&self, out: &mut Vec<u8>) -> Result<(), AllocError>
        ensures ok { OnOk result (out.new.items ≡ out.old.items ++ run_bytes self.now.codes) }
        ensures err { OnErr result (out.new.items ≡ out.old.items) }
    {
        let before = out.len();
        append_word(self.run_count(), out)?;
        cut_at_error(append_entries(self.runs.as_slice(), out), before, out)?;
        Ok(())
    }

    /// The vector that begins the bytes, and how many bytes it takes.
    pub fn from_bytes(
        alloc: Global,
        bytes: &[u8],
        rows: u32,
        width: u8,
    ) -> Result<Option<(Runs, usize)>, AllocError>
        requires width { width ≤ 32 }
        requires rows { rows ≤ 2 ^ 31 }
        ensures read { IfOk result (λ found. IfSome found (λ r. IsRead width rows bytes.now r.0 r.1)) }
        ensures spelled { IfOk result (λ found. IfSome found (λ r. take r.1 bytes.now ≡ run_bytes r.0.codes)) }
        ensures none { IfOk result (λ found. IfNone found ((codes rest : List ℕ) → length codes ≡ rows → AllBelow (2 ^ width) codes → bytes.now ≢ run_bytes codes ++ rest)) }
    {
        if bytes.len() < 4 {
            return Ok(None);
        }
        let count = read_word(bytes) as usize;
        let entries = &bytes[4..];
        if entries.len() / 8 < count {
            return Ok(None);
        }
        let Some(runs) = read_runs(alloc, entries, count, rows, width)? else {
            return Ok(None);
        };
        let vector = Runs {
            runs,
            len: rows,
            width,
        };
        Ok(Some((vector, 4 + 8 * count)))
    }
}
