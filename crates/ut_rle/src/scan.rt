//! Looking for a row, or for codes, among runs.
ghost use Rattle.std.specs.Prelude.{◌≡◌, ◌<◌, ◌≤◌, ◌+◌, ◌-◌, length, slice_index, map, nat_lt, OnOk, OnErr, ◌++◌};
ghost use Rattle.std.specs.List.{list_all};
ghost use Rattle.ut_bits.specs.Places.{is_in, places_where};
ghost use Rattle.ut_rle.specs.Runs.{entries_of, expanded};
ghost use Rattle.ut_rle.specs.Ends.{lengths_from, end_from, Ascend};
ghost use Rattle.ut_mask.specs.Mask.{both};

use crate::run::Run;
use std::alloc::AllocError;
use ut_bits::{append_range, append_words, cut_at_error, is_in};
use ut_mask::Mask;

/// The place of the run that holds a row.
pub(crate) fn run_at(runs: &[Run], i: u32) -> usize
    requires { i < end_from 0 runs.now }
    ensures within { result < length runs.now }
    ensures before { 0 < result → slice_index (map (λ r. r.end) runs.now) (result - 1) ≤ i }
    ensures holds { i < slice_index (map (λ r. r.end) runs.now) result }
{
    let mut low = 0;
    let mut high = runs.len() - 1;
    while low < high {
        let middle = low + (high - low) / 2;
        if runs[middle].end <= i {
            low = middle + 1;
        } else {
            high = middle;
        }
    }
    low
}

/// Whether the code of every run is below a limit.
pub(crate) fn codes_are_below(runs: &[Run], limit: u32) -> bool
    ensures { result ≡ list_all (λ r. nat_lt r.code limit) runs.now }
{
    runs.iter().all(|run| run.code < limit)
}

/// Appends the places whose code stands in one of the ranges.
pub(crate) fn append_places_in(
    runs: &[Run],
    ranges: &[(u32, u32)],
    out: &mut Vec<u32>,
) -> Result<(), AllocError>
    requires { Ascend 0 runs.now }
    ensures ok { OnOk result (out.new.items ≡ out.old.items ++ places_where (is_in ranges.now) (expanded (lengths_from 0 runs.now))) }
    ensures err { OnErr result (out.new.items ≡ out.old.items) }
{
    let before = out.len();
    let mut from = 0;
    for run in runs {
        if is_in(run.code, ranges) {
            cut_at_error(append_range(from, run.end, out), before, out)?;
        }
        from = run.end;
    }
    Ok(())
}

/// Keeps of a mask the places whose code stands in one of the ranges, run by run.
pub(crate) fn keep_runs(runs: &[Run], ranges: &[(u32, u32)], mask: &mut Mask)
    requires order { Ascend 0 runs.now }
    requires length { length mask.old ≡ length (expanded (lengths_from 0 runs.now)) }
    ensures { mask.new ≡ both mask.old (map (is_in ranges.now) (expanded (lengths_from 0 runs.now))) }
{
    let mut from = 0;
    for run in runs {
        mask.keep_range(from, run.end, is_in(run.code, ranges));
        from = run.end;
    }
}

/// Appends the codes that the runs stand for.
pub(crate) fn append_codes(runs: &[Run], out: &mut Vec<u32>) -> Result<(), AllocError>
    requires { Ascend 0 runs.now }
    ensures ok { OnOk result (out.new.items ≡ out.old.items ++ expanded (lengths_from 0 runs.now)) }
    ensures err { OnErr result (out.new.items ≡ out.old.items) }
{
    let before = out.len();
    let mut from = 0;
    for run in runs {
        let count = out.as_slice().len() + (run.end - from) as usize;
        cut_at_error(out.resize(count, run.code), before, out)?;
        from = run.end;
    }
    Ok(())
}

/// Appends each run's code and length.
pub(crate) fn append_entries(runs: &[Run], out: &mut Vec<u8>) -> Result<(), AllocError>
    requires { Ascend 0 runs.now }
    ensures ok { OnOk result (out.new.items ≡ out.old.items ++ entries_of (lengths_from 0 runs.now)) }
    ensures err { OnErr result (out.new.items ≡ out.old.items) }
{
    let before = out.len();
    let mut from = 0;
    for run in runs {
        cut_at_error(append_words(run.code, run.end - from, out), before, out)?;
        from = run.end;
    }
    Ok(())
}
