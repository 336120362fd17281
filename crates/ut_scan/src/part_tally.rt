//! How often each code of a column occurs in the rows of main's parts that a scan finds.
ghost use Rattle.std.specs.Prelude.{◌≡◌, ℕ, ◌+◌, ◌<◌, ◌≤◌, ◌^◌, [], ◌∷◌, length, take, get_or, All, IfOk, OnOk};
ghost use Rattle.ut_bits.specs.Bits.{AllBelow};
ghost use Rattle.ut_scan.specs.Coded.{held_places, keys_in, standing};
ghost use Rattle.ut_scan.specs.Finds.{all_places};
ghost use Rattle.ut_scan.specs.Probes.{found_in_main};
ghost use Rattle.ut_scan.specs.StageRows.{scan_steps, AreStampedParts};
ghost use Rattle.ut_scan.specs.Tallies.{seen_codes, AreMore, HasRoom, Tallies};

use crate::coded::{all_dicts, coded_preds};
use crate::parts::PartProbe;
use crate::place::ColumnPred;
use std::alloc::{AllocError, Global};
use std::sync::ledger::Ledger;
use ut_codes::{CodeVec, Form};
use ut_key::Steps;
use ut_main::Main;
use ut_mask::Mask;
use ut_stamps::{Snapshot, StampTable};

/// For each code of a column of main, how many of the rows that are seen and meet each comparison
/// have it.
pub fn tally_parts<'a, L: Ledger>(
    alloc: Global,
    snapshot: &'a Snapshot<'a>,
    preds: &[ColumnPred],
    main: &'a Main,
    stamps: &'a StampTable,
    column: u8,
    steps: &mut Steps<L>,
) -> Result<Vec<u32>, AllocError>
    requires columns { All (λ p. p.column < main.now.width) preds.now }
    requires column { column < main.now.width }
    requires stamped { AreStampedParts main.now.parts stamps.now.parts }
    ensures counts { IfOk result (λ counts. Tallies main.now column
        (found_in_main snapshot.now preds.now main.now.parts stamps.now.parts) counts.items) }
    ensures few { IfOk result (λ counts. length counts.items < 2 ^ 31) }
    ensures cost { steps.new ≤ steps.old + scan_steps main.now preds.now }
{
    if main.parts() == 0 {
        return Ok(Vec::new(alloc));
    }
    let coded = coded_preds(alloc, main, preds, steps)?;
    let mut counts = no_counts(alloc, main, column)?;
    for number in 0..main.parts() {
        let probe = PartProbe::of(snapshot, coded.as_slice(), main, stamps, number);
        probe.tally(alloc, column, counts.as_mut_slice())?;
    }
    Ok(counts)
}

/// A count of 0 for each code of a column.
fn no_counts(alloc: Global, main: &Main, column: u8) -> Result<Vec<u32>, AllocError>
    requires parts { 0 < length main.now.parts }
    requires column { column < main.now.width }
    ensures size { IfOk result (λ counts. length counts.items ≡ length (keys_in main.now column)) }
    ensures few { IfOk result (λ counts. length counts.items < 2 ^ 31) }
    ensures none { IfOk result (λ counts. (code : ℕ) → get_or counts.items code 0 ≡ 0) }
{
    let codes = all_dicts(main, column).len() as usize;
    let mut counts = Vec::with_capacity(alloc, codes)?;
    counts.resize(codes, 0)?;
    Ok(counts)
}

impl PartProbe<'_, '_> {
    /// Counts the codes of the part's rows that are seen and meet each comparison.
    fn tally(&self, alloc: Global, column: u8, counts: &mut [u32]) -> Result<(), AllocError>
        requires column { column < length self.now.part.now.before }
        requires room { HasRoom self.now.part.now column counts.old }
        ensures { let p = self.now in let held = held_places p.coded.now p.part.now in
            OnOk result (AreMore (seen_codes p.snapshot.now p.part.now column p.stamps.now held)
            counts.old counts.new) }
    {
        if self.is_hidden() {
            return Ok(());
        }
        if self.coded.is_empty() {
            return self.tally_all(alloc, column, counts);
        }
        if self.is_out() {
            return Ok(());
        }
        let mask = self.held(alloc)?;
        self.tally_standing(&mask, column, counts);
        Ok(())
    }

    /// Counts the codes of all rows that are seen.
    fn tally_all(&self, alloc: Global, column: u8, counts: &mut [u32]) -> Result<(), AllocError>
        requires column { column < length self.now.part.now.before }
        requires room { HasRoom self.now.part.now column counts.old }
        ensures { let p = self.now in let places = all_places p.part.now.rows in
            OnOk result (AreMore (seen_codes p.snapshot.now p.part.now column p.stamps.now places)
            counts.old counts.new) }
    {
        match self.seen {
            Some(seen) => {
                if seen {
                    add_all(alloc, self.part.codes(column), counts)?;
                }
            }
            None => self.tally_each(column, counts),
        }
        Ok(())
    }

    /// The same, the stamp of each row looked at.
    fn tally_each(&self, column: u8, counts: &mut [u32])
        requires column { column < length self.now.part.now.before }
        requires room { HasRoom self.now.part.now column counts.old }
        ensures { let p = self.now in let places = all_places p.part.now.rows in
            AreMore (seen_codes p.snapshot.now p.part.now column p.stamps.now places)
            counts.old counts.new }
    {
        let codes = self.part.codes(column);
        for i in 0..self.part.len() {
            if self.sees(i) {
                add_code(codes.get(i), counts);
            }
        }
    }

    /// Counts the codes of the rows at the places that stand in a mask and are seen.
    fn tally_standing(&self, mask: &Mask, column: u8, counts: &mut [u32])
        requires mask { length mask.now ≡ length self.now.part.now.rows }
        requires column { column < length self.now.part.now.before }
        requires room { HasRoom self.now.part.now column counts.old }
        ensures { let p = self.now in let places = standing mask.now in
            AreMore (seen_codes p.snapshot.now p.part.now column p.stamps.now places)
            counts.old counts.new }
    {
        let codes = self.part.codes(column);
        let mut from = 0;
        while from < mask.len() {
            let Some(i) = mask.next(from) else {
                return;
            };
            if self.sees(i) {
                add_code(codes.get(i), counts);
            }
            from = i + 1;
        }
    }
}

/// Counts all codes of a vector. Packed codes are read in place, others are written out first.
fn add_all(alloc: Global, codes: &CodeVec, counts: &mut [u32]) -> Result<(), AllocError>
    requires there { AllBelow (length counts.old) codes.now.codes }
    requires few { (code : ℕ) → get_or counts.old code 0 + length codes.now.codes < 2 ^ 32 }
    ensures { OnOk result (AreMore codes.now.codes counts.old counts.new) }
{
    match codes.form() {
        Form::Packed => add_packed(codes, counts),
        _ => add_list(codes.codes(alloc)?.as_slice(), counts),
    }
    Ok(())
}

/// Counts all codes of a packed vector: eight at a time, and the last few one by one.
fn add_packed(codes: &CodeVec, counts: &mut [u32])
    requires there { AllBelow (length counts.old) codes.now.codes }
    requires few { (code : ℕ) → get_or counts.old code 0 + length codes.now.codes < 2 ^ 32 }
    ensures { AreMore codes.now.codes counts.old counts.new }
{
    let start = add_eights(codes, counts);
    for i in start..codes.len() {
        add_code(codes.get(i), counts);
    }
}

/// Counts eight codes after eight, and says how many there were.
fn add_eights(codes: &CodeVec, counts: &mut [u32]) -> u32
    requires there { AllBelow (length counts.old) codes.now.codes }
    requires few { (code : ℕ) → get_or counts.old code 0 + length codes.now.codes < 2 ^ 32 }
    ensures within { result ≤ length codes.now.codes }
    ensures counts { AreMore (take result codes.now.codes) counts.old counts.new }
{
    let eights = codes.len() / 8;
    for k in 0..eights {
        add_list(&codes.eight(8 * k), counts);
    }
    8 * eights
}

fn add_list(codes: &[u32], counts: &mut [u32])
    requires there { AllBelow (length counts.old) codes.now }
    requires few { (code : ℕ) → get_or counts.old code 0 + length codes.now < 2 ^ 32 }
    ensures { AreMore codes.now counts.old counts.new }
{
    for code in codes {
        add_code(*code, counts);
    }
}

/// Counts a code once more.
fn add_code(code: u32, counts: &mut [u32])
    requires there { code < length counts.old }
    requires few { get_or counts.old code 0 + 1 < 2 ^ 32 }
    ensures { AreMore (code ∷ []) counts.old counts.new }
{
    counts[code as usize] += 1;
}
