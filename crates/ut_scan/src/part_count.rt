//! How many rows of main's parts a scan finds, by codes.
ghost use Rattle.std.specs.Prelude.{◌≡◌, ◌+◌, ◌*◌, ◌^◌, ◌<◌, ◌≤◌, length, All, IfOk};
ghost use Rattle.ut_scan.specs.Coded.{held_places, seen_at, standing};
ghost use Rattle.ut_scan.specs.Finds.{all_places};
ghost use Rattle.ut_scan.specs.Probes.{found_in_main};
ghost use Rattle.ut_scan.specs.StageRows.{scan_steps, AreStampedParts};

use crate::coded::coded_preds;
use crate::parts::PartProbe;
use crate::place::ColumnPred;
use std::alloc::{AllocError, Global};
use std::sync::ledger::Ledger;
use ut_key::Steps;
use ut_main::Main;
use ut_mask::Mask;
use ut_stamps::{Snapshot, StampTable};

/// How many rows of main are seen and meet each comparison.
pub fn count_parts<'a, L: Ledger>(
    alloc: Global,
    snapshot: &'a Snapshot<'a>,
    preds: &[ColumnPred],
    main: &'a Main,
    stamps: &'a StampTable,
    steps: &mut Steps<L>,
) -> Result<u64, AllocError>
    requires columns { All (λ p. p.column < main.now.width) preds.now }
    requires stamped { AreStampedParts main.now.parts stamps.now.parts }
    ensures count { IfOk result (λ count. count
        ≡ length (found_in_main snapshot.now preds.now main.now.parts stamps.now.parts)) }
    ensures few { IfOk result (λ count. count ≤ 8 * 2 ^ 32) }
    ensures cost { steps.new ≤ steps.old + scan_steps main.now preds.now }
{
    if main.parts() == 0 {
        return Ok(0);
    }
    let coded = coded_preds(alloc, main, preds, steps)?;
    let mut count: u64 = 0;
    for number in 0..main.parts() {
        let probe = PartProbe::of(snapshot, coded.as_slice(), main, stamps, number);
        let more = probe.count(alloc)?;
        count += u64::from(more);
    }
    Ok(count)
}

impl PartProbe<'_, '_> {
    /// How many of the part's rows are seen and meet each comparison.
    fn count(&self, alloc: Global) -> Result<u32, AllocError>
        ensures { let p = self.now in let held = held_places p.coded.now p.part.now in
            IfOk result (λ count. count
            ≡ length (seen_at p.snapshot.now p.number p.part.now.rows p.stamps.now held)) }
    {
        if self.is_hidden() {
            return Ok(0);
        }
        if self.coded.is_empty() {
            return Ok(self.count_all());
        }
        if self.is_out() {
            return Ok(0);
        }
        let mask = self.held(alloc)?;
        Ok(self.count_standing(&mask))
    }

    /// How many rows are seen.
    fn count_all(&self) -> u32
        ensures { let p = self.now in let rows = p.part.now.rows in
            result ≡ length (seen_at p.snapshot.now p.number rows p.stamps.now (all_places rows)) }
    {
        match self.seen {
            Some(seen) => { if seen { self.part.len() } else { 0 } }
            None => self.count_each(),
        }
    }

    /// How many rows are seen, each looked at.
    fn count_each(&self) -> u32
        ensures { let p = self.now in let rows = p.part.now.rows in
            result ≡ length (seen_at p.snapshot.now p.number rows p.stamps.now (all_places rows)) }
    {
        let mut count = 0;
        for i in 0..self.part.len() {
            if self.sees(i) {
                count += 1;
            }
        }
        count
    }

    /// How many of the rows at the places that stand in a mask are seen.
    fn count_standing(&self, mask: &Mask) -> u32
        requires { length mask.now ≡ length self.now.part.now.rows }
        ensures { let p = self.now in result
            ≡ length (seen_at p.snapshot.now p.number p.part.now.rows p.stamps.now (standing mask.now)) }
    {
        match self.seen {
            Some(seen) => { if seen { mask.count() } else { 0 } }
            None => self.count_each_standing(mask),
        }
    }

    /// The same, each row looked at.
    fn count_each_standing(&self, mask: &Mask) -> u32
        requires { length mask.now ≡ length self.now.part.now.rows }
        ensures { let p = self.now in result
            ≡ length (seen_at p.snapshot.now p.number p.part.now.rows p.stamps.now (standing mask.now)) }
    {
        let mut count = 0;
        let mut from = 0;
        while from < mask.len() {
            let Some(i) = mask.next(from) else {
                return count;
            };
            if self.sees(i) {
                count += 1;
            }
            from = i + 1;
        }
        count
    }
}
