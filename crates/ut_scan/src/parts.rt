//! A scan of main's parts, by codes.
ghost use Rattle.std.specs.Prelude.{◌≡◌, ℕ, ◌+◌, ◌<◌, ◌≤◌, ◌++◌, false, length, All, IsTrue, IfOk, OnOk};
ghost use Rattle.ut_bits.specs.Places.{is_in as is_in_ranges};
ghost use Rattle.ut_scan.specs.Coded.{code_at, codes_in, held_mask, held_places, is_held, seen_at, standing};
ghost use Rattle.ut_scan.specs.Finds.{all_places, found_at};
ghost use Rattle.ut_scan.specs.Probes.{found_in_main, is_seen, AreSeenAs, Tells};
ghost use Rattle.ut_scan.specs.StageRows.{scan_steps, AreStampedParts};

use crate::coded::{CodedPred, below, coded_preds};
use crate::place::{ColumnPred, Found, Place};
use std::alloc::{AllocError, Global};
use std::sync::ledger::Ledger;
use ut_codes::CodeVec;
use ut_key::{CodeRange, Steps};
use ut_main::{Main, Part};
use ut_mask::Mask;
use ut_stamps::{PartStamps, Snapshot, StampTable};

/// A part of main with its number and its stamps, and what its rows must meet.
#[derive(Drop)]
pub struct PartProbe<'a, 'c> {
    pub snapshot: &'a Snapshot<'a>,
    pub coded: &'c [CodedPred],
    pub number: u8,
    pub part: &'a Part,
    pub stamps: &'a PartStamps,
    /// Whether all rows are seen or none, where one stamp tells.
    pub seen: Option<bool>,
    ghost stamped: { length stamps.now ≡ length part.now.rows },
    ghost sight: { Tells snapshot.now stamps.now seen },
    ghost columns: { All (λ c. c.column < length part.now.before) coded.now },
}

/// Appends the seen rows of main that meet each comparison.
pub fn scan_parts<'a, L: Ledger>(
    alloc: Global,
    snapshot: &'a Snapshot<'a>,
    preds: &[ColumnPred],
    main: &'a Main,
    stamps: &'a StampTable,
    out: &mut Vec<Found>,
    steps: &mut Steps<L>,
) -> Result<(), AllocError>
    requires columns { All (λ p. p.column < main.now.width) preds.now }
    requires stamped { AreStampedParts main.now.parts stamps.now.parts }
    ensures rows { OnOk result (out.new.items ≡ out.old.items
        ++ found_in_main snapshot.now preds.now main.now.parts stamps.now.parts) }
    ensures cost { steps.new ≤ steps.old + scan_steps main.now preds.now }
{
    if main.parts() == 0 {
        return Ok(());
    }
    let coded = coded_preds(alloc, main, preds, steps)?;
    for number in 0..main.parts() {
        let probe = PartProbe::of(snapshot, coded.as_slice(), main, stamps, number);
        probe.append(alloc, out)?;
    }
    Ok(())
}

/// Whether all rows of a part are seen or none, where one stamp tells.
fn joint_sight(snapshot: &Snapshot<'_>, stamps: &PartStamps) -> Option<bool>
    ensures { Tells snapshot.now stamps.now result }
{
    match stamps.joint() {
        Some(stamp) => Some(snapshot.sees(&stamp)),
        None => None,
    }
}

impl<'a, 'c> PartProbe<'a, 'c> {
    ghost use Rattle.ut_scan.specs.PartProbes.{IsProbeOf};

    /// The probe of the part of a number.
    pub fn of(
        snapshot: &'a Snapshot<'a>,
        coded: &'c [CodedPred],
        main: &'a Main,
        stamps: &'a StampTable,
        number: u8,
    ) -> Self
        requires columns { All (λ c. c.column < main.now.width) coded.now }
        requires stamped { AreStampedParts main.now.parts stamps.now.parts }
        requires there { number < length main.now.parts }
        ensures { IsProbeOf snapshot.now coded.now main.now stamps.now.parts number result }
    {
        let part = main.part(number);
        let stamps = stamps.part(number);
        let seen = joint_sight(snapshot, stamps);
        PartProbe {
            snapshot,
            coded,
            number,
            part,
            stamps,
            seen,
        }
    }

    /// Appends the part's seen rows that meet each comparison.
    fn append(&self, alloc: Global, out: &mut Vec<Found>) -> Result<(), AllocError>
        ensures { let p = self.now in let held = held_places p.coded.now p.part.now in
            OnOk result (out.new.items ≡ out.old.items
            ++ seen_at p.snapshot.now p.number p.part.now.rows p.stamps.now held) }
    {
        if self.is_hidden() {
            return Ok(());
        }
        if self.coded.is_empty() {
            return self.append_all(out);
        }
        if self.is_out() {
            return Ok(());
        }
        let mask = self.held(alloc)?;
        self.append_standing(&mask, out)
    }

    /// The places whose codes meet each comparison: one mask, which each of them narrows.
    pub fn held(&self, alloc: Global) -> Result<Mask, AllocError>
        ensures { let p = self.now in
            IfOk result (λ mask. mask ≡ held_mask p.coded.now p.part.now) }
    {
        let mut mask = Mask::new(alloc, self.part.len())?;
        for pred in self.coded {
            self.codes(pred).keep_in(self.ranges(pred), &mut mask);
        }
        Ok(mask)
    }

    /// Whether one stamp tells that no row is seen.
    pub fn is_hidden(&self) -> bool
        ensures { let p = self.now in
            IsTrue result → AreSeenAs p.snapshot.now p.stamps.now false }
    {
        match self.seen {
            Some(seen) => !seen,
            None => false,
        }
    }

    /// Whether no code of the part meets one of the comparisons.
    pub fn is_out(&self) -> bool
        ensures { let part = self.now.part.now in let coded = self.now.coded.now in
            IsTrue result → (i : ℕ) → i < length part.rows → is_held coded part i ≡ false }
    {
        for pred in self.coded {
            if self.ranges(pred).is_empty() {
                return true;
            }
        }
        false
    }

    /// The codes of a comparison's column.
    fn codes(&self, pred: &CodedPred) -> &CodeVec
        requires { pred.now.column < length self.now.part.now.before }
        ensures { result.now ≡ codes_in self.now.part.now pred.now.column }
    {
        self.part.codes(pred.column)
    }

    /// Those of a comparison's ranges that the part's codes may stand in: none of the keys that
    /// only later parts have.
    fn ranges<'p>(&self, pred: &'p CodedPred) -> &'p [CodeRange]
        requires { pred.now.column < length self.now.part.now.before }
        ensures { let part = self.now.part.now in let column = pred.now.column in
            (i : ℕ) → i < length part.rows
            → is_in_ranges result.now (code_at part i column)
            ≡ is_in_ranges pred.now.ranges.items (code_at part i column) }
    {
        below(pred.ranges.as_slice(), self.codes(pred).reach())
    }

    /// Appends all rows that are seen.
    fn append_all(&self, out: &mut Vec<Found>) -> Result<(), AllocError>
        ensures { let p = self.now in let rows = p.part.now.rows in
            OnOk result (out.new.items ≡ out.old.items
            ++ seen_at p.snapshot.now p.number rows p.stamps.now (all_places rows)) }
    {
        for i in 0..self.part.len() {
            if self.sees(i) {
                out.push(self.found(i))?;
            }
        }
        Ok(())
    }

    /// Appends the rows at the places that stand in a mask and are seen.
    fn append_standing(&self, mask: &Mask, out: &mut Vec<Found>) -> Result<(), AllocError>
        requires { length mask.now ≡ length self.now.part.now.rows }
        ensures { let p = self.now in OnOk result (out.new.items ≡ out.old.items
            ++ seen_at p.snapshot.now p.number p.part.now.rows p.stamps.now (standing mask.now)) }
    {
        let mut from = 0;
        while from < mask.len() {
            let Some(i) = mask.next(from) else {
                return Ok(());
            };
            if self.sees(i) {
                out.push(self.found(i))?;
            }
            from = i + 1;
        }
        Ok(())
    }

    /// Whether the row at a place is seen. No stamp is looked at where one has told for all.
    pub fn sees(&self, i: u32) -> bool
        requires { i < length self.now.part.now.rows }
        ensures { result ≡ is_seen self.now.snapshot.now self.now.stamps.now i }
    {
        match self.seen {
            Some(seen) => seen,
            None => self.snapshot.sees(&self.stamps.get(i as usize)),
        }
    }

    /// The row at a place.
    fn found(&self, i: u32) -> Found
        requires { i < length self.now.part.now.rows }
        ensures { result ≡ found_at (Place.Main self.now.number) self.now.part.now.rows i }
    {
        Found {
            id: self.part.row_id(i),
            place: Place::Main(self.number, i),
        }
    }
}
