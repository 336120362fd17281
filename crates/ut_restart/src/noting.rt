//! Where the rows of an image stand.
ghost use Rattle.std.specs.Prelude.{◌≡◌, ◌+◌, ◌<◌, ◌≤◌, ◌^◌, OnOk, length, map};
ghost use Rattle.ut_plain.specs.Stages.{Stages};
ghost use Rattle.ut_restart.specs.Rows.{position};
ghost use Rattle.ut_restart.specs.Shown.{marks_of, AreShown};
ghost use Rattle.ut_restart.specs.Noted.{place_in, rows_noted, deltas_noted, part_noted, parts_noted, mains_noted, HasNoted, Noted};

use crate::rows::{Position, Rows};
use std::alloc::AllocError;
use ut_image::{Drawn, PartRef};
use ut_main::{Main, Part};
use ut_scan::Place;
use ut_value::Row;

/// A stage that isn't main.
#[derive(Clone, Copy)]
pub(crate) enum Delta {
    First,
    Second,
}

fn place_in(delta: Delta, i: u32) -> Place
    ensures { result ≡ place_in delta i }
{
    match delta {
        Delta::First => Place::L1(i),
        Delta::Second => Place::L2(i),
    }
}

impl Rows {
    fn note(&mut self, id: u32, table: u16, place: Place) -> Result<(), AllocError>
        requires { self.old.load < 2 ^ 31 }
        ensures { OnOk result (HasNoted self.old id (position table place) self.new) }
    {
        self.positions.insert(id, Position { table, place })?;
        self.load += 1;
        Ok(())
    }

    fn note_rows(&mut self, table: u16, delta: Delta, rows: &[Row]) -> Result<(), AllocError>
        requires { self.old.load + length (rows_noted table delta rows.now) ≤ 2 ^ 31 }
        ensures { OnOk result (Noted self.old (rows_noted table delta rows.now) self.new) }
    {
        for i in 0..rows.len() as u32 {
            self.note(rows[i as usize].id, table, place_in(delta, i))?;
        }
        Ok(())
    }

    /// The rows in the deltas of all tables.
    pub(crate) fn note_deltas(&mut self, tables: &[Drawn]) -> Result<(), AllocError>
        requires few { length tables.now ≤ 256 }
        requires room { self.old.load + length (deltas_noted 0 tables.now) ≤ 2 ^ 31 }
        ensures { OnOk result (Noted self.old (deltas_noted 0 tables.now) self.new) }
    {
        for n in 0..tables.len() as u16 {
            let drawn = &tables[n as usize];
            self.note_rows(n, Delta::Second, drawn.l2.as_slice())?;
            self.note_rows(n, Delta::First, drawn.l1.as_slice())?;
        }
        Ok(())
    }

    // The rows of a part that are live.
    fn note_part(&mut self, table: u16, p: u8, part: &Part, live: &[bool]) -> Result<(), AllocError>
        requires marks { length live.now ≡ length part.now.rows }
        requires room { self.old.load + length (part_noted table p part.now.rows live.now) ≤ 2 ^ 31 }
        ensures { OnOk result (Noted self.old (part_noted table p part.now.rows live.now) self.new) }
    {
        for i in 0..part.len() {
            if live[i as usize] {
                self.note(part.row_id(i), table, Place::Main(p, i))?;
            }
        }
        Ok(())
    }

    fn note_parts(&mut self, table: u16, refs: &[PartRef], main: &Main) -> Result<(), AllocError>
        requires marks { map length (marks_of refs.now) ≡ map length main.now.parts }
        requires room { self.old.load + length (parts_noted table 0 refs.now main.now.parts) ≤ 2 ^ 31 }
        ensures { OnOk result (Noted self.old (parts_noted table 0 refs.now main.now.parts) self.new) }
    {
        for p in 0..main.parts() {
            self.note_part(table, p, main.part(p), refs[p as usize].live.as_slice())?;
        }
        Ok(())
    }

    /// The live rows in the parts of all tables.
    pub(crate) fn note_mains(&mut self, tables: &[Drawn], mains: &[Main]) -> Result<(), AllocError>
        requires few { length tables.now ≤ 256 }
        requires shown { (stages : Stages) × AreShown tables.now mains.now stages }
        requires room { self.old.load + length (mains_noted 0 tables.now mains.now) ≤ 2 ^ 31 }
        ensures { OnOk result (Noted self.old (mains_noted 0 tables.now mains.now) self.new) }
    {
        for n in 0..tables.len() as u16 {
            let drawn = &tables[n as usize];
            self.note_parts(n, drawn.parts.as_slice(), &mains[n as usize])?;
        }
        Ok(())
    }
}
