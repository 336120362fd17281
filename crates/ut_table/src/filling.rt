//! The calls that fill a table from elsewhere: main at once, and another stamp for a row.
ghost use Rattle.std.specs.Prelude.{◌≡◌, ◌≤◌, [], List, map, vec_len, None, IsSome};
ghost use Rattle.std.specs.Global.{Vec};
ghost use Rattle.ut_stamps.specs.declared.visibility.Stamp.{Stamp};
ghost use Rattle.ut_exact.specs.Places.{StagedRow};
ghost use Rattle.ut_staged.specs.Staged.{row_at};
ghost use Rattle.ut_table.specs.Filled.{HoldsParts, restamped};

use crate::table::Table;
use ut_main::Main;
use ut_scan::Place;
use ut_stamps::{PartStamps, Stamp, StampTable};

/// The stamps of parts. Takes no memory.
fn push_parts(stamps: &mut StampTable, parts: Vec<Vec<Stamp>>)
    requires empty { stamps.old.parts ≡ [] }
    requires few { vec_len parts ≤ 8 }
    ensures { stamps.new ≡ record stamps.old { parts = map (λ (v : Vec Stamp). v.items) parts.items } }
{
    for part in parts {
        stamps.push_part(part);
    }
}

/// The same of stamps as they are held. Takes no memory.
fn push_stamps(stamps: &mut StampTable, parts: Vec<PartStamps>)
    requires empty { stamps.old.parts ≡ [] }
    requires few { vec_len parts ≤ 8 }
    ensures { stamps.new ≡ record stamps.old { parts = parts.items } }
{
    for part in parts {
        stamps.push_stamps(part);
    }
}

impl Table {
    /// Takes main as it is, with the stamps of its rows, in place of one without parts. Takes no memory.
    pub fn load_main(&mut self, main: Main, stamps: Vec<Vec<Stamp>>)
        requires empty { self.old.stages.parts ≡ [] }
        requires idle { self.old.stages.merge ≡ None }
        requires holds { (parts : List (List StagedRow)) × HoldsParts self.old.stages.columns main (map (λ (v : Vec Stamp). v.items) stamps.items) parts }
        ensures { (parts : List (List StagedRow)) → HoldsParts self.old.stages.columns main (map (λ (v : Vec Stamp). v.items) stamps.items) parts
            → self.new.stages ≡ record self.old.stages { parts = parts } }
    {
        push_parts(&mut self.stamps, stamps);
        self.main = main;
    }

    /// The same with stamps as they are held: those of a part that agree are no list.
    pub fn load_parts(&mut self, main: Main, stamps: Vec<PartStamps>)
        requires empty { self.old.stages.parts ≡ [] }
        requires idle { self.old.stages.merge ≡ None }
        requires holds { (parts : List (List StagedRow)) × HoldsParts self.old.stages.columns main stamps.items parts }
        ensures { (parts : List (List StagedRow)) → HoldsParts self.old.stages.columns main stamps.items parts
            → self.new.stages ≡ record self.old.stages { parts = parts } }
    {
        push_stamps(&mut self.stamps, stamps);
        self.main = main;
    }

    /// Puts another stamp on the row in a place. Takes no memory.
    pub fn restamp(&mut self, place: Place, stamp: Stamp)
        requires { IsSome (row_at self.old.stages place) }
        ensures stages { self.new.stages ≡ restamped stamp place self.old.stages }
        ensures room { self.new.spare ≡ self.old.spare }
    {
        self.stamps.set(place, stamp);
    }
}
