//! The stages that aren't main.
ghost use Rattle.std.specs.Prelude.{◌≡◌};
ghost use Rattle.ut_table.specs.Outside.{place_in};

use ut_scan::Place;

/// A stage that isn't main.
#[derive(Clone, Copy)]
pub enum Stage {
    L1,
    L2,
    /// That a pending merge closed.
    Closed,
}

impl Stage {
    /// A place of the stage.
    pub fn place(self, i: u32) -> Place
        ensures { result ≡ place_in self i }
    {
        match self {
            Stage::L1 => Place::L1(i),
            Stage::L2 => Place::L2(i),
            Stage::Closed => Place::Closed(i),
        }
    }
}
