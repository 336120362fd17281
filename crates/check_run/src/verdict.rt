//! Whether runs told what they had to, for the programs that compare, and how many of them did.
ghost use Rattle.std.specs.Prelude.{◌≡◌, ◌↔◌, ◌+◌, ◌-◌, ◌^◌, min, false, IsTrue};

use std::fmt;
use ut_app::Status;

/// How many rows were run, and how many of them were answered as expected.
#[derive(Clone, Copy)]
pub struct Tally {
    run: usize,
    right: usize,
}

impl Tally {
    /// No row was run.
    pub fn new() -> Tally
        ensures run { result.run ≡ 0 }
        ensures right { result.right ≡ 0 }
    {
        Tally { run: 0, right: 0 }
    }

    /// Counts a row by what it was told. Both counts stay at the greatest usize.
    pub fn count(&mut self, is_right: bool)
        ensures run { self.new.run ≡ min (self.old.run + 1) (2 ^ 64 - 1) }
        ensures right { IsTrue is_right → self.new.right ≡ min (self.old.right + 1) (2 ^ 64 - 1) }
        ensures wrong { is_right ≡ false → self.new.right ≡ self.old.right }
    {
        self.run = self.run.saturating_add(1);
        if is_right {
            self.right = self.right.saturating_add(1);
        }
    }

    /// Whether each row that was run is right.
    pub fn is_whole(&self) -> bool
        ensures { IsTrue result ↔ self.now.right ≡ self.now.run }
    {
        self.right == self.run
    }
}

impl fmt::Display for Tally {
    fn fmt<W: fmt::Write>(&self, f: &mut fmt::Formatter<W>) -> fmt::Result {
        let Tally { run, right } = *self;
        write!(f, "{right} of {run}")
    }
}

/// Whether what was told is what has to be.
pub fn is_right(told: &[u8], wanted: &[u8]) -> bool
    ensures { IsTrue result ↔ told.now ≡ wanted.now }
{
    told == wanted
}

/// Whether a run ended well and told what it had to.
pub fn has_told(status: Status, told: &[u8], wanted: &[u8]) -> bool
    ensures { IsTrue result ↔ (status ≡ Status.Done) × (told.now ≡ wanted.now) }
{
    status == Status::Done && is_right(told, wanted)
}
