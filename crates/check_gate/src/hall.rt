//! The value in the gate: a lent disk, the lines to be answered, and the book of those answered.
ghost use Rattle.std.specs.Prelude.{◌≡◌, ℕ, ◌≤◌, length, None};

use std::marker::{Brand, PhantomData};
use ut_gate::{Act, Held, Slip};

pub(crate) trait Disk {
    ghost faults: { Self → ℕ };

    fn put(&mut self, n: u64) -> bool
        ensures { faults self.old ≤ faults self.new };
}

/// Names the ground of one run. It has no calls, and its types have no bytes.
pub(crate) trait Opening {
    ghost use Rattle.check_gate.specs.Ground.{Ground};

    ghost ground: { Ground };
}

impl Opening for Brand {
    ghost use Rattle.std.specs.Prelude.{[]};

    ghost ground = { record { lines = []; faults = 0 } };
}

#[derive(Drop)]
pub(crate) struct Hall<'d, D: Disk, O: Opening> {
    pub disk: &'d mut D,
    pub lines: Vec<u64>,
    pub book: Vec<u64>,
    pub of: PhantomData<O>,
}

impl<'d, D: Disk + Send, O: Opening + Send> Held for Hall<'d, D, O> {
    ghost use Rattle.check_gate.specs.Ground.{Ground};

    type Job = ();

    type Entry = u64;

    ghost Ground = { Ground };

    ghost ground = { O.ground };

    ghost stands_on = { λ g h. (h.lines.items ≡ g.lines) × (length h.book.items ≤ length g.lines) × (g.faults ≤ D.faults h.disk.now) };

    ghost book = { λ h. h.book.items };

    ghost job = { λ _. None };
}

/// Answers the next line, and is false where there is none or no memory.
#[derive(Drop)]
pub(crate) struct Advance;

impl<'d, D: Disk + Send, O: Opening + Send> Act<Hall<'d, D, O>> for Advance {
    type Answer = bool;

    ghost relates = { λ _ _ x y _ _ _. length x.book.items ≤ length y.book.items };

    ghost asks = { λ _ _. Unit {0} };

    fn run(&mut self, value: &mut Hall<'d, D, O>, slip: &mut Slip<()>) -> bool {
        slip.job = None;
        let at = value.book.len();
        if at >= value.lines.len() || value.book.reserve(1).is_err() {
            return false;
        }
        let line = value.lines[at];
        let _ = value.disk.put(line);
        value.book.push_reserved(line);
        true
    }
}
