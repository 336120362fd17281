//! Assertions for tests. Each is one call in a test's proof, and a failure names the line of that call.
ghost use Rattle.std.specs.Prelude.{IsTrue};

use std::process::Abort;

/// Ends the test where it is not so.
pub fn holds(rt: &impl Abort, is_so: bool)
    ensures { IsTrue is_so }
{
    assert!(rt; is_so);
}

/// The same, and says at which call, byte or row.
pub fn holds_at(rt: &impl Abort, is_so: bool, at: u64)
    ensures { IsTrue is_so }
{
    assert!(rt; is_so, "at {at}");
}
