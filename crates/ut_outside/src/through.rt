//! Changes of a file that are durable when they are done.
ghost use Rattle.std.specs.Prelude.{◌≡◌, ◌+◌, ◌^◌, ◌≤◌, length};
ghost use Rattle.ut_outside.specs.Disk.{content, overlaid, padded, TornWrite, TornCut};
ghost use Rattle.ut_outside.specs.Chains.{Settles};

use crate::{Disk, Failed, Which};

/// Writes over what is there, and past the end, and makes the file durable.
pub fn write_through<D: Disk>(
    disk: &mut D,
    file: Which,
    at: u64,
    bytes: &[u8],
) -> Result<(), Failed>
    requires { at + length bytes.now ≤ 2 ^ 62 }
    ensures { Settles file (TornWrite (length (content file (D.view disk.old).seen)) at (length bytes.now))
        (overlaid at bytes.now) (D.view disk.old) (D.view disk.new) result }
{
    disk.write_at(file, at, bytes)?;
    disk.sync(file) // what was written
}

/// Makes the file so long, and durable.
pub fn cut_through<D: Disk>(disk: &mut D, file: Which, len: u64) -> Result<(), Failed>
    requires { len ≤ 2 ^ 62 }
    ensures { Settles file (TornCut (length (content file (D.view disk.old).seen)) len)
        (padded len) (D.view disk.old) (D.view disk.new) result }
{
    disk.cut(file, len)?;
    disk.sync(file)
}
