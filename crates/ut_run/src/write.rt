//! Writing to the sink.
ghost use Rattle.ut_outside.specs.Faults.{HasCause};
ghost use Rattle.ut_run.specs.Writing.{Writes};

use ut_outside::{Disk, Failed, Sink};

/// Writes all the bytes. The disk stays as it is, so each byte has its moment.
pub fn write_all<K: Sink<D>, D: Disk>(sink: &mut K, disk: &D, bytes: &[u8]) -> Result<(), Failed>
    ensures written { Writes (K.held sink.old) (K.moments sink.old) bytes.now (D.view disk.now).moment result (K.held sink.new) (K.moments sink.new) }
    ensures cause { HasCause (K.faults sink.old) (K.faults sink.new) result }
{
    let mut rest = bytes;
    while !rest.is_empty() {
        let count = sink.give(disk, rest)?;
        let (_, others) = rest.split_at(count);
        rest = others;
    }
    Ok(())
}
