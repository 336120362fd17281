//! A run of the source's lines.
ghost use Rattle.ut_words.specs.Plans.{IsInRange};
ghost use Rattle.ut_run.specs.Ends.{Run};

use crate::input::{next_line, script_lines};
use crate::report::{Report, Status, ended};
use crate::start::{begin, open_status, start_of};
use crate::turn::{Replies, status_at, turn};
use std::alloc::Global;
use ut_merge::Build;
use ut_outside::{Disk, Sink, Source};
use ut_words::Plan;

/// Makes the store or opens it, and answers the lines of the source one after the other.
pub fn run<S: Source<K>, K: Sink<D>, D: Disk, B: Build>(
    alloc: Global,
    plan: &Plan,
    builder: &B,
    source: &mut S,
    sink: &mut K,
    disk: &mut D,
) -> Report
    requires ready { B.ready builder.now }
    requires range { IsInRange plan.now }
    ensures { Run plan.now
        (record { source = S.left source.old; asks = S.asks source.old; reads = S.faults source.old; sink = K.held sink.old; marks = K.moments sink.old; writes = K.faults sink.old; disk = D.view disk.old })
        (record { source = S.left source.new; asks = S.asks source.new; reads = S.faults source.new; sink = K.held sink.new; marks = K.moments sink.new; writes = K.faults sink.new; disk = D.view disk.new })
        result.status result.lines result.acks.items result.journal }
{
    let mut lines = match script_lines(alloc, plan.lines) {
        Ok(lines) => lines,
        Err(_) => return ended(alloc, Status::Memory),
    };
    let mut replies = match Replies::new(alloc) {
        Ok(replies) => replies,
        Err(_) => return ended(alloc, Status::Memory),
    };
    let mut engine = match begin(alloc, start_of(plan), plan.rows, disk) {
        Ok(engine) => engine,
        Err(unopened) => return ended(alloc, open_status(unopened.cause)),
    };
    replies.opened(engine.journal_len());
    let mut count = 0u64;
    loop {
        match next_line(&mut replies, &mut lines, source, sink) {
            Ok(()) => {}
            Err(status) => {
                let _disk = engine.release();
                return replies.report(status, count);
            }
        }
        let line = lines.line();
        match turn(alloc, &mut engine, builder, line, &mut replies, sink) {
            Ok(()) => {}
            Err(end) => {
                let _disk = engine.release();
                return replies.report(status_at(end), count + 1);
            }
        }
        count += 1;
    }
}
