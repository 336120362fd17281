//! The top call: the words, and the run that they ask for.
ghost use Rattle.std.specs.Prelude.{◌≡◌, map};
ghost use Rattle.ut_outside.specs.Faults.{Rose};
ghost use Rattle.ut_words.specs.Plans.{IsInRange, Refuses};
ghost use Rattle.ut_app.specs.Top.{RunsWords, ServesPlan, WordsStatus};

use crate::bench::bench;
use crate::crowd::crowd;
use std::alloc::Global;
use std::sync::Wait;
use std::thread::Threads;
use ut_merge::Builder;
use ut_outside::{Disk, Hook, Sink, Source};
use ut_run::{Report, Status, ended, run};
use ut_words::{Mode, Plan, WordsError, plan_of};

/// Does what the words say, the program's name first: with `--new` it makes the store of the disk, else it opens one. With `run`
/// each line of the source is read, answered and its reply written before the next line is read. With `bench` the lines are those
/// of a script, and one line of what came of them is written in place of the replies. With `crowd` all lines are read, each session
/// answers its own on a thread, and the book of the turns is written. Else only the build of a large merge starts threads, and waits
/// for them. The hook is reached when a part was built, and in a crowd when a line was answered and when a merge's job was taken.
pub fn top<S: Source<K>, K: Sink<D>, D: Disk + Send, H: Hook + Sync>(
    rt: &(impl Threads + Wait + Sync),
    alloc: Global,
    words: &[&str],
    source: &mut S,
    sink: &mut K,
    disk: &mut D,
    hook: &H,
) -> Report
    // Usage only where `clap`'s definition refuses the words.
    ensures usage { result.status ≡ Status.Usage → Refuses (map (λ w. w.now) words.now) }
    // Words that are refused do nothing; else the run of a plan that they say, with all that is promised of it.
    ensures ran { RunsWords (map (λ w. w.now) words.now)
        (record { source = S.left source.old; asks = S.asks source.old; reads = S.faults source.old; sink = K.held sink.old; marks = K.moments sink.old; writes = K.faults sink.old; disk = D.view disk.old })
        (record { source = S.left source.new; asks = S.asks source.new; reads = S.faults source.new; sink = K.held sink.new; marks = K.moments sink.new; writes = K.faults sink.new; disk = D.view disk.new })
        result.status result.lines result.acks.items result.journal }
    // A fault is answered only where its count rose.
    ensures read { result.status ≡ Status.ReadFault → Rose (S.faults source.old) (S.faults source.new) }
    ensures write { result.status ≡ Status.WriteFault → Rose (K.faults sink.old) (K.faults sink.new) }
    ensures disk { result.status ≡ Status.DiskFault → Rose (D.view disk.old).faults (D.view disk.new).faults }
    // And a fault that was counted is told: Done only where no count rose.
    ensures still { result.status ≡ Status.Done → (S.faults source.new ≡ S.faults source.old) × (K.faults sink.new ≡ K.faults sink.old)
        × ((D.view disk.new).faults ≡ (D.view disk.old).faults) }
{
    match plan_of(alloc, words) {
        Ok(plan) => match plan.mode {
            Mode::Crowd => {
                let builder = Builder::new(rt, plan.pieces, hook);
                crowd(rt, alloc, &plan, &builder, hook, source, sink, disk)
            }
            Mode::Run => serve(rt, alloc, &plan, source, sink, disk, hook),
            Mode::Bench => serve(rt, alloc, &plan, source, sink, disk, hook),
        },
        Err(error) => ended(alloc, status_of(error)),
    }
}

/// Does what a plan of the mode `run` or `bench` asks for, and waits for nobody but for the build of a large merge. The mode `crowd`
/// has to wait: nothing is done then, and the status is Usage.
pub fn serve<S: Source<K>, K: Sink<D>, D: Disk + Send, H: Hook + Sync>(
    rt: &(impl Threads + Sync),
    alloc: Global,
    plan: &Plan,
    source: &mut S,
    sink: &mut K,
    disk: &mut D,
    hook: &H,
) -> Report
    requires range { IsInRange plan.now }
    ensures ran { ServesPlan plan.now
        (record { source = S.left source.old; asks = S.asks source.old; reads = S.faults source.old; sink = K.held sink.old; marks = K.moments sink.old; writes = K.faults sink.old; disk = D.view disk.old })
        (record { source = S.left source.new; asks = S.asks source.new; reads = S.faults source.new; sink = K.held sink.new; marks = K.moments sink.new; writes = K.faults sink.new; disk = D.view disk.new })
        result.status result.lines result.acks.items result.journal }
{
    let builder = Builder::new(rt, plan.pieces, hook);
    match plan.mode {
        Mode::Run => run(alloc, plan, &builder, source, sink, disk),
        Mode::Bench => bench(alloc, plan, &builder, sink, disk),
        Mode::Crowd => ended(alloc, Status::Usage),
    }
}

// What the program says where the words have no plan.
fn status_of(error: WordsError) -> Status
    ensures { WordsStatus error result }
{
    match error {
        WordsError::Usage => Status::Usage,
        WordsError::Memory => Status::Memory,
    }
}
