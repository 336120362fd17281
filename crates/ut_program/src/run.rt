//! A run with the words that the program is called with.
ghost use Rattle.std.specs.Prelude.{◌≡◌, ℕ, List, Option, Some, map, string_bytes, IfOk, IfErr};
ghost use Rattle.std.specs.Process.{exit_status};
ghost use Rattle.ut_run.specs.World.{World};
ghost use Rattle.ut_program.specs.Program.{Exits, Ends, HasNoWords, Tops, IsUnasked};

use crate::status::{exit_of, text_of};
use crate::words::Words;
use std::alloc::Global;
use std::process::ExitCode;
use std::sync::Wait;
use std::thread::Threads;
use ut_app::{Status, top};
use ut_outside::{Disk, NoHook, Sink, Source};

/// Answers the script of the source over the store of the disk, as the words say, and gives what the process exits with.
pub fn program<W: Words, S: Source<K>, K: Sink<D>, D: Disk + Send>(
    rt: &(impl AllocGlobal + Eprint + Threads + Wait + Sync),
    words: &W,
    source: &mut S,
    sink: &mut K,
    disk: &mut D,
) -> ExitCode
    ensures { Exits (W.told words.now)
        (record { source = S.left source.old; asks = S.asks source.old; reads = S.faults source.old; sink = K.held sink.old; marks = K.moments sink.old; writes = K.faults sink.old; disk = D.view disk.old })
        (record { source = S.left source.new; asks = S.asks source.new; reads = S.faults source.new; sink = K.held sink.new; marks = K.moments sink.new; writes = K.faults sink.new; disk = D.view disk.new })
        (exit_status result) }
{
    let status = run(rt, words, source, sink, disk);
    if let Some(text) = text_of(status) {
        let _ = eprintln!(rt; "ut_app: {text}");
    }
    ExitCode::from(exit_of(status))
}

// A run with the words.
fn run<W: Words, S: Source<K>, K: Sink<D>, D: Disk + Send>(
    rt: &(impl AllocGlobal + Threads + Wait + Sync),
    words: &W,
    source: &mut S,
    sink: &mut K,
    disk: &mut D,
) -> Status
    ensures { Ends (W.told words.now)
        (record { source = S.left source.old; asks = S.asks source.old; reads = S.faults source.old; sink = K.held sink.old; marks = K.moments sink.old; writes = K.faults sink.old; disk = D.view disk.old })
        (record { source = S.left source.new; asks = S.asks source.new; reads = S.faults source.new; sink = K.held sink.new; marks = K.moments sink.new; writes = K.faults sink.new; disk = D.view disk.new })
        result }
{
    let alloc = rt.alloc();
    match words.words(alloc) {
        Ok(list) => run_words(rt, alloc, &list, source, sink, disk),
        Err(status) => unasked(status, source, sink, disk),
    }
}

// A run with these words, if there is memory to hand them on.
fn run_words<S: Source<K>, K: Sink<D>, D: Disk + Send>(
    rt: &(impl Threads + Wait + Sync),
    alloc: Global,
    words: &[String],
    source: &mut S,
    sink: &mut K,
    disk: &mut D,
) -> Status
    ensures { Ends (Some (map string_bytes words.now))
        (record { source = S.left source.old; asks = S.asks source.old; reads = S.faults source.old; sink = K.held sink.old; marks = K.moments sink.old; writes = K.faults sink.old; disk = D.view disk.old })
        (record { source = S.left source.new; asks = S.asks source.new; reads = S.faults source.new; sink = K.held sink.new; marks = K.moments sink.new; writes = K.faults sink.new; disk = D.view disk.new })
        result }
{
    match texts_of(alloc, words) {
        Ok(texts) => answer(rt, alloc, &texts, source, sink, disk),
        Err(status) => unasked(status, source, sink, disk),
    }
}

// The words couldn't be had, and nothing is done.
fn unasked<S: Source<K>, K: Sink<D>, D: Disk>(
    status: Status,
    source: &mut S,
    sink: &mut K,
    disk: &mut D,
) -> Status
    ensures { (told : Option (List (List ℕ))) → IsUnasked status told → HasNoWords told
        (record { source = S.left source.old; asks = S.asks source.old; reads = S.faults source.old; sink = K.held sink.old; marks = K.moments sink.old; writes = K.faults sink.old; disk = D.view disk.old })
        (record { source = S.left source.new; asks = S.asks source.new; reads = S.faults source.new; sink = K.held sink.new; marks = K.moments sink.new; writes = K.faults sink.new; disk = D.view disk.new })
        result }
{
    status
}

// A run with these words.
fn answer<S: Source<K>, K: Sink<D>, D: Disk + Send>(
    rt: &(impl Threads + Wait + Sync),
    alloc: Global,
    words: &[&str],
    source: &mut S,
    sink: &mut K,
    disk: &mut D,
) -> Status
    ensures { Tops (map (λ w. w.now) words.now)
        (record { source = S.left source.old; asks = S.asks source.old; reads = S.faults source.old; sink = K.held sink.old; marks = K.moments sink.old; writes = K.faults sink.old; disk = D.view disk.old })
        (record { source = S.left source.new; asks = S.asks source.new; reads = S.faults source.new; sink = K.held sink.new; marks = K.moments sink.new; writes = K.faults sink.new; disk = D.view disk.new })
        result }
{
    top(rt, alloc, words, source, sink, disk, &NoHook).status
}

// The words as texts, each in its place.
fn texts_of(alloc: Global, words: &[String]) -> Result<Vec<&str>, Status>
    ensures all { IfOk result (λ texts. map (λ w. w.now) texts.items ≡ map string_bytes words.now) }
    ensures lacks { IfErr result (λ status. status ≡ Status.Memory) }
{
    let mut texts = Vec::new(alloc);
    for word in words {
        if texts.push(word.as_str()).is_err() {
            return Err(Status::Memory);
        }
    }
    Ok(texts)
}
