//! A run of the program with words that are told.
ghost use Rattle.std.specs.Prelude.{Some, map};

use check_run::run::new_disk;
use std::alloc::{AllocError, Global};
use std::process::Abort;
use std::sync::Wait;
use std::thread::Threads;
use ut_app::Status;
use ut_outside::{MemDisk, MemSink, MemSource, Which};
use ut_program::{Words, program};

/// Words that stand in memory.
#[derive(Drop)]
struct Listed<'a> {
    words: &'a [&'a str],
}

impl<'a> Words for Listed<'a> {
    ghost told = { λ l. Some (map (λ w. w.now) l.words.now) };

    fn words(&self, alloc: Global) -> Result<Vec<String>, Status> {
        let mut words = Vec::new(alloc);
        for word in self.words {
            match String::from_str(alloc, word) {
                Ok(word) => {
                    if words.push(word).is_err() {
                        return Err(Status::Memory);
                    }
                }
                Err(_) => return Err(Status::Memory),
            }
        }
        Ok(words)
    }
}

/// Ends the test where it is not so. It is one call in a test's proof.
fn holds(rt: &impl Abort, is_so: bool) {
    assert!(rt; is_so);
}

/// A store is made where the words say so, and only then is the line answered.
fn check_words(
    rt: &(impl Abort + AllocGlobal + Eprint + Threads + Wait + Sync),
    words: &[&str],
    is_made: bool,
    source: &mut MemSource,
    sink: &mut MemSink,
    disk: &mut MemDisk,
) {
    let _ = program(rt, &Listed { words: &*words }, source, sink, disk);
    holds(rt, disk.bytes(Which::Pages).is_empty() != is_made);
    holds(
        rt,
        (sink.bytes() == b"1 ok commit 1\n".as_slice()) == is_made,
    );
}

fn check_made(
    rt: &(impl Abort + AllocGlobal + Eprint + Threads + Wait + Sync),
    alloc: Global,
    words: &[&str],
    is_made: bool,
) -> Result<(), AllocError> {
    let mut disk = new_disk(alloc)?;
    let mut source = MemSource::new(alloc, b"1 create T k:int\n", 9, None)?;
    let mut sink = MemSink::new(alloc, None);
    check_words(rt, words, is_made, &mut source, &mut sink, &mut disk);
    Ok(())
}

#[test]
fn the_words_say_whether_a_store_is_made(rt: HostRuntime) -> Result<(), AllocError> {
    check_made(&rt, rt.alloc(), &["ut", "run"], false)?;
    check_made(&rt, rt.alloc(), &["ut", "run", "--new"], true)
}
