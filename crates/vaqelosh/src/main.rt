//! The program: it answers a script of statements from the standard input, over the store of the working folder.
#![tactic(auto)]

use std::io;
use std::process::ExitCode;
use ut_files::{RealDisk, StdSink, StdSource, WorkingFolder};
use ut_program::{ProcessWords, program};

fn main(rt: HostRuntime) -> ExitCode {
    let mut source = StdSource::new(rt.reader());
    let mut sink = StdSink::new(io::writer(&rt));
    let mut disk = RealDisk::new(WorkingFolder::new(&rt));
    let words = ProcessWords::new(&rt);
    program(&rt, &words, &mut source, &mut sink, &mut disk)
}
