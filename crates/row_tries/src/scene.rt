//! The run of a row, over the files before it.
use check_run::run::{PIECE, RUN, Ran, copy_of, run_between, run_on};
use row_files::Row;
use std::alloc::{AllocError, Global};
use std::sync::Wait;
use std::thread::Threads;
use ut_outside::{MemDisk, MemSink, MemSource};

/// The words that a row is run with, its script, what its store is asked that is opened again, and the files before it.
#[derive(Clone, Copy)]
pub(crate) struct Scene<'r, 'a> {
    pub row: &'r Row<'a>,
    pub words: &'r [&'r str],
    pub script: &'r [u8],
    pub question: &'r [u8],
    pub before: &'r MemDisk,
}

impl<'r, 'a> Scene<'r, 'a> {
    /// Runs the row on a disk.
    pub(crate) fn run_on(
        self,
        rt: &(impl Threads + Wait + Sync),
        alloc: Global,
        disk: &mut MemDisk,
    ) -> Result<Ran, AllocError> {
        self.run_into(rt, alloc, MemSink::new(alloc, None), disk)
    }

    /// Runs the row into a sink.
    pub(crate) fn run_into(
        self,
        rt: &(impl Threads + Wait + Sync),
        alloc: Global,
        sink: MemSink,
        disk: &mut MemDisk,
    ) -> Result<Ran, AllocError> {
        let mut source = MemSource::new(alloc, self.script, PIECE, self.row.source)?;
        run_between(rt, alloc, self.words, &mut source, sink, disk)
    }

    /// A disk with the files before the run.
    pub(crate) fn disk(self, alloc: Global) -> Result<MemDisk, AllocError> {
        copy_of(alloc, self.before)
    }

    /// Opens the store of a disk, and asks the question.
    pub(crate) fn asked_on(
        self,
        rt: &(impl Threads + Wait + Sync),
        alloc: Global,
        disk: &mut MemDisk,
    ) -> Result<Ran, AllocError> {
        run_on(rt, alloc, RUN, self.question, disk)
    }
}
