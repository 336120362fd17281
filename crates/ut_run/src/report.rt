//! How a run ended.
ghost use Rattle.std.specs.Prelude.{◌≡◌, []};

use std::alloc::Global;
use ut_outside::AckList;

/// Why the program ended.
#[derive(Clone, Copy, Debug, PartialEq, Eq)]
pub enum Status {
    /// Every line was answered, and all was written.
    Done,
    /// The words aren't taken.
    Usage,
    /// There is no store to open.
    NoStore,
    /// There is a store where one was to be made.
    Exists,
    /// The source failed.
    ReadFault,
    /// The sink failed.
    WriteFault,
    /// The disk failed.
    DiskFault,
    /// The files are no store's.
    Damaged,
    /// There was no memory to go on.
    Memory,
    /// A line is too long, or one too many.
    TooLong,
}

/// What a run came to.
#[derive(Drop)]
pub struct Report {
    pub status: Status,
    /// The lines that were read and answered, the one included at which the run ended.
    pub lines: u64,
    /// One for each reply whose writing began, in order.
    pub acks: AckList,
    /// The length of the journal after the last line without a fault of the disk; 0 where no store was opened.
    pub journal: u64,
}

/// A run that ended before the first line was read.
pub fn ended(alloc: Global, status: Status) -> Report
    ensures status { result.status ≡ status }
    ensures lines { result.lines ≡ 0 }
    ensures acks { result.acks.items ≡ [] }
    ensures journal { result.journal ≡ 0 }
{
    Report {
        status,
        lines: 0,
        acks: AckList::new(alloc),
        journal: 0,
    }
}
