//! What typed answers are told as.
ghost use Rattle.std.specs.Prelude.{◌≡◌};
ghost use Rattle.ut_engine.specs.Merging.{begin_reply, end_reply};
ghost use Rattle.ut_engine.specs.Savepoints.{flip_reply, save_reply, told_of};

use crate::error::{BeginError, PhaseError, SaveError};
use ut_merge::Job;
use ut_outside::Failed;
use ut_plain::{Progress, Refusal, Reply, Why};

/// The reply to the begin of a merge into main.
pub fn begin_reply(answer: &Result<Job, BeginError>) -> Reply
    ensures { result ≡ begin_reply answer.now }
{
    match answer {
        Ok(job) => Reply::Merge(job.number()),
        Err(BeginError::Name) => Reply::Refused(Refusal::Name),
        Err(BeginError::Busy(number)) => Reply::Refused(Refusal::State(Why::Busy(*number))),
        Err(BeginError::Full) => Reply::Refused(Refusal::Full),
        Err(BeginError::Memory) => Reply::Refused(Refusal::Memory),
        Err(BeginError::Disk) => Reply::DiskFault,
    }
}

/// The reply to its end.
pub fn end_reply(answer: Result<u32, Failed>) -> Reply
    ensures { result ≡ end_reply answer }
{
    match answer {
        Ok(number) => Reply::Merge(number),
        Err(_) => Reply::DiskFault,
    }
}

/// The reply to the begin of a savepoint.
pub(crate) fn save_reply(answer: Result<u32, SaveError>) -> Reply
    ensures { result ≡ save_reply answer }
{
    match answer {
        Ok(pages) => Reply::Saving { done: 0, pages },
        Err(SaveError::State(why)) => Reply::Refused(Refusal::State(why)),
        Err(SaveError::Full) => Reply::Refused(Refusal::Full),
        Err(SaveError::Memory) => Reply::Refused(Refusal::Memory),
        Err(SaveError::Disk) => Reply::DiskFault,
    }
}

/// The reply to the choice of its root.
pub(crate) fn flip_reply(answer: Result<u32, PhaseError>) -> Reply
    ensures { result ≡ flip_reply answer }
{
    match answer {
        Ok(entries) => Reply::Root(entries),
        Err(PhaseError::State(why)) => Reply::Refused(Refusal::State(why)),
        Err(PhaseError::Disk) => Reply::DiskFault,
    }
}

/// What is told of a savepoint that is so far.
pub(crate) fn told(progress: Progress) -> Reply
    ensures { result ≡ told_of progress }
{
    match progress {
        Progress::Idle => Reply::Done,
        Progress::Writing { done, pages } => Reply::Saving { done, pages },
        Progress::Sealed { pages } => Reply::Sealed(pages),
    }
}
