//! What a task comes to in memory.
ghost use Rattle.std.specs.Prelude.{◌≡◌};
ghost use Rattle.ut_store.specs.Outcomes.{response_of};

use crate::Response;
use ut_merge::Job;
use ut_plain::{Refusal, Reply, Shape};

/// What a task comes to. A table that was made, a commit, rows that a commit of their own changed and a merge that began have an
/// entry, which the store's frame spells.
#[derive(Drop)]
pub enum Outcome {
    /// A table was made, by the commit of this number.
    Created(u32),
    /// So many rows were changed; where they are a transaction by themselves, by the commit of this number.
    Changed { rows: u32, commit: Option<u32> },
    /// What a question is told.
    Told(Reply),
    /// A transaction began, or is over and leaves nothing.
    Done,
    /// A transaction was committed, as the commit of this number.
    Committed(u32),
    /// So many rows were moved to a second stage.
    Moved(u32),
    /// A merge began, whose job this is.
    Merging(Job),
    Shape(Shape),
    Refused(Refusal),
}

impl Outcome {
    /// The reply, and whether the store's frame goes before it. The job of a merge is given up.
    pub fn response(self) -> Response
        ensures { result ≡ response_of self }
    {
        match self {
            Outcome::Created(number) => Response::Append(Reply::Committed(number)),
            Outcome::Changed { rows, commit } => changed(rows, commit),
            Outcome::Told(reply) => Response::Answered(reply),
            Outcome::Done => Response::Answered(Reply::Done),
            Outcome::Committed(number) => Response::Append(Reply::Committed(number)),
            Outcome::Moved(rows) => Response::Answered(Reply::Moved(rows)),
            Outcome::Merging(job) => Response::Append(Reply::Merge(job.number())),
            Outcome::Shape(shape) => Response::Answered(Reply::Shape(shape)),
            Outcome::Refused(why) => Response::Answered(Reply::Refused(why)),
        }
    }
}

// Rows that a commit of their own changed have an entry.
fn changed(rows: u32, commit: Option<u32>) -> Response
    ensures { result ≡ response_of (Outcome.Changed rows commit) }
{
    let reply = Reply::Changed { rows, commit };
    match commit {
        Some(_) => Response::Append(reply),
        None => Response::Answered(reply),
    }
}
