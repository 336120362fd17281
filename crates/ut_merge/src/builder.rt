//! Who builds: for callers that start no threads.
ghost use Rattle.std.specs.Prelude.{◌≡◌, ◌≤◌, IfOk, IsErr};
ghost use Rattle.std.specs.Thread.{IsSync};
ghost use Rattle.ut_merge.specs.Jobs.{JobValue};

use crate::building::build;
use crate::built::Built;
use crate::job::Job;
use std::alloc::{AllocError, Global};
use std::thread::Threads;
use ut_outside::Hook;

/// Builds what a merge began. A caller passes it on without a handle for threads.
pub trait Build {
    /// What has to be known of a builder's handles before it builds. A `main` or a test that makes
    /// a `Builder` knows it, and whoever takes a builder from there requires it.
    ghost ready: { Self → Type 0 };

    /// What is known where a job isn't built.
    ghost lacks: { Self → JobValue → Type 0 };

    /// The new part of a job, and with it main as it is behind the merge. The job stays as it is,
    /// also where memory is refused, and may be built again.
    fn build(&self, alloc: Global, job: &Job) -> Result<Built, AllocError>
        requires { ready self.now }
        ensures built { IfOk result (λ built. built ≡ job.now) }
        ensures lacks { IsErr result → lacks self.now job.now };
}

/// Builds in a number of pieces on threads, and calls a hook behind each build.
#[derive(Drop)]
pub struct Builder<'a, R, H> {
    rt: &'a R,
    pieces: u32,
    hook: &'a H,
    ghost number: { (1 ≤ pieces) × (pieces ≤ 64) },
}

impl<'a, R, H> Builder<'a, R, H> {
    pub fn new(rt: &'a R, pieces: u32, hook: &'a H) -> Self
        requires { (1 ≤ pieces) × (pieces ≤ 64) }
    {
        Builder { rt, pieces, hook }
    }

    /// Builds in one piece, on the caller's thread.
    pub fn alone(rt: &'a R, hook: &'a H) -> Self {
        Builder {
            rt,
            pieces: 1,
            hook,
        }
    }
}

impl<R: Threads + Sync, H: Hook> Build for Builder<'_, R, H> {
    /// Its handle may be shared among threads.
    ghost ready = { λ _. IsSync R.row };

    /// Memory was wanting, of which nothing is said.
    ghost lacks = { λ _ _. Unit {0} };

    fn build(&self, alloc: Global, job: &Job) -> Result<Built, AllocError> {
        build(self.rt, alloc, job, self.pieces, self.hook)
    }
}
