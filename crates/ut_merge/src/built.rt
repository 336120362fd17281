//! What was built of a job.
ghost use Rattle.std.specs.Prelude.{◌≡◌, ◌≢◌, ◌+◌, ◌≤◌, [], length, map, vec_len, vec_capacity};
ghost use Rattle.std.specs.List.Sorted.{IsPermutation};
ghost use Rattle.ut_merge.specs.Jobs.{kept_olds, main_of, new_rows, row_of, IsBuilt};

use crate::job::Job;
use crate::old::Old;
use std::marker::Model;
use ut_main::Main;
use ut_stamps::Stamp;
use ut_value::MergeKind;

/// What was built of a job. As a value it is the job that it was built of.
#[derive(Drop)]
pub struct Built {
    job: Job,
    main: Main,
    olds: Vec<Old>,
    stamps: Vec<Stamp>,
}

impl Model for Built {
    ghost use Rattle.std.specs.Prelude.{◌≡◌, ◌+◌, ◌≤◌, [], length, vec_len, vec_capacity};
    ghost use Rattle.ut_merge.specs.Jobs.{JobValue, IsBuilt};

    ghost Value = { JobValue };

    ghost view = { λ b. b.job };

    ghost invariant = { λ b. IsBuilt b.job b.main b.olds.items × (b.stamps.items ≡ [])
        × (vec_len b.stamps + length b.olds.items ≤ vec_capacity b.stamps) };
}

/// What a switch takes: main with the new part, the old place of each of its rows, and room for
/// their stamps.
#[derive(Drop)]
pub struct Parts {
    pub main: Main,
    pub olds: Vec<Old>,
    pub stamps: Vec<Stamp>,
}

impl Built {
    /// What was built of a job.
    pub(crate) fn of(job: Job, main: Main, olds: Vec<Old>, stamps: Vec<Stamp>) -> Self
        requires built { IsBuilt job main olds.items }
        requires empty { stamps.items ≡ [] }
        requires room { vec_len stamps + length olds.items ≤ vec_capacity stamps }
        ensures { result ≡ job }
    {
        Built {
            job,
            main,
            olds,
            stamps,
        }
    }

    pub fn number(&self) -> u32
        ensures { result ≡ self.now.head.number }
    {
        self.job.number()
    }

    /// What was built.
    pub fn take(self) -> Parts
        ensures main { result.main ≡ main_of self }
        ensures olds { IsPermutation (kept_olds self) result.olds.items }
        ensures rows { map (row_of self) result.olds.items ≡ new_rows self }
        ensures in_place { self.head.kind ≢ MergeKind.Resort → result.olds.items ≡ kept_olds self }
        ensures empty { result.stamps.items ≡ [] }
        ensures room { vec_len result.stamps + length result.olds.items ≤ vec_capacity result.stamps }
    {
        let Built {
            job,
            main,
            olds,
            stamps,
        } = self;
        drop(job);
        Parts { main, olds, stamps }
    }
}
