//! Making the store, or opening it.
ghost use Rattle.std.specs.Prelude.{◌≡◌, ◌≤◌, ◌^◌, IfOk, IfErr};
ghost use Rattle.ut_engine.specs.Beginning.{disk_left, loan_left};
ghost use Rattle.ut_run.specs.Plans.{start_of};
ghost use Rattle.ut_run.specs.Beginning.{Begun, NotBegun, OpenStatus};

use crate::report::Status;
use std::alloc::Global;
use ut_engine::{Engine, OpenError, Unopened};
use ut_outside::Disk;
use ut_words::Plan;

/// Whether the store is made, or opened.
#[derive(Clone, Copy, Debug, PartialEq, Eq)]
pub enum Start {
    New,
    Open,
}

/// What a plan asks of the store.
pub fn start_of(plan: &Plan) -> Start
    ensures { result ≡ start_of plan.now }
{
    if plan.fresh { Start::New } else { Start::Open }
}

/// Makes the store or opens it, over the disk, for so many rows at most; where it can't, the disk is handed back with the cause.
pub fn begin<'d, D: Disk>(
    alloc: Global,
    start: Start,
    rows: u32,
    disk: &'d mut D,
) -> Result<Engine<'d, D>, Unopened<'d, D>>
    requires { rows ≤ 2 ^ 31 }
    ensures begun { IfOk result (λ e. Begun start rows (D.view disk.old) (D.view e.disk) e.store) }
    ensures not_begun { IfErr result (λ u. (status : Status) → OpenStatus u.cause status → NotBegun start (D.view disk.old) (D.view u.disk.now) status) }
    ensures told { (D.view (disk_left result)).told ≡ (D.view disk.old).told }
    ensures later { (D.view disk.old).faults ≤ (D.view (disk_left result)).faults }
    ensures loan { loan_left result ≡ disk.entry.ghost_name }
{
    match start {
        Start::New => Engine::make(alloc, disk, rows),
        Start::Open => Engine::open(alloc, disk, rows),
    }
}

/// What the program says where a store can't be made or opened.
pub fn open_status(error: OpenError) -> Status
    ensures { OpenStatus error result }
{
    match error {
        OpenError::Made => Status::Exists,
        OpenError::NotMade => Status::NoStore,
        OpenError::Damaged => Status::Damaged,
        OpenError::Disk => Status::DiskFault,
        OpenError::Memory => Status::Memory,
    }
}
