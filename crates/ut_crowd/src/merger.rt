//! A merger's turns: rows move to a second stage, a merge into main begins, and the one that was built ends.
ghost use Rattle.std.specs.Prelude.{◌≡◌, ◌+◌, ◌<◌, ◌≤◌, false, None, Some, length, ◌⊎◌, IsTrue, IsSome, IfOk, IfSome, IfNone};
ghost use Rattle.ut_value.specs.Text.{is_name};
ghost use Rattle.ut_plain.specs.declared.statement.Parsed.TheVariants.{Good};
ghost use Rattle.ut_plain.specs.declared.statement.Statement.TheVariants.{MergeL1, MergeBegin, MergeEnd};
ghost use Rattle.ut_plain.specs.Plain.{Plain};
ghost use Rattle.ut_store.specs.Jobs.{pending_job};
ghost use Rattle.ut_store.specs.Stands.{StandsFor};
ghost use Rattle.ut_gate.specs.Turns.{AddsOne, KeepsJob};
ghost use Rattle.ut_engine.specs.Runs.{Runs};
ghost use Rattle.ut_course.specs.Coming.{Comes};
ghost use Rattle.ut_crowd.specs.Asking.{first_full, is_refusal, kind_of_merge, merge_due, second_full, table_at};
ghost use Rattle.ut_crowd.specs.Keepers.{AsksDue, BringsJob, EndsJob, IsDated, IsMergeDue, IsShared, KeepsUp, ended};
ghost use Rattle.ut_crowd.specs.Queues.{IsOver};
ghost use Rattle.ut_crowd.specs.Ripe.{is_called, place_of, ripe_of};
ghost use Rattle.ut_crowd.specs.Standing.{StandsOn};
ghost use Rattle.ut_crowd.specs.Waking.{calls_merger};

use crate::book::Asked;
use crate::hall::{Hall, Opening, kept_after, turn_of};
use std::alloc::{AllocError, Global};
use ut_course::end_merge;
use ut_crew::{Build as Builds, Kept};
use ut_engine::{Engine, begin_reply};
use ut_gate::{Act, Slip};
use ut_merge::{Build, Built, Job};
use ut_outside::{Disk, Hook, Point};
use ut_plain::{Reply, Statement};
use ut_value::{MergeKind, Name};

/// Moves rows of a first stage that is full, or begins a merge of a second one; then it builds, outside the turns.
#[derive(Drop)]
pub struct Merger<'a, B: Build, H> {
    pub alloc: Global,
    pub builder: &'a B,
    pub hook: &'a H,
}

impl<'a, 'd, D: Disk + Send, O: Opening + Send, B: Build, H: Hook> Act<Hall<'d, D, O>>
    for Merger<'a, B, H> {
    ghost use Rattle.std.specs.Prelude.{◌≡◌, None};
    ghost use Rattle.ut_crowd.specs.Keepers.{BringsJob, IsDated, IsMergeDue, KeepsUp};
    ghost use Rattle.ut_crowd.specs.Queues.{IsOver};

    type Answer = Kept;

    ghost relates = { λ _ _ x y _ slip answer.
        KeepsUp (IsOver x.stopped x.engine.store x.queues.items) (IsMergeDue x.l1 x.save_waits x.engine.store (D.view x.engine.disk)) (BringsJob slip.job) false x.stopped y.stopped y.engine.store.down x.book.items y.book.items answer
        × IsDated (D.view y.engine.disk).moment x.book.items y.book.items
        × (y.save_waits ≡ x.save_waits) };

    ghost asks = { λ _ s. s.job ≡ None };

    fn run(&mut self, value: &mut Hall<'d, D, O>, slip: &mut Slip<Job>) -> Kept {
        let (kept, job) = value.take_job();
        slip.job = job;
        kept
    }
}

impl<'a, 'd, D: Disk + Send, O: Opening + Send, B: Build, H: Hook> Builds<Hall<'d, D, O>>
    for Merger<'a, B, H> {
    type End = EndJob;

    ghost ready = { λ m. B.ready m.builder.now };

    ghost unbuilt = { λ m job. B.lacks m.builder.now job };

    fn build(&self, job: &Job) -> Option<EndJob> {
        self.hook.reach(Point::JobTaken);
        match self.builder.build(self.alloc, job) {
            Ok(built) => Some(EndJob { built: Some(built) }),
            Err(_) => None,
        }
    }
}

/// Ends the merge whose job was built.
#[derive(Drop)]
pub struct EndJob {
    pub built: Option<Built>,
}

impl<'d, D: Disk + Send, O: Opening + Send> Act<Hall<'d, D, O>> for EndJob {
    ghost use Rattle.std.specs.Prelude.{◌≡◌, Some};
    ghost use Rattle.ut_merge.specs.Jobs.{JobValue};
    ghost use Rattle.ut_crowd.specs.Keepers.{EndsJob, IsDated};

    type Answer = Kept;

    ghost relates = { λ _ _ x y _ slip answer.
        EndsJob y.stopped y.engine.store.down x.book.items y.book.items slip.job answer
        × IsDated (D.view y.engine.disk).moment x.book.items y.book.items
        × (y.save_waits ≡ x.save_waits) };

    ghost asks = { λ e s. (job : JobValue) × (e.built ≡ Some job) × (s.job ≡ Some job) };

    fn run(&mut self, value: &mut Hall<'d, D, O>, slip: &mut Slip<Job>) -> Kept {
        let Some(built) = self.built.take() else {
            return Kept::Over; // it has run before
        };
        let kept = value.end_job(built);
        if value.job.is_none() {
            slip.job = None;
        }
        kept
    }
}

/// A table whose rows are to be merged, by its place.
#[derive(Clone, Copy, Debug, PartialEq, Eq)]
enum Ripe {
    First(usize),
    Second(usize),
}

impl<'d, D: Disk, O: Opening> Hall<'d, D, O> {
    /// A merge of the first table whose first stage is full, or else its second; of the latter the job is handed out. None into main
    /// begins while a savepoint waits for its turn.
    pub(crate) fn take_job(&mut self) -> (Kept, Option<Job>)
        requires stands { StandsOn O.ground self.old.queues.items self.old.book.items self.old.engine.loan (D.view self.old.engine.disk) self.old.engine.store self.old.job self.old.l1 self.old.last }
        ensures stands { StandsOn O.ground self.new.queues.items self.new.book.items self.new.engine.loan (D.view self.new.engine.disk) self.new.engine.store self.new.job self.new.l1 self.new.last }
        ensures book { AddsOne self.old.book.items self.new.book.items }
        ensures job { KeepsJob self.old.job self.new.job None result.1 }
        ensures kept { KeepsUp (IsOver self.old.stopped self.old.engine.store self.old.queues.items) (IsMergeDue self.old.l1 self.old.save_waits self.old.engine.store (D.view self.old.engine.disk)) (BringsJob result.1) false self.old.stopped self.new.stopped self.new.engine.store.down self.old.book.items self.new.book.items result.0 }
        ensures dated { IsDated (D.view self.new.engine.disk).moment self.old.book.items self.new.book.items }
        ensures waits { self.new.save_waits ≡ self.old.save_waits }
    {
        if self.is_over() {
            return (Kept::Over, None);
        }
        if self.engine.pending().is_some() {
            return (Kept::Idle, None);
        }
        match first_ripe(&self.engine, self.l1) {
            None => (Kept::Idle, None),
            Some(Ripe::First(place)) => (self.move_rows(place), None),
            Some(Ripe::Second(place)) => {
                if self.save_waits {
                    return (Kept::Idle, None);
                }
                self.begin_merge(place)
            }
        }
    }

    /// Whether a merger that sleeps would do something at its turn.
    pub(crate) fn calls_merger(&self) -> bool
        requires up { self.now.engine.store.down ≡ false }
        ensures { (p : Plain) → Runs self.now.engine.store (D.view self.now.engine.disk) p → calls_merger self.now.l1 self.now.save_waits p ≡ result }
    {
        if self.engine.pending().is_some() {
            return false;
        }
        is_called(self.save_waits, first_ripe(&self.engine, self.l1))
    }

    // Moves rows of the first stage of the table at a place. Its name is a part of the turn, so want of memory for it is want of room.
    fn move_rows(&mut self, place: usize) -> Kept
        requires there { place < length self.old.engine.store.store.rows.tables }
        requires up { self.old.engine.store.down ≡ false }
        requires going { self.old.stopped ≡ false }
        requires due { (p : Plain) → Runs self.old.engine.store (D.view self.old.engine.disk) p → merge_due self.old.l1 p ≡ Some (MergeL1 (table_at p place) self.old.l1) }
        requires stands { StandsOn O.ground self.old.queues.items self.old.book.items self.old.engine.loan (D.view self.old.engine.disk) self.old.engine.store self.old.job self.old.l1 self.old.last }
        ensures stands { StandsOn O.ground self.new.queues.items self.new.book.items self.new.engine.loan (D.view self.new.engine.disk) self.new.engine.store self.new.job self.new.l1 self.new.last }
        ensures book { AddsOne self.old.book.items self.new.book.items }
        ensures kept { AsksDue (IsMergeDue self.old.l1 self.old.save_waits self.old.engine.store (D.view self.old.engine.disk)) (BringsJob None) false self.new.stopped self.new.engine.store.down self.old.book.items self.new.book.items result }
        ensures dated { IsDated (D.view self.new.engine.disk).moment self.old.book.items self.new.book.items }
        ensures job { self.new.job ≡ self.old.job }
        ensures waits { self.new.save_waits ≡ self.old.save_waits }
    {
        match copied(self.alloc, self.engine.table_name(place)) {
            Ok(table) => self.ask(Statement::MergeL1 { table, n: self.l1 }),
            Err(_) => {
                self.stopped = true;
                Kept::Over
            }
        }
    }

    // Begins a merge of the table at a place, and hands out its job. Where there is no memory to keep a share of the job, the merge
    // stays pending, and the crowd is stopped.
    fn begin_merge(&mut self, place: usize) -> (Kept, Option<Job>)
        requires there { place < length self.old.engine.store.store.rows.tables }
        requires up { self.old.engine.store.down ≡ false }
        requires going { self.old.stopped ≡ false }
        requires none { self.old.job ≡ None }
        requires due { (p : Plain) → Runs self.old.engine.store (D.view self.old.engine.disk) p → merge_due self.old.l1 p ≡ Some (MergeBegin (table_at p place) (kind_of_merge (self.old.engine.store.store.counts.merges + 1))) }
        requires now { self.old.save_waits ≡ false }
        requires stands { StandsOn O.ground self.old.queues.items self.old.book.items self.old.engine.loan (D.view self.old.engine.disk) self.old.engine.store self.old.job self.old.l1 self.old.last }
        ensures stands { StandsOn O.ground self.new.queues.items self.new.book.items self.new.engine.loan (D.view self.new.engine.disk) self.new.engine.store self.new.job self.new.l1 self.new.last }
        ensures book { AddsOne self.old.book.items self.new.book.items }
        ensures kept { AsksDue (IsMergeDue self.old.l1 self.old.save_waits self.old.engine.store (D.view self.old.engine.disk)) (BringsJob result.1) false self.new.stopped self.new.engine.store.down self.old.book.items self.new.book.items result.0 }
        ensures dated { IsDated (D.view self.new.engine.disk).moment self.old.book.items self.new.book.items }
        ensures job { result.1 ≡ self.new.job }
        ensures waits { self.new.save_waits ≡ self.old.save_waits }
    {
        let Ok(table) = copied(self.alloc, self.engine.table_name(place)) else {
            self.stopped = true;
            return (Kept::Over, None);
        };
        if self.book.reserve(1).is_err() {
            self.stopped = true;
            return (Kept::Over, None);
        }
        let kind = kind_after(self.engine.merges());
        let before = self.engine.journal_len();
        let (reply, job) = begin(self.alloc, &mut self.engine, &table, kind);
        let kept = kept_after(&reply, self.engine.down());
        let st = Statement::MergeBegin { table, kind };
        let turn = turn_of(&self.engine, 0, Asked::Store(st), before, reply);
        self.book.push_reserved(turn);
        self.share(kept, job)
    }

    // Keeps a share of a job that is handed out. Where there is no memory for one, the job isn't handed out and the crowd is stopped.
    fn share(&mut self, kept: Kept, job: Option<Job>) -> (Kept, Option<Job>)
        requires none { self.old.job ≡ None }
        requires over { IfNone job (kept ≡ Kept.Over) }
        requires pending { IfSome job (λ job. pending_job self.old.engine.store.store ≡ Some job) }
        requires stands { StandsOn O.ground self.old.queues.items self.old.book.items self.old.engine.loan (D.view self.old.engine.disk) self.old.engine.store self.old.job self.old.l1 self.old.last }
        ensures stands { StandsOn O.ground self.new.queues.items self.new.book.items self.new.engine.loan (D.view self.new.engine.disk) self.new.engine.store self.new.job self.new.l1 self.new.last }
        ensures kept { IsShared kept self.old.stopped result.0 self.new.stopped }
        ensures some { (result.0 ≡ Kept.Over → ⊥) → IsSome result.1 }
        ensures job { result.1 ≡ self.new.job }

        // What else the hall holds.
        ensures engine { self.new.engine ≡ self.old.engine }
        ensures book { self.new.book.items ≡ self.old.book.items }
        ensures waits { self.new.save_waits ≡ self.old.save_waits }
    {
        let Some(job) = job else {
            return (kept, None);
        };
        let Ok(share) = job.again(self.alloc) else {
            self.stopped = true;
            return (Kept::Over, None);
        };
        self.job = Some(share);
        (kept, Some(job))
    }

    /// Ends the pending merge with what was built of its job. The job stays where there is no turn for it.
    pub(crate) fn end_job(&mut self, built: Built) -> Kept
        requires job { self.old.job ≡ Some built }
        requires stands { StandsOn O.ground self.old.queues.items self.old.book.items self.old.engine.loan (D.view self.old.engine.disk) self.old.engine.store self.old.job self.old.l1 self.old.last }
        ensures stands { StandsOn O.ground self.new.queues.items self.new.book.items self.new.engine.loan (D.view self.new.engine.disk) self.new.engine.store self.new.job self.new.l1 self.new.last }
        ensures book { AddsOne self.old.book.items self.new.book.items }
        ensures job { IfSome self.new.job (λ job. job ≡ built) }
        ensures ends { EndsJob self.new.stopped self.new.engine.store.down self.old.book.items self.new.book.items self.new.job result }
        ensures dated { IsDated (D.view self.new.engine.disk).moment self.old.book.items self.new.book.items }
        ensures waits { self.new.save_waits ≡ self.old.save_waits }
    {
        if self.stopped || self.engine.down() {
            return Kept::Over;
        }
        if self.book.reserve(1).is_err() {
            self.stopped = true;
            return Kept::Over;
        }
        let before = self.engine.journal_len();
        let reply = end_pending(&mut self.engine, built);
        let turn = turn_of(
            &self.engine,
            0,
            Asked::Store(Statement::MergeEnd),
            before,
            reply,
        );
        self.book.push_reserved(turn);
        self.job = None;
        ended(self.engine.down())
    }
}

// The end of a pending merge with what was built of it, which isn't refused.
fn end_pending<D: Disk>(engine: &mut Engine<'_, D>, built: Built) -> Reply
    requires up { engine.old.store.down ≡ false }
    requires built { pending_job engine.old.store.store ≡ Some built }
    ensures comes { Comes engine.old.store (D.view engine.old.disk) (Good 0 MergeEnd) (Some 0) result engine.new.store (D.view engine.new.disk) }
    ensures taken { is_refusal result ≡ false }
    ensures loan { engine.new.loan ≡ engine.old.loan }
{
    end_merge(engine, built)
}

// The end of a merge lets the saver go on, which may have waited for it.
fn ended(down: bool) -> Kept
    ensures { result ≡ ended down }
{
    if down { Kept::Over } else { Kept::Due }
}

// The begin of a merge, as its reply, with its job.
#[tactic(auto, using(ut_course::proofs::ComeLemmas::comes_statement))]
fn begin<D: Disk>(
    alloc: Global,
    engine: &mut Engine<'_, D>,
    table: &Name,
    kind: MergeKind,
) -> (Reply, Option<Job>)
    requires up { engine.old.store.down ≡ false }
    ensures comes { Comes engine.old.store (D.view engine.old.disk) (Good 0 (MergeBegin table.now kind)) (Some 0) result.0 engine.new.store (D.view engine.new.disk) }
    ensures job { IfSome result.1 (λ job. pending_job engine.new.store.store ≡ Some job) }
    ensures none { IfNone result.1 (IsTrue (is_refusal result.0) ⊎ IsTrue engine.new.store.down) }
    ensures loan { engine.new.loan ≡ engine.old.loan }
{
    let answer = engine.merge_begin(alloc, table, kind);
    let reply = begin_reply(&answer);
    match answer {
        Ok(job) => (reply, Some(job)),
        Err(_) => (reply, None),
    }
}

// The kind of the merge behind so many: each fourth builds main anew, two behind it re-sorts it, and the others build its last part
// anew.
fn kind_after(merges: u32) -> MergeKind
    ensures { result ≡ kind_of_merge (merges + 1) }
{
    match merges % 4 {
        3 => MergeKind::Classic,
        1 => MergeKind::Resort,
        _ => MergeKind::Partial,
    }
}

// Whether a merger does something with such a table, while a savepoint waits or none does.
fn is_called(waited: bool, ripe: Option<Ripe>) -> bool
    ensures { result ≡ is_called waited ripe }
{
    match ripe {
        None => false,
        Some(Ripe::First(_)) => true,
        Some(Ripe::Second(_)) => !waited,
    }
}

// The first table whose first stage has so many rows, or else its second.
fn first_ripe<D: Disk>(engine: &Engine<'_, D>, rows: u32) -> Option<Ripe>
    requires up { engine.now.store.down ≡ false }
    ensures there { IfSome result (λ ripe. place_of ripe < length engine.now.store.store.rows.tables) }
    ensures each { (p : Plain) → StandsFor engine.now.store.store p → result ≡ ripe_of (first_full rows p.stages) (second_full rows p.stages) }
{
    match first_full(engine, rows) {
        Some(place) => Some(Ripe::First(place)),
        None => match second_full(engine, rows) {
            Some(place) => Some(Ripe::Second(place)),
            None => None,
        },
    }
}

// The first table with so many rows in its first stage.
fn first_full<D: Disk>(engine: &Engine<'_, D>, rows: u32) -> Option<usize>
    requires up { engine.now.store.down ≡ false }
    ensures there { IfSome result (λ place. place < length engine.now.store.store.rows.tables) }
    ensures each { (p : Plain) → StandsFor engine.now.store.store p → result ≡ first_full rows p.stages }
{
    for place in 0..engine.tables() {
        if engine.l1_len(place) >= rows {
            return Some(place);
        }
    }
    None
}

// And in its second.
fn second_full<D: Disk>(engine: &Engine<'_, D>, rows: u32) -> Option<usize>
    requires up { engine.now.store.down ≡ false }
    ensures there { IfSome result (λ place. place < length engine.now.store.store.rows.tables) }
    ensures each { (p : Plain) → StandsFor engine.now.store.store p → result ≡ second_full rows p.stages }
{
    for place in 0..engine.tables() {
        if engine.l2_len(place) >= rows {
            return Some(place);
        }
    }
    None
}

// A copy of a name, which keeps the rule of names.
fn copied(alloc: Global, name: &Name) -> Result<Name, AllocError>
    ensures copy { IfOk result (λ copy. copy ≡ name.now) }
    ensures rule { IsTrue (is_name name.now) }
{
    let _bytes = name.as_slice();
    name.copy(alloc)
}
