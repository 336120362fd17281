//! The store and the disk that it is lent.
ghost use Rattle.std.specs.Prelude.{◌≡◌, ◌<◌, ◌≤◌, ◌^◌, ℕ, false, IfOk, IsTrue};
ghost use Rattle.ut_plain.specs.declared.reply.Reply.TheVariants as replies;
ghost use Rattle.ut_plain.specs.declared.statement.Statement.TheVariants as statements;
ghost use Rattle.ut_plain.specs.Spelled.{is_spelled};
ghost use Rattle.ut_store.specs.Standing.{suits_session};
ghost use Rattle.ut_engine.specs.Restoring.{Restores};
ghost use Rattle.ut_engine.specs.Saves.{HasPlanned};
ghost use Rattle.ut_engine.specs.Serves.{Serves};
ghost use Rattle.ut_engine.specs.Beginning.{disk_left, loan_left, store_or_cause, Makes, Reopens};

use crate::logged::LoggedStore;
use crate::unopened::Unopened;
use std::alloc::{AllocError, Global};
use std::marker::Model;
use ut_merge::{Build, Built, Job};
use ut_names::{Bound, statement_copy};
use ut_nextid::ending_of;
use ut_outside::Disk;
use ut_plain::{Refusal, Reply, Statement};

/// A store over a disk that it is lent for as long as it serves. While it isn't down it runs from some plain state.
pub struct Engine<'d, D: Disk> {
    pub(crate) disk: &'d mut D,
    pub(crate) store: LoggedStore,
}

// One step of a proof, wherever one is dropped.
impl<'d, D: Disk> Drop for Engine<'d, D> {
    fn drop(self) {
        let Engine { disk: _, store: _ } = self;
    }
}

impl<'d, D: Disk> Model for Engine<'d, D> {
    ghost use Rattle.std.specs.Prelude.{◌≡◌, false};
    ghost use Rattle.ut_plain.specs.Plain.{Plain};
    ghost use Rattle.ut_engine.specs.Runs.{Runs};
    ghost use Rattle.ut_engine.specs.Lent.{Lent};

    ghost Value = { Lent D };

    ghost view = { λ e. record { disk = e.disk.now; loan = e.disk.ghost_name; store = e.store } };

    ghost invariant = { λ e. e.store.down ≡ false → (p : Plain) × Runs e.store (D.view e.disk.now) p };
}

impl<'d, D: Disk> Engine<'d, D> {
    /// Makes the files of a store without tables, which gives at most so many ids. Where it can't, the disk is handed back.
    #[tactic(auto, using(crate::proofs::LentLemmas::made_runs))]
    pub fn make(alloc: Global, disk: &'d mut D, rows: u32) -> Result<Engine<'d, D>, Unopened<'d, D>>
        requires { rows ≤ 2 ^ 31 }
        ensures makes { Makes rows (D.view disk.old) (D.view (disk_left result)) (store_or_cause result) }
        ensures loan { loan_left result ≡ disk.entry.ghost_name }
    {
        match LoggedStore::make(alloc, disk, rows) {
            Ok(store) => Ok(Engine { disk, store }),
            Err(cause) => Err(Unopened { cause, disk }),
        }
    }

    /// Opens a store with what its files say. It writes nothing. Where it can't, the disk is handed back.
    #[tactic(auto, using(crate::proofs::LentLemmas::opened_runs, crate::proofs::RestoringLemmas::opened_restores))]
    pub fn open(alloc: Global, disk: &'d mut D, rows: u32) -> Result<Engine<'d, D>, Unopened<'d, D>>
        requires { rows ≤ 2 ^ 31 }
        ensures opens { Reopens rows (D.view disk.old) (D.view (disk_left result)) (store_or_cause result) }
        // Of files that held a prefix of a journal it has the rows and the commits of one.
        ensures restores { IfOk (store_or_cause result) (λ e. Restores e (D.view disk.old) (D.view (disk_left result))) }
        ensures loan { loan_left result ≡ disk.entry.ghost_name }
    {
        match LoggedStore::open(alloc, disk, rows) {
            Ok(store) => Ok(Engine { disk, store }),
            Err(cause) => Err(Unopened { cause, disk }),
        }
    }

    /// Answers a statement of a session, whose values it takes: a change only once its entry is on the disk. Where it ends a merge,
    /// the builder builds the new part first. A commit and an abort take no memory.
    pub fn answer<B: Build>(
        &mut self,
        alloc: Global,
        builder: &B,
        session: u8,
        st: Statement,
    ) -> Reply
        requires ready { B.ready builder.now }
        requires seat { session < 17 }
        requires suits { IsTrue (suits_session session st) }
        requires spelled { IsTrue (is_spelled st) }
        requires up { self.old.store.down ≡ false }
        ensures serves { Serves self.old.store (D.view self.old.disk) session st result self.new.store (D.view self.new.disk) }
        // The drop of a savepoint calls no disk.
        ensures dropped { st ≡ statements.SaveDrop → self.new.disk ≡ self.old.disk }
        // A begun savepoint takes the least pages that aren't reached.
        ensures planned { st ≡ statements.SaveBegin → (pages : ℕ) → result ≡ replies.Saving 0 pages → HasPlanned self.old.store self.new.store.saving pages }
        ensures loan { self.new.loan ≡ self.old.loan }
    {
        let ending = ending_of(&st);
        match self.store.store.bind(alloc, st) {
            Ok(Bound::Task(task)) => {
                let before = self.store.store.next_id();
                let outcome = self.store.store.execute(alloc, session, task);
                let response = outcome.response();
                self.store
                    .conclude(self.disk, session, ending, before, response)
            }
            Ok(Bound::MergeEnd) => self.build_and_end(alloc, builder),
            Ok(Bound::Save(piece)) => self.store.save(alloc, self.disk, piece),
            Err(why) => Reply::Refused(why),
        }
    }

    /// Answers a copy of a statement. It builds nothing: the end of a merge that is pending is refused for want of memory.
    pub fn statement(&mut self, alloc: Global, session: u8, st: &Statement) -> Reply
        requires seat { session < 17 }
        requires suits { IsTrue (suits_session session st.now) }
        requires spelled { IsTrue (is_spelled st.now) }
        requires up { self.old.store.down ≡ false }
        ensures serves { Serves self.old.store (D.view self.old.disk) session st.now result self.new.store (D.view self.new.disk) }
        // The drop of a savepoint calls no disk.
        ensures dropped { st.now ≡ statements.SaveDrop → self.new.disk ≡ self.old.disk }
        // A begun savepoint takes the least pages that aren't reached.
        ensures planned { st.now ≡ statements.SaveBegin → (pages : ℕ) → result ≡ replies.Saving 0 pages → HasPlanned self.old.store self.new.store.saving pages }
        ensures loan { self.new.loan ≡ self.old.loan }
    {
        match statement_copy(alloc, st) {
            Ok(st) => self.answer(alloc, &NoBuilder, session, st),
            Err(_) => Reply::Refused(Refusal::Memory),
        }
    }

    /// The disk's moment.
    pub fn moment(&self) -> u64
        ensures { result ≡ (D.view self.now.disk).moment }
    {
        self.disk.calls()
    }

    /// The disk.
    pub fn disk(&self) -> &D
        ensures { result.now ≡ self.now.disk }
    {
        self.disk
    }

    /// How many entries the journal has.
    pub fn journal_len(&self) -> u32
        ensures { result ≡ self.now.store.store.counts.entries }
    {
        self.store.store.entries()
    }

    /// How many tables were made and transactions committed.
    pub fn commits(&self) -> u32
        ensures { result ≡ self.now.store.store.counts.commits }
    {
        self.store.store.commits()
    }

    /// Whether the disk has failed. Then the store has to be opened again.
    pub fn down(&self) -> bool
        ensures { result ≡ self.now.store.down }
    {
        self.store.down
    }

    /// Gives the disk back. A caller knows the disk's end only through this call.
    pub fn release(self) -> &'d mut D
        ensures loan { result.ghost_name ≡ self.entry.loan }
        ensures disk { result.now ≡ self.entry.disk }
    {
        let Engine { disk, store: _ } = self;
        disk
    }
}

/// Builds nothing, as one who has no memory: for callers whose statements end no merge.
#[derive(Drop)]
pub struct NoBuilder;

impl Build for NoBuilder {
    ghost ready = { λ _. Unit {0} };

    ghost lacks = { λ _ _. Unit {0} };

    fn build(&self, _: Global, _: &Job) -> Result<Built, AllocError> {
        Err(AllocError)
    }
}

/// An engine may be sent to another thread, where its disk may.
pub fn engine_is_sent<'d, D: Disk + Send>(engine: &Engine<'d, D>) {
    sent(engine);
}

fn sent<T: Send>(_: &T) {}
