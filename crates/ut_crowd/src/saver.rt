//! A saver's turns: the pieces of a savepoint, one after the other.
ghost use Rattle.std.specs.Prelude.{◌≡◌, ◌&&◌, false, not, is_some, IsTrue, IfSome};
ghost use Rattle.ut_plain.specs.Spelled.{is_spelled};
ghost use Rattle.ut_store.specs.Standing.{is_of_store};
ghost use Rattle.ut_plain.specs.Plain.{Plain};
ghost use Rattle.ut_engine.specs.Runs.{Runs};
ghost use Rattle.ut_engine.specs.Savepoints.{progress_of};
ghost use Rattle.ut_gate.specs.Turns.{AddsOne};
ghost use Rattle.ut_course.specs.Coming.{is_of_merge};
ghost use Rattle.ut_crowd.specs.Asking.{waits};
ghost use Rattle.ut_crowd.specs.Keepers.{IsDated, IsSaveDue, IsWaiting, KeepsUp};
ghost use Rattle.ut_crowd.specs.Queues.{IsOver};
ghost use Rattle.ut_crowd.specs.Saving.{due_piece, is_enough};
ghost use Rattle.ut_crowd.specs.Standing.{StandsOn};
ghost use Rattle.ut_crowd.specs.Waking.{calls_saver, is_begin};

use crate::hall::{Hall, Opening, woken};
use ut_crew::Kept;
use ut_gate::{Act, Slip};
use ut_merge::Job;
use ut_outside::Disk;
use ut_plain::{Progress, Statement};

/// So many entries at least come between the begins of two savepoints,
const ENTRIES: u64 = 32;

/// and so many for each page of the first of the two, so that savepoints write in proportion to what the log gets.
const ENTRIES_A_PAGE: u64 = 64;

/// So many pages are written in a turn.
const PAGES: u32 = 8;

/// Has the store begin a savepoint once there is enough to save, write its pages, and select it.
#[derive(Drop)]
pub struct Saver;

impl<'d, D: Disk + Send, O: Opening + Send> Act<Hall<'d, D, O>> for Saver {
    ghost use Rattle.ut_crowd.specs.Keepers.{IsDated, IsSaveDue, IsWaiting, KeepsUp};
    ghost use Rattle.ut_crowd.specs.Queues.{IsOver};

    type Answer = Kept;

    ghost relates = { λ _ _ x y _ _ answer.
        KeepsUp (IsOver x.stopped x.engine.store x.queues.items) (IsSaveDue x.last x.engine.store (D.view x.engine.disk)) (λ _. Unit {0}) x.save_waits x.stopped y.stopped y.engine.store.down x.book.items y.book.items answer
        × ((IsOver x.stopped x.engine.store x.queues.items → ⊥) → IsWaiting x.last x.engine.store (D.view x.engine.disk) y.save_waits)
        × IsDated (D.view y.engine.disk).moment x.book.items y.book.items };

    ghost asks = { λ _ _. Unit {0} };

    #[tactic(auto, using(ut_gate::proofs::Jobs::job_stays))]
    fn run(&mut self, value: &mut Hall<'d, D, O>, _slip: &mut Slip<Job>) -> Kept {
        value.save_piece()
    }
}

impl<'d, D: Disk, O: Opening> Hall<'d, D, O> {
    /// Asks for the piece that is due. A savepoint doesn't begin while a merge is pending: of its rows, which stand in the delta that it
    /// closed, it would spell each, and of the part that the merge makes a savepoint behind it needs only the bytes.
    pub(crate) fn save_piece(&mut self) -> Kept
        requires stands { StandsOn O.ground self.old.queues.items self.old.book.items self.old.engine.loan (D.view self.old.engine.disk) self.old.engine.store self.old.job self.old.l1 self.old.last }
        ensures stands { StandsOn O.ground self.new.queues.items self.new.book.items self.new.engine.loan (D.view self.new.engine.disk) self.new.engine.store self.new.job self.new.l1 self.new.last }
        ensures book { AddsOne self.old.book.items self.new.book.items }
        ensures job { self.new.job ≡ self.old.job }
        ensures kept { KeepsUp (IsOver self.old.stopped self.old.engine.store self.old.queues.items) (IsSaveDue self.old.last self.old.engine.store (D.view self.old.engine.disk)) (λ _. Unit {0}) self.old.save_waits self.old.stopped self.new.stopped self.new.engine.store.down self.old.book.items self.new.book.items result }
        ensures waits { (IsOver self.old.stopped self.old.engine.store self.old.queues.items → ⊥) → IsWaiting self.old.last self.old.engine.store (D.view self.old.engine.disk) self.new.save_waits }
        ensures dated { IsDated (D.view self.new.engine.disk).moment self.old.book.items self.new.book.items }
    {
        if self.is_over() {
            return Kept::Over;
        }
        let waited = self.save_waits;
        self.save_waits = self.next_waits();
        if self.save_waits {
            return Kept::Idle;
        }
        match self.next_piece() {
            Some(piece) => woken(waited, self.ask(piece)),
            None => Kept::Idle,
        }
    }

    // The piece of a savepoint that comes next, where one does.
    fn next_piece(&self) -> Option<Statement>
        requires up { self.now.engine.store.down ≡ false }
        ensures next { result ≡ due_piece (progress_of self.now.engine.store.saving) self.now.engine.store.store.counts.entries self.now.last.entries self.now.last.pages }
        ensures stores { IfSome result (λ st. IsTrue (is_of_store st)) }
        ensures spelled { IfSome result (λ st. IsTrue (is_spelled st)) }
        ensures no_merge { IfSome result (λ st. is_of_merge st ≡ false) }
    {
        due_piece(
            self.engine.phase(),
            self.engine.journal_len(),
            self.last.entries,
            self.last.pages,
        )
    }

    // Whether the piece that comes next, if one does, waits for the end of a merge.
    fn next_waits(&self) -> bool
        requires up { self.now.engine.store.down ≡ false }
        ensures { result ≡ waits (is_some self.now.engine.store.store.counts.pending) (due_piece (progress_of self.now.engine.store.saving) self.now.engine.store.store.counts.entries self.now.last.entries self.now.last.pages) }
    {
        let piece = self.next_piece();
        self.has_to_wait(&piece)
    }

    // Whether a piece waits for the end of a merge.
    fn has_to_wait(&self, piece: &Option<Statement>) -> bool
        ensures { result ≡ waits (is_some self.now.engine.store.store.counts.pending) piece.now }
    {
        waits(self.engine.pending().is_some(), piece)
    }

    /// Whether a saver that sleeps would do something at its turn: none sleeps while a savepoint is written.
    pub(crate) fn calls_saver(&self) -> bool
        requires up { self.now.engine.store.down ≡ false }
        ensures { (p : Plain) → Runs self.now.engine.store (D.view self.now.engine.disk) p → calls_saver self.now.last self.now.save_waits p ≡ result }
    {
        let piece = self.next_piece();
        let waits = self.has_to_wait(&piece);
        begins(&piece, self.save_waits, waits)
    }
}

// Whether a piece is the begin of a savepoint, and none that waits as it was noted.
fn begins(piece: &Option<Statement>, noted: bool, waits: bool) -> bool
    ensures { result ≡ (is_begin piece.now && not (noted && waits)) }
{
    match piece {
        Some(Statement::SaveBegin) => !(noted && waits),
        _ => false,
    }
}

// Whether the piece that comes next has to wait for the end of a merge.
fn waits(pending: bool, piece: &Option<Statement>) -> bool
    ensures { result ≡ waits pending piece.now }
{
    match piece {
        Some(Statement::SaveBegin) => pending,
        _ => false,
    }
}

// The piece of a savepoint that is due, where it is so far.
fn due_piece(progress: Progress, entries: u32, saved: u32, pages: u32) -> Option<Statement>
    ensures due { result ≡ due_piece progress entries saved pages }
    ensures stores { IfSome result (λ st. IsTrue (is_of_store st)) }
    ensures spelled { IfSome result (λ st. IsTrue (is_spelled st)) }
    ensures no_merge { IfSome result (λ st. is_of_merge st ≡ false) }
{
    match progress {
        Progress::Idle => {
            if is_enough(entries, saved, pages) {
                Some(Statement::SaveBegin)
            } else {
                None
            }
        }
        Progress::Writing { done, pages } => {
            if done < pages {
                Some(Statement::SaveStep { n: PAGES })
            } else {
                Some(Statement::SaveSeal)
            }
        }
        Progress::Sealed { .. } => Some(Statement::SaveFlip),
    }
}

// Whether so many entries are enough for another savepoint, with so many at the begin of the last one, which had so many pages.
fn is_enough(entries: u32, saved: u32, pages: u32) -> bool
    ensures { result ≡ is_enough entries saved pages }
{
    let (entries, saved) = (entries as u64, saved as u64);
    entries >= saved + ENTRIES && entries >= saved + ENTRIES_A_PAGE * pages as u64
}
