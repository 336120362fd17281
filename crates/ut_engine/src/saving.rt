//! The savepoint of a store: it begins, writes its pages and then its root, selects that, or is dropped.
ghost use Rattle.std.specs.Prelude.{◌≡◌, ◌<◌, ◌≤◌, ◌+◌, ◌^◌, ℕ, min, true, None, Some, length, IsTrue, IfOk, IfSome, IfNone, OnOk};
ghost use Rattle.ut_outside.specs.Faults.{HasCause};
ghost use Rattle.ut_plain.specs.declared.reply.Reply.TheVariants as replies;
ghost use Rattle.ut_plain.specs.declared.statement.Statement.TheVariants as statements;
ghost use Rattle.ut_plain.specs.Plain.{Plain};
ghost use Rattle.ut_plain.specs.Refusals.{is_save};
ghost use Rattle.ut_plain.specs.View.{captured_now};
ghost use Rattle.ut_names.specs.Binding.{statement_of};
ghost use Rattle.ut_redo.specs.Logs.{IsLogFile, other_log};
ghost use Rattle.ut_pages.specs.declared.root.Root.{Root};
ghost use Rattle.ut_durable.specs.Bytes.{image_pages};
ghost use Rattle.ut_durable.specs.Calls.{Stays, MayFlip};
ghost use Rattle.ut_durable.specs.Journals.{log_file};
ghost use Rattle.ut_durable.specs.Saving.{Saving};
ghost use Rattle.ut_savepoint.specs.Planning.{Plans};
ghost use Rattle.ut_store.specs.Stands.{StandsFor};
ghost use Rattle.ut_store.specs.Standing.{Stands};
ghost use Rattle.ut_engine.specs.Handing.{AreReady};
ghost use Rattle.ut_engine.specs.Runs.{Runs};
ghost use Rattle.ut_engine.specs.Savepoints.{progress_of, save_reply, phase_reply, flip_reply, IsCounted, IsInTurn, IsOutOfTurn};
ghost use Rattle.ut_engine.specs.Saves.{pages_left, MayGoOn, Goes, Seals, MaySelect, SelectsRoot, IsLeft, LeavesLog, MayLeaveLog, IsCapturedRoot, HasPlanned};
ghost use Rattle.ut_engine.specs.Serves.{Serves};

use crate::error::{PhaseError, SaveError};
use crate::logged::LoggedStore;
use crate::replies::{flip_reply, save_reply, told};
use std::alloc::{AllocError, Global};
use ut_capture::captured;
use ut_names::Piece;
use ut_outside::{Disk, Failed, Which};
use ut_pages::Root;
use ut_plain::{Progress, Refusal, Reply, Statement, Why, save_why};
use ut_redo::other_log;
use ut_savepoint::{Savepoint, plan};

impl LoggedStore {
    /// Answers a piece of a savepoint. Only its begin takes memory.
    pub(crate) fn save<D: Disk>(&mut self, alloc: Global, disk: &mut D, piece: Piece) -> Reply
        requires runs { (p : Plain) × Runs self.old (D.view disk.old) p }
        ensures serves { (session : ℕ) → Serves self.old (D.view disk.old) session (statement_of piece) result self.new (D.view disk.new) }
        // To give it up the disk isn't called.
        ensures dropped { piece ≡ Piece.GiveUp → disk.new ≡ disk.old }
        ensures planned { piece ≡ Piece.Begin → (pages : ℕ) → result ≡ replies.Saving 0 pages → HasPlanned self.old self.new.saving pages }
    {
        match piece {
            Piece::Begin => save_reply(self.save_begin(alloc, disk)),
            Piece::Step { n } => {
                let answer = self.save_step(disk, n);
                self.phase_reply(answer)
            }
            Piece::Seal => {
                let answer = self.save_seal(disk);
                self.phase_reply(answer)
            }
            Piece::Flip => flip_reply(self.save_flip(disk)),
            Piece::GiveUp => {
                let answer = self.save_drop(disk);
                self.phase_reply(answer)
            }
        }
    }

    /// Begins a savepoint: it captures the store as it is, and the log leaves the file in which the selected root's log begins.
    pub(crate) fn save_begin<D: Disk>(
        &mut self,
        alloc: Global,
        disk: &mut D,
    ) -> Result<u32, SaveError>
        requires runs { (p : Plain) × Runs self.old (D.view disk.old) p }
        ensures serves { (session : ℕ) → Serves self.old (D.view disk.old) session statements.SaveBegin (save_reply result) self.new (D.view disk.new) }
        ensures planned { IfOk result (HasPlanned self.old self.new.saving) }
    {
        if let Some(why) = self.refused(&Statement::SaveBegin) {
            return Err(SaveError::State(why));
        }
        match self.planned(alloc) {
            Err(_) => Err(SaveError::Memory),
            Ok(None) => Err(SaveError::Full),
            Ok(Some(savepoint)) => match self.leave_log(disk) {
                Err(_) => {
                    self.down = true;
                    Err(SaveError::Disk)
                }
                Ok(()) => {
                    let pages = page_count(&savepoint);
                    self.saving = Some(savepoint);
                    Ok(pages)
                }
            },
        }
    }

    /// Writes the next n pages, or those that are left.
    pub(crate) fn save_step<D: Disk>(&mut self, disk: &mut D, n: u32) -> Result<(), PhaseError>
        requires runs { (p : Plain) × Runs self.old (D.view disk.old) p }
        ensures serves { (session : ℕ) → Serves self.old (D.view disk.old) session (statements.SaveStep n) (phase_reply result self.new.saving) self.new (D.view disk.new) }
        ensures counted { IfOk result (λ _. IsCounted self.new.saving) }
    {
        if let Some(why) = self.step_refused(n) {
            return Err(PhaseError::State(why));
        }
        match self.write_pages(disk, n) {
            Ok(()) => Ok(()),
            Err(_) => {
                self.down = true;
                Err(PhaseError::Disk)
            }
        }
    }

    /// Writes the root, whose pages are written.
    pub(crate) fn save_seal<D: Disk>(&mut self, disk: &mut D) -> Result<(), PhaseError>
        requires runs { (p : Plain) × Runs self.old (D.view disk.old) p }
        ensures serves { (session : ℕ) → Serves self.old (D.view disk.old) session statements.SaveSeal (phase_reply result self.new.saving) self.new (D.view disk.new) }
        ensures counted { IfOk result (λ _. IsCounted self.new.saving) }
    {
        if let Some(why) = self.refused(&Statement::SaveSeal) {
            return Err(PhaseError::State(why));
        }
        match self.write_root(disk) {
            Ok(()) => Ok(()),
            Err(_) => {
                self.down = true;
                Err(PhaseError::Disk)
            }
        }
    }

    /// Selects the root, which is written, and tells how many entries it has.
    pub(crate) fn save_flip<D: Disk>(&mut self, disk: &mut D) -> Result<u32, PhaseError>
        requires runs { (p : Plain) × Runs self.old (D.view disk.old) p }
        ensures serves { (session : ℕ) → Serves self.old (D.view disk.old) session statements.SaveFlip (flip_reply result) self.new (D.view disk.new) }
    {
        if let Some(why) = self.refused(&Statement::SaveFlip) {
            return Err(PhaseError::State(why));
        }
        match self.select_root(disk) {
            Ok(entries) => Ok(entries),
            Err(_) => {
                self.down = true;
                Err(PhaseError::Disk)
            }
        }
    }

    /// Gives the savepoint up. The disk is only looked at.
    pub(crate) fn save_drop<D: Disk>(&mut self, disk: &D) -> Result<(), PhaseError>
        requires runs { (p : Plain) × Runs self.old (D.view disk.now) p }
        ensures serves { (session : ℕ) → Serves self.old (D.view disk.now) session statements.SaveDrop (phase_reply result self.new.saving) self.new (D.view disk.now) }
        ensures counted { IfOk result (λ _. IsCounted self.new.saving) }
    {
        let _moment = disk.calls();
        if let Some(why) = self.refused(&Statement::SaveDrop) {
            return Err(PhaseError::State(why));
        }
        self.saving = None;
        Ok(())
    }

    // Why a statement of the savepoint is refused, where it isn't its turn.
    fn refused(&self, st: &Statement) -> Option<Why>
        requires save { IsTrue (is_save st.now) }
        requires counted { IsCounted self.now.saving }
        ensures refused { IfSome result (λ why. IsOutOfTurn self.now.saving st.now (Reply.Refused (Refusal.State why))) }
        ensures passes { IfNone result (IsInTurn self.now.saving st.now) }
    {
        save_why(self.progress(), st)
    }

    // Why a step is: its statement is made and dropped here, since each of its variants would be dropped at each exit of a caller.
    fn step_refused(&self, n: u32) -> Option<Why>
        requires { IsCounted self.now.saving }
        ensures refused { IfSome result (λ why. IsOutOfTurn self.now.saving (statements.SaveStep n) (Reply.Refused (Refusal.State why))) }
        ensures passes { IfNone result (IsInTurn self.now.saving (statements.SaveStep n)) }
    {
        self.refused(&Statement::SaveStep { n })
    }

    /// How far the savepoint is.
    pub(crate) fn progress(&self) -> Progress
        requires { IsCounted self.now.saving }
        ensures { result ≡ progress_of self.now.saving }
    {
        match &self.saving {
            None => Progress::Idle,
            Some(savepoint) => progress_in(savepoint),
        }
    }

    // The reply to a page, to the root and to a drop: how far it is then.
    fn phase_reply(&self, answer: Result<(), PhaseError>) -> Reply
        requires { IfOk answer (λ _. IsCounted self.now.saving) }
        ensures { result ≡ phase_reply answer self.now.saving }
    {
        match answer {
            Ok(()) => told(self.progress()),
            Err(PhaseError::State(why)) => Reply::Refused(Refusal::State(why)),
            Err(PhaseError::Disk) => Reply::DiskFault,
        }
    }

    // The savepoint of what the store holds now, before anything is written. There is none where its pages have no numbers.
    fn planned(&self, alloc: Global) -> Result<Option<Savepoint>, AllocError>
        requires stands { Stands self.now.store }
        requires log { IsLogFile self.now.files.log.file }
        ensures planned { IfOk result (λ o. IfSome o (λ s. (root : Root) × IsCapturedRoot self.now root
            × ((p : Plain) → StandsFor self.now.store p → Plans root self.now.files.reached (captured_now p) s))) }
        ensures none { IfOk result (λ o. IfNone o ((p : Plain) → StandsFor self.now.store p
            → 2 ^ 32 ≤ 3 + image_pages (captured_now p) + length self.now.files.reached)) }
    {
        let rows = self.store.all_rows();
        let entries = self.store.entries();
        let tables = captured(alloc, rows, entries)?;
        plan(alloc, &self.files, &tables, self.captured_root())
    }

    // The root of what the store holds now, whose image isn't known yet.
    fn captured_root(&self) -> Root
        requires log { IsLogFile self.now.files.log.file }
        ensures { IsCapturedRoot self.now result }
    {
        let (file, offset) = self.place_left();
        Root {
            version: 2,
            length: self.store.entries(),
            commits: self.store.commits(),
            merges: self.store.merges(),
            next: self.next.next(),
            offset,
            image_len: 0,
            first_page: 0,
            file: number_of(file),
        }
    }

    // Where the log goes on once it has left the file in which the selected root's log begins.
    fn place_left(&self) -> (Which, u64)
        requires log { IsLogFile self.now.files.log.file }
        ensures place { IsLeft self.now (record { file = result.0; end = result.1 }) }
        ensures log { IsLogFile result.0 }
    {
        let (file, end) = self.files.place();
        if file == self.begins {
            (other_log(file), 0)
        } else {
            (file, end)
        }
    }

    // The log leaves that file.
    fn leave_log<D: Disk>(&mut self, disk: &mut D) -> Result<(), Failed>
        requires { AreReady self.old.files (D.view disk.old) }
        ensures left { OnOk result (LeavesLog self.old (D.view disk.old) self.new (D.view disk.new)) }
        ensures any_moment { MayLeaveLog self.old (D.view disk.old) (D.view disk.new) }
        ensures told { (D.view disk.new).told ≡ (D.view disk.old).told }
        ensures cause { HasCause (D.view disk.old).faults (D.view disk.new).faults result }
        ensures memory { self.new.store ≡ self.old.store }
    {
        let (file, _) = self.files.place();
        if file != self.begins {
            return Ok(());
        }
        self.files.switch(disk)?;
        Ok(())
    }

    // Writes the next n pages, or those that are left.
    fn write_pages<D: Disk>(&mut self, disk: &mut D, n: u32) -> Result<(), Failed>
        requires goes { MayGoOn self.old (D.view disk.old) }
        requires counted { IsCounted self.old.saving }
        ensures written { OnOk result (Goes (min n (pages_left self.old.saving)) self.old (D.view disk.old) self.new (D.view disk.new)) }
        ensures stays { Stays self.old.files (D.view disk.old) (D.view disk.new) }
        ensures told { (D.view disk.new).told ≡ (D.view disk.old).told }
        ensures cause { HasCause (D.view disk.old).faults (D.view disk.new).faults result }
        ensures memory { self.new.store ≡ self.old.store }
    {
        let count = n.min(self.pages_left());
        for _ in 0..count {
            self.write_page(disk)?;
        }
        Ok(())
    }

    // How many pages aren't written yet.
    fn pages_left(&self) -> u32
        requires { IsCounted self.now.saving }
        ensures { result ≡ pages_left self.now.saving }
    {
        match &self.saving {
            None => 0,
            Some(savepoint) => savepoint.pages().saturating_sub(savepoint.done()) as u32,
        }
    }

    // Writes the next page.
    fn write_page<D: Disk>(&mut self, disk: &mut D) -> Result<(), Failed>
        requires goes { MayGoOn self.old (D.view disk.old) }
        requires left { 1 ≤ pages_left self.old.saving }
        ensures written { OnOk result (Goes 1 self.old (D.view disk.old) self.new (D.view disk.new)) }
        ensures stays { Stays self.old.files (D.view disk.old) (D.view disk.new) }
        ensures told { (D.view disk.new).told ≡ (D.view disk.old).told }
        ensures cause { HasCause (D.view disk.old).faults (D.view disk.new).faults result }
        ensures memory { self.new.store ≡ self.old.store }
    {
        if let Some(savepoint) = &mut self.saving
            && let Some(write) = savepoint.next()
        {
            self.files
                .put_page(disk, write.page, write.next, &write.bytes)?;
            savepoint.wrote();
            return Ok(());
        }
        // One is under way, and a page is left.
        unreachable!()
    }

    // Writes the root.
    fn write_root<D: Disk>(&mut self, disk: &mut D) -> Result<(), Failed>
        requires { MayGoOn self.old (D.view disk.old) }
        ensures written { OnOk result (Seals self.old (D.view disk.old) self.new (D.view disk.new)) }
        ensures stays { Stays self.old.files (D.view disk.old) (D.view disk.new) }
        ensures told { (D.view disk.new).told ≡ (D.view disk.old).told }
        ensures cause { HasCause (D.view disk.old).faults (D.view disk.new).faults result }
        ensures memory { self.new.store ≡ self.old.store }
    {
        // It is this savepoint's turn to be sealed, so there is one.
        let Some(savepoint) = &mut self.saving else {
            unreachable!()
        };
        self.files.seal(disk, savepoint.root())?;
        savepoint.seal();
        Ok(())
    }

    // Selects the root, and tells how many entries it has.
    fn select_root<D: Disk>(&mut self, disk: &mut D) -> Result<u32, Failed>
        requires { MaySelect self.old (D.view disk.old) }
        ensures selected { IfOk result (λ entries. (s : Saving) → self.old.saving ≡ Some s
            → SelectsRoot s self.old (D.view disk.old) entries self.new (D.view disk.new)) }
        ensures any_moment { (s : Saving) → self.old.saving ≡ Some s → MayFlip s.reached self.old.files (D.view disk.old) (D.view disk.new) }
        ensures told { (D.view disk.new).told ≡ (D.view disk.old).told }
        ensures cause { HasCause (D.view disk.old).faults (D.view disk.new).faults result }
        ensures memory { self.new.store ≡ self.old.store }
    {
        // Its root is written, so there is one.
        let Some(savepoint) = self.saving.take() else {
            unreachable!()
        };
        let entries = savepoint.root().length;
        let begins = log_file(savepoint.root().file);
        self.files.flip(disk, savepoint.into_reached())?;
        self.begins = begins;
        Ok(entries)
    }
}

// How far it is.
fn progress_in(savepoint: &Savepoint) -> Progress
    requires { IsCounted (Some savepoint.now) }
    ensures { result ≡ progress_of (Some savepoint.now) }
{
    let pages = page_count(savepoint);
    if savepoint.is_sealed() {
        return Progress::Sealed { pages };
    }
    let done = savepoint.done() as u32;
    Progress::Writing { done, pages }
}

// How many pages it has.
fn page_count(savepoint: &Savepoint) -> u32
    requires { IsCounted (Some savepoint.now) }
    ensures { result ≡ length savepoint.now.planned }
{
    savepoint.pages() as u32
}

/// The log's file of a number in a root.
pub(crate) fn log_file(number: u32) -> Which
    ensures { result ≡ log_file number }
{
    match number {
        0 => Which::Redo,
        _ => Which::Redo2,
    }
}

// The number of the log's file in a root.
fn number_of(file: Which) -> u32
    requires { IsLogFile file }
    ensures few { result < 2 }
    ensures file { log_file result ≡ file }
{
    match file {
        Which::Redo => 0,
        _ => 1,
    }
}
