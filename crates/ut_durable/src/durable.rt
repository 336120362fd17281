//! The log's end and the selected root, with the pages that it reaches.
ghost use Rattle.std.specs.Prelude.{◌≡◌, ◌+◌, ◌^◌, ◌<◌, ◌≤◌, ◌++◌, [], List, ℕ, Contains, length, IfOk, IfSome, IfNone, OnOk, MatchResult};
ghost use Rattle.ut_outside.specs.Disk.{IsTold, OnFile};
ghost use Rattle.ut_outside.specs.Faults.{HasCause};
ghost use Rattle.ut_outside.specs.Run.{IsCounted};
ghost use Rattle.ut_outside.specs.declared.disk.Which.TheVariants.{Pages as PagesFile};
ghost use Rattle.ut_redo.specs.Appends.{behind};
ghost use Rattle.ut_redo.specs.Logs.{IsLogFile, switched_place};
ghost use Rattle.ut_redo.specs.Groups.{IsUnderWay, behind_group};
ghost use Rattle.ut_pages.specs.Layout.{IsRoot, HasPage, other};
ghost use Rattle.ut_pages.specs.Crash.{ChangesOnly};
ghost use Rattle.ut_pages.specs.Free.{AreFree};
ghost use Rattle.ut_durable.specs.Groups.{GainsGroup, MayGainGroup, Waits, log_held};
ghost use Rattle.ut_durable.specs.Calls.{IsSettled, Gains, MayGain, Stays, BecomesReady, Flips, MayFlip, Moves, MayMove};

use std::alloc::{AllocError, Global};
use std::marker::Model;
use ut_outside::{Disk, Failed, Which};
use ut_pages::{Pages, Root};
use ut_redo::{Frame, Redo};

/// The end of the log, and the selected root.
#[derive(Drop)]
pub struct Durable {
    redo: Redo,
    pages: Pages,
}

impl Model for Durable {
    ghost use Rattle.ut_durable.specs.Calls.{FilesHeld};

    ghost Value = { FilesHeld };

    ghost view = { λ f. record { log = f.redo.place; group = f.redo.group; slot = f.pages.slot; reached = f.pages.reached } };
}

impl Durable {
    /// What was made, or read, of the log and of the pages.
    pub fn new(redo: Redo, pages: Pages) -> Durable
        ensures { result ≡ record { log = redo.place; group = redo.group; slot = pages.slot; reached = pages.reached } }
    {
        Durable { redo, pages }
    }

    /// Where the next frame goes.
    pub fn place(&self) -> (Which, u64)
        ensures { result ≡ (self.now.log.file, self.now.log.end) }
    {
        self.redo.place()
    }

    /// Adds a frame's entry to the journal. At Err open the store again.
    pub fn append<D: Disk>(&mut self, disk: &mut D, frame: &Frame) -> Result<(), Failed>
        requires log { IsLogFile self.old.log.file }
        requires room { self.old.log.end ≤ 2 ^ 61 }
        requires settled { IsSettled self.old (D.view disk.old) }
        ensures place { MatchResult result
            (λ _. self.new ≡ record self.old { log = behind self.old.log frame.now.payload }) (λ _. self.new ≡ self.old) }
        ensures gains { OnOk result (Gains frame.now.payload self.old self.new (D.view disk.old) (D.view disk.new)) }
        ensures any_moment { MayGain frame.now.payload self.old (D.view disk.old) (D.view disk.new) }
        // A read finds the pages as they were.
        ensures pages { OnOk result (IsTold (D.view disk.old) → (D.view disk.new).seen.pages ≡ (D.view disk.old).seen.pages) }
        ensures told { (D.view disk.new).told ≡ (D.view disk.old).told }
        ensures cause { HasCause (D.view disk.old).faults (D.view disk.new).faults result }
    {
        self.redo.append(disk, frame)?;
        Ok(())
    }

    /// Begins a group of entries, which count at once, with so many bytes of payload.
    pub fn group_begin<D: Disk>(&mut self, disk: &mut D, bytes: u32) -> Result<(), Failed>
        requires log { IsLogFile self.old.log.file }
        requires room { self.old.log.end ≤ 2 ^ 61 }
        requires short { bytes ≤ 2 ^ 30 }
        requires settled { IsSettled self.old (D.view disk.old) }
        ensures group { MatchResult result
            (λ _. self.new ≡ record self.old { group = record { room = bytes; added = 0 } }) (λ _. self.new ≡ self.old) }
        ensures begun { OnOk result (IsUnderWay (log_held self.new) [] (D.view disk.new)) }
        ensures waits { Waits self.old (D.view disk.old) (D.view disk.new) }
        // A read finds the pages as they were.
        ensures pages { OnOk result (IsTold (D.view disk.old) → (D.view disk.new).seen.pages ≡ (D.view disk.old).seen.pages) }
        ensures calls { IsCounted 1 (D.view disk.old) (D.view disk.new) result }
        ensures told { (D.view disk.new).told ≡ (D.view disk.old).told }
        ensures cause { HasCause (D.view disk.old).faults (D.view disk.new).faults result }
    {
        self.redo.group_begin(disk, bytes)?;
        Ok(())
    }

    /// Adds a frame's entry to the group.
    pub fn group_add<D: Disk>(&mut self, disk: &mut D, frame: &Frame) -> Result<(), Failed>
        requires log { IsLogFile self.old.log.file }
        requires under_way { (payload : List ℕ) × IsUnderWay (log_held self.old) payload (D.view disk.old) }
        requires room { self.old.group.added + length frame.now.payload ≤ self.old.group.room }
        ensures group { MatchResult result
            (λ _. self.new ≡ record self.old { group = record { room = self.old.group.room; added = self.old.group.added + length frame.now.payload } })
            (λ _. self.new ≡ self.old) }
        ensures added { (payload : List ℕ) → IsUnderWay (log_held self.old) payload (D.view disk.old)
            → OnOk result (IsUnderWay (log_held self.new) (payload ++ frame.now.payload) (D.view disk.new)) }
        ensures waits { Waits self.old (D.view disk.old) (D.view disk.new) }
        ensures pages { OnOk result (IsTold (D.view disk.old) → (D.view disk.new).seen.pages ≡ (D.view disk.old).seen.pages) }
        ensures calls { IsCounted 1 (D.view disk.old) (D.view disk.new) result }
        ensures told { (D.view disk.new).told ≡ (D.view disk.old).told }
        ensures cause { HasCause (D.view disk.old).faults (D.view disk.new).faults result }
    {
        self.redo.group_add(disk, frame)?;
        Ok(())
    }

    /// Ends a group that is full: all of its entries join the journal at once. At Err open the store again.
    pub fn group_end<D: Disk>(&mut self, disk: &mut D) -> Result<(), Failed>
        requires log { IsLogFile self.old.log.file }
        requires under_way { (payload : List ℕ) × IsUnderWay (log_held self.old) payload (D.view disk.old) }
        requires full { self.old.group.added ≡ self.old.group.room }
        ensures place { MatchResult result (λ _. self.new ≡ record self.old { log = behind_group (log_held self.old) }) (λ _. self.new ≡ self.old) }
        ensures gains { OnOk result (GainsGroup self.old self.new (D.view disk.old) (D.view disk.new)) }
        ensures any_moment { MayGainGroup self.old (D.view disk.old) (D.view disk.new) }
        ensures pages { OnOk result (IsTold (D.view disk.old) → (D.view disk.new).seen.pages ≡ (D.view disk.old).seen.pages) }
        ensures calls { IsCounted 4 (D.view disk.old) (D.view disk.new) result }
        ensures told { (D.view disk.new).told ≡ (D.view disk.old).told }
        ensures cause { HasCause (D.view disk.old).faults (D.view disk.new).faults result }
    {
        self.redo.group_end(disk)?;
        Ok(())
    }

    /// The n least numbers of pages that the selected root doesn't reach. There are none where page numbers would pass their limit.
    pub fn free_pages(&self, alloc: Global, n: u32) -> Result<Option<Vec<u32>>, AllocError>
        ensures free { IfOk result (λ o. IfSome o (λ v. AreFree (Contains self.now.reached) 3 v.items)) }
        ensures len { IfOk result (λ o. IfSome o (λ v. length v.items ≡ n)) }
        ensures some { IfOk result (λ o. IfSome o (λ _. 3 + n + length self.now.reached < 2 ^ 32)) }
        ensures none { IfOk result (λ o. IfNone o (2 ^ 32 ≤ 3 + n + length self.now.reached)) }
    {
        self.pages.free_pages(alloc, n)
    }

    /// Writes a page of a savepoint, which the selected root doesn't reach.
    pub fn put_page<D: Disk>(
        &mut self,
        disk: &mut D,
        page: u32,
        next: u32,
        bytes: &[u8],
    ) -> Result<(), Failed>
        requires numbered { 3 ≤ page }
        requires free { Contains self.old.reached page → ⊥ }
        requires short { length bytes.now ≤ 4090 }
        requires settled { IsSettled self.old (D.view disk.old) }
        ensures written { OnOk result (IsTold (D.view disk.old) → HasPage page next bytes.now (D.view disk.new).seen.pages) }
        ensures others { IsTold (D.view disk.old)
            → OnFile PagesFile (ChangesOnly page (length (D.view disk.old).seen.pages)) (D.view disk.old).seen (D.view disk.new).seen }
        ensures same { self.new ≡ self.old }
        ensures stays { Stays self.old (D.view disk.old) (D.view disk.new) }
        ensures told { (D.view disk.new).told ≡ (D.view disk.old).told }
        ensures cause { HasCause (D.view disk.old).faults (D.view disk.new).faults result }
    {
        self.pages.put_page(disk, page, next, bytes)
    }

    /// Writes the root of a savepoint whose pages are written.
    pub fn seal<D: Disk>(&mut self, disk: &mut D, root: &Root) -> Result<(), Failed>
        requires rules { IsRoot root.now }
        requires version { root.now.version ≡ 2 }
        requires settled { IsSettled self.old (D.view disk.old) }
        ensures same { self.new ≡ self.old }
        ensures ready { OnOk result (BecomesReady root.now self.old (D.view disk.old) (D.view disk.new)) }
        ensures stays { Stays self.old (D.view disk.old) (D.view disk.new) }
        ensures told { (D.view disk.new).told ≡ (D.view disk.old).told }
        ensures cause { HasCause (D.view disk.old).faults (D.view disk.new).faults result }
    {
        self.pages.put_root(disk, root)?;
        Ok(())
    }

    /// Selects the root of a savepoint, which reaches these pages. At Err open the store again.
    pub fn flip<D: Disk>(&mut self, disk: &mut D, reached: Vec<u32>) -> Result<(), Failed>
        requires settled { IsSettled self.old (D.view disk.old) }
        ensures place { OnOk result (self.new ≡ record self.old { slot = other self.old.slot; reached = reached.items }) }
        ensures flips { OnOk result (Flips reached.items self.old self.new (D.view disk.old) (D.view disk.new)) }
        ensures any_moment { MayFlip reached.items self.old (D.view disk.old) (D.view disk.new) }
        ensures told { (D.view disk.new).told ≡ (D.view disk.old).told }
        ensures cause { HasCause (D.view disk.old).faults (D.view disk.new).faults result }
    {
        self.pages.flip(disk, reached)?;
        Ok(())
    }

    /// Lets the log go on at the start of its other file, which the selected root doesn't reach. At Err open the store again.
    pub fn switch<D: Disk>(&mut self, disk: &mut D) -> Result<(), Failed>
        requires log { IsLogFile self.old.log.file }
        requires room { self.old.log.end ≤ 2 ^ 61 }
        requires settled { IsSettled self.old (D.view disk.old) }
        ensures place { MatchResult result (λ _. self.new ≡ record self.old { log = switched_place self.old.log }) (λ _. self.new ≡ self.old) }
        ensures moves { OnOk result (Moves self.old self.new (D.view disk.old) (D.view disk.new)) }
        ensures any_moment { MayMove self.old (D.view disk.old) (D.view disk.new) }
        ensures told { (D.view disk.new).told ≡ (D.view disk.old).told }
        ensures cause { HasCause (D.view disk.old).faults (D.view disk.new).faults result }
    {
        self.redo.switch(disk)?;
        Ok(())
    }
}
