//! A savepoint, call by call: it begins, each page, the root, the choice of that root, or it is dropped.
ghost use Rattle.std.specs.Prelude.{◌≡◌, false, IfOk, IsErrOf};
ghost use Rattle.ut_outside.specs.Faults.{Rose};
ghost use Rattle.ut_plain.specs.declared.statement.Statement.TheVariants as statements;
ghost use Rattle.ut_engine.specs.Savepoints.{progress_of, save_reply, phase_reply, flip_reply, is_save_fault, is_phase_fault};
ghost use Rattle.ut_engine.specs.Saves.{HasPlanned};
ghost use Rattle.ut_engine.specs.Serves.{Serves};

use crate::engine::Engine;
use crate::error::{PhaseError, SaveError};
use std::alloc::Global;
use ut_outside::Disk;
use ut_plain::Progress;

impl<'d, D: Disk> Engine<'d, D> {
    /// Begins a savepoint of what the store holds now, as `save begin` does, and says how many pages it has.
    pub fn save_begin(&mut self, alloc: Global) -> Result<u32, SaveError>
        requires up { self.old.store.down ≡ false }
        ensures serves { Serves self.old.store (D.view self.old.disk) 0 statements.SaveBegin (save_reply result) self.new.store (D.view self.new.disk) }
        ensures planned { IfOk result (HasPlanned self.old.store self.new.store.saving) }
        ensures cause { IsErrOf result SaveError.Disk → Rose (D.view self.old.disk).faults (D.view self.new.disk).faults }
        // It is down exactly where the disk failed.
        ensures down { self.new.store.down ≡ is_save_fault result }
        ensures loan { self.new.loan ≡ self.old.loan }
    {
        self.store.save_begin(alloc, self.disk)
    }

    /// Writes its next page, as `save step 1` does. It takes no memory.
    pub fn save_step(&mut self) -> Result<(), PhaseError>
        requires up { self.old.store.down ≡ false }
        ensures serves { Serves self.old.store (D.view self.old.disk) 0 (statements.SaveStep 1) (phase_reply result self.new.store.saving) self.new.store (D.view self.new.disk) }
        ensures cause { IsErrOf result PhaseError.Disk → Rose (D.view self.old.disk).faults (D.view self.new.disk).faults }
        ensures down { self.new.store.down ≡ is_phase_fault result }
        ensures loan { self.new.loan ≡ self.old.loan }
    {
        self.store.save_step(self.disk, 1)
    }

    /// Writes its root once all its pages are written, as `save seal` does. It takes no memory.
    pub fn save_seal(&mut self) -> Result<(), PhaseError>
        requires up { self.old.store.down ≡ false }
        ensures serves { Serves self.old.store (D.view self.old.disk) 0 statements.SaveSeal (phase_reply result self.new.store.saving) self.new.store (D.view self.new.disk) }
        ensures cause { IsErrOf result PhaseError.Disk → Rose (D.view self.old.disk).faults (D.view self.new.disk).faults }
        ensures down { self.new.store.down ≡ is_phase_fault result }
        ensures loan { self.new.loan ≡ self.old.loan }
    {
        self.store.save_seal(self.disk)
    }

    /// Selects its root once that is written, as `save flip` does, and says how many entries that has. It takes no memory.
    pub fn save_flip(&mut self) -> Result<u32, PhaseError>
        requires up { self.old.store.down ≡ false }
        ensures serves { Serves self.old.store (D.view self.old.disk) 0 statements.SaveFlip (flip_reply result) self.new.store (D.view self.new.disk) }
        ensures cause { IsErrOf result PhaseError.Disk → Rose (D.view self.old.disk).faults (D.view self.new.disk).faults }
        ensures down { self.new.store.down ≡ is_phase_fault result }
        ensures loan { self.new.loan ≡ self.old.loan }
    {
        self.store.save_flip(self.disk)
    }

    /// Gives it up, as `save drop` does. The disk isn't called.
    pub fn save_drop(&mut self) -> Result<(), PhaseError>
        requires up { self.old.store.down ≡ false }
        ensures serves { Serves self.old.store (D.view self.old.disk) 0 statements.SaveDrop (phase_reply result self.new.store.saving) self.new.store (D.view self.new.disk) }
        ensures up { self.new.store.down ≡ false }
        ensures disk { self.new.disk ≡ self.old.disk }
        ensures loan { self.new.loan ≡ self.old.loan }
    {
        self.store.save_drop(self.disk)
    }

    /// How far it is.
    pub fn phase(&self) -> Progress
        requires up { self.now.store.down ≡ false }
        ensures { result ≡ progress_of self.now.store.saving }
    {
        self.store.progress()
    }
}
