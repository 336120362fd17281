//! A folder that notes what is done in it.
ghost use Rattle.std.specs.Prelude.{◌≡◌, ◌++◌, ◌∷◌, ◌≤◌, ℕ, MatchResult, [], length, take, Some, IfOk};
ghost use Rattle.ut_files.specs.Deeds.{Done, Notes, opening};
ghost use Rattle.ut_files.specs.declared.folder.Deed.TheVariants as deeds;

use std::alloc::{AllocError, Global};
use std::io;
use ut_files::{Deed, Folder};
use ut_outside::Which;

/// Its files are all there or none is. One deed fails, each time.
#[derive(Drop)]
pub(crate) struct Recorder {
    deeds: Vec<Deed>,
    bytes: Vec<u8>,
    there: bool,
    fails: Option<Deed>,
    failures: u64,
}

impl Recorder {
    pub(crate) fn new(alloc: Global, there: bool, fails: Option<Deed>) -> Recorder {
        Recorder {
            deeds: Vec::new(alloc),
            bytes: Vec::new(alloc),
            there,
            fails,
            failures: 0,
        }
    }

    pub(crate) fn deeds(&self) -> &[Deed] {
        &self.deeds
    }

    pub(crate) fn bytes(&self) -> &[u8] {
        &self.bytes
    }

    fn note(&mut self, deed: Deed, bytes: &[u8]) -> io::Result<()>
        ensures { Notes (Some (record { deeds = self.old.deeds.items; bytes = self.old.bytes.items; failures = self.old.failures })) (Some (record { deeds = self.new.deeds.items; bytes = self.new.bytes.items; failures = self.new.failures })) result (λ _. deed) (λ _. bytes.now) }
    {
        if self.fails == Some(deed) || self.add(deed, bytes).is_err() {
            self.failures = self.failures.saturating_add(1);
            return Err(io::ErrorKind::Other.into());
        }
        Ok(())
    }

    fn add(&mut self, deed: Deed, bytes: &[u8]) -> Result<(), AllocError>
        ensures deeds { MatchResult result (λ _. self.new.deeds.items ≡ self.old.deeds.items ++ deed ∷ []) (λ _. self.new.deeds.items ≡ self.old.deeds.items) }
        ensures bytes { MatchResult result (λ _. self.new.bytes.items ≡ self.old.bytes.items ++ bytes.now) (λ _. self.new.bytes.items ≡ self.old.bytes.items) }
        ensures failures { self.new.failures ≡ self.old.failures }
    {
        self.deeds.reserve(1)?;
        self.bytes.extend_from_slice(bytes)?;
        self.deeds.push_reserved(deed);
        Ok(())
    }
}

impl Folder for Recorder {
    ghost done = { λ s. Some (record { deeds = s.deeds.items; bytes = s.bytes.items; failures = s.failures }) };

    fn fill_streams(&mut self) -> io::Result<()> {
        self.note(Deed::Filled, &[])
    }

    fn lock(&mut self) -> io::Result<()> {
        self.note(Deed::Locked, &[])
    }

    fn open(&mut self, file: Which) -> io::Result<bool> {
        if self.there {
            self.note(Deed::Opened(file), &[])?;
            return Ok(true);
        }
        self.note(Deed::Missing(file), &[])?;
        Ok(false)
    }

    fn make(&mut self, file: Which) -> io::Result<()> {
        self.note(Deed::Made(file), &[])
    }

    fn sync_names(&mut self) -> io::Result<()> {
        self.note(Deed::Named, &[])
    }

    fn size(&mut self, file: Which) -> io::Result<u64> {
        self.note(Deed::Sized(file, 5), &[])?;
        Ok(5)
    }

    fn read_at(&mut self, file: Which, at: u64, buf: &mut [u8]) -> io::Result<usize> {
        let count = buf.len().min(2);
        self.note(Deed::Read(file, at, count), &buf[..count])?;
        Ok(count)
    }

    fn write_at(&mut self, file: Which, at: u64, bytes: &[u8]) -> io::Result<()> {
        self.note(Deed::Wrote(file, at, bytes.len()), bytes)
    }

    fn cut(&mut self, file: Which, len: u64) -> io::Result<()> {
        self.note(Deed::Cut(file, len), &[])
    }

    fn sync(&mut self, file: Which) -> io::Result<()> {
        self.note(Deed::Synced(file), &[])
    }
}
