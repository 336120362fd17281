//! The store's files in a folder, each opened at its first use and made by its first write. Whoever has the page file locked has
//! the store: it is sought before any other file, and made before one is changed.
ghost use Rattle.std.specs.Prelude.{◌≡◌, ◌≢◌, ◌≤◌, true, [], ⊤, length, take, OnOk, IfOk};
ghost use Rattle.std.specs.Bool.{MatchBool};
ghost use Rattle.ut_outside.specs.declared.disk.Which.TheVariants.{Pages as PagesFile};
ghost use Rattle.ut_files.specs.Deeds.{AreFilled, IsMissing, IsOpening, IsMaking, Grows, Does};
ghost use Rattle.ut_files.specs.FileSets.{is_in};
ghost use Rattle.ut_files.specs.Standing.{IsSought};
ghost use Rattle.ut_files.specs.declared.folder.Deed.TheVariants as deeds;

use crate::file_set::FileSet;
use crate::folder::Folder;
use std::io;
use std::marker::Model;
use ut_outside::Which;

/// Whether the page file was found and locked.
#[derive(Clone, Copy, Debug, PartialEq, Eq)]
pub(crate) enum Hold {
    Unsought,
    Missing,
    Held,
    /// Another process may have made it since it was sought.
    Lost,
}

/// The files of a folder.
#[derive(Drop)]
pub(crate) struct StoreFiles<F: Folder> {
    folder: F,
    hold: Hold,
    /// The files that are open, with names that are durable.
    named: FileSet,
}

impl<F: Folder> Model for StoreFiles<F> {
    ghost use Rattle.ut_files.specs.Standing.{Files, Stands};

    ghost Value = { Files };

    ghost view = { λ s. record { done = F.done s.folder; hold = s.hold; named = s.named } };

    ghost invariant = { λ s. Stands (record { done = F.done s.folder; hold = s.hold; named = s.named }) };
}

impl<F: Folder> StoreFiles<F> {
    pub(crate) fn new(folder: F) -> StoreFiles<F>
        ensures { result.done ≡ F.done folder }
    {
        StoreFiles {
            folder,
            hold: Hold::Unsought,
            named: FileSet::empty(),
        }
    }

    pub(crate) fn folder(&self) -> &F
        ensures { F.done result.now ≡ self.now.done }
    {
        &self.folder
    }

    // Seeks the page file, before the first file is touched. Where it is there, it is locked.
    fn seek(&mut self) -> io::Result<()>
        ensures opens { OnOk result (Grows IsOpening self.old.done self.new.done) }
        ensures sought { OnOk result (IsSought self.new.hold) }
    {
        match self.hold {
            Hold::Held => Ok(()),
            Hold::Missing => Ok(()),
            Hold::Lost => Err(io::ErrorKind::WouldBlock.into()),
            Hold::Unsought => self.look(),
        }
    }

    fn look(&mut self) -> io::Result<()>
        requires { self.old.hold ≡ Hold.Unsought }
        ensures opens { OnOk result (Grows IsOpening self.old.done self.new.done) }
        ensures sought { OnOk result (IsSought self.new.hold) }
    {
        self.folder.fill_streams()?;
        if self.folder.open(Which::Pages)? {
            return self.lock();
        }
        self.hold = Hold::Missing;
        Ok(())
    }

    // Locks the page file that was just opened or made.
    fn lock(&mut self) -> io::Result<()>
        requires { AreFilled self.old.done }
        ensures opens { OnOk result (Grows IsOpening self.old.done self.new.done) }
        ensures held { OnOk result (self.new.hold ≡ Hold.Held) }
    {
        self.folder.lock()?;
        self.folder.sync_names()?;
        self.named.add(Which::Pages);
        self.hold = Hold::Held;
        Ok(())
    }

    // Takes the store: makes the page file where there is none.
    fn take(&mut self) -> io::Result<()>
        ensures makes { OnOk result (Grows (IsMaking PagesFile) self.old.done self.new.done) }
        ensures held { OnOk result (self.new.hold ≡ Hold.Held) }
    {
        self.seek()?;
        match self.hold {
            Hold::Held => Ok(()),
            Hold::Missing => self.make(),
            Hold::Unsought | Hold::Lost => Err(io::ErrorKind::WouldBlock.into()),
        }
    }

    fn make(&mut self) -> io::Result<()>
        requires { self.old.hold ≡ Hold.Missing }
        ensures makes { OnOk result (Grows (IsMaking PagesFile) self.old.done self.new.done) }
        ensures held { OnOk result (self.new.hold ≡ Hold.Held) }
    {
        self.hold = Hold::Lost;
        self.folder.make(Which::Pages)?;
        self.lock()
    }

    // Makes the name of an open file durable.
    fn name(&mut self, file: Which) -> io::Result<()>
        requires { file ≢ PagesFile }
        ensures opens { OnOk result (Grows IsOpening self.old.done self.new.done) }
        ensures named { OnOk result (is_in file self.new.named ≡ true) }
        ensures hold { self.new.hold ≡ self.old.hold }
    {
        self.folder.sync_names()?;
        self.named.add(file);
        Ok(())
    }

    // Opens the file, and says whether it is there.
    fn reach(&mut self, file: Which) -> io::Result<bool>
        ensures opens { OnOk result (Grows IsOpening self.old.done self.new.done) }
        ensures found { IfOk result (λ found. MatchBool found (is_in file self.new.named ≡ true) (IsMissing file self.new.done)) }
    {
        self.seek()?;
        if self.named.has(file) {
            return Ok(true);
        }
        if file == Which::Pages {
            return Ok(false);
        }
        if !self.folder.open(file)? {
            return Ok(false);
        }
        self.name(file)?;
        Ok(true)
    }

    // Takes the store, and opens the file or makes it where it isn't there.
    fn reach_or_make(&mut self, file: Which) -> io::Result<()>
        ensures makes { OnOk result (Grows (IsMaking file) self.old.done self.new.done) }
        ensures named { OnOk result (is_in file self.new.named ≡ true) }
        ensures held { OnOk result (self.new.hold ≡ Hold.Held) }
    {
        self.take()?;
        if self.named.has(file) {
            return Ok(());
        }
        if self.folder.open(file)? {
            return self.name(file);
        }
        self.folder.make(file)?;
        self.name(file)
    }

    /// How many bytes a file has, 0 for one that isn't there.
    pub(crate) fn size(&mut self, file: Which) -> io::Result<u64>
        ensures does { IfOk result (λ n. Does file IsOpening (deeds.Sized file n) [] (n ≡ 0) self.old.done self.new.done) }
    {
        if !self.reach(file)? {
            return Ok(0);
        }
        self.folder.size(file)
    }

    /// As much as the buffer or the file has.
    pub(crate) fn read_at(&mut self, file: Which, at: u64, buf: &mut [u8]) -> io::Result<usize>
        ensures bound { IfOk result (λ n. n ≤ length buf.old) }
        ensures does { IfOk result (λ n. Does file IsOpening (deeds.Read file at n) (take n buf.new) (n ≡ 0) self.old.done self.new.done) }
    {
        if !self.reach(file)? {
            return Ok(0);
        }
        self.folder.read_at(file, at, buf)
    }

    /// The first write makes the file.
    pub(crate) fn write_at(&mut self, file: Which, at: u64, bytes: &[u8]) -> io::Result<()>
        ensures does { OnOk result (Does file (IsMaking file) (deeds.Wrote file at (length bytes.now)) bytes.now ⊥ self.old.done self.new.done) }
    {
        self.reach_or_make(file)?;
        self.folder.write_at(file, at, bytes)
    }

    /// A file that isn't there has nothing to cut off.
    pub(crate) fn cut(&mut self, file: Which, len: u64) -> io::Result<()>
        ensures does { OnOk result (Does file (IsMaking file) (deeds.Cut file len) [] (len ≡ 0) self.old.done self.new.done) }
    {
        if len == 0 {
            return self.empty(file);
        }
        self.reach_or_make(file)?;
        self.folder.cut(file, len)
    }

    fn empty(&mut self, file: Which) -> io::Result<()>
        ensures does { OnOk result (Does file (IsMaking file) (deeds.Cut file 0) [] ⊤ self.old.done self.new.done) }
    {
        if !self.reach(file)? {
            return Ok(());
        }
        self.reach_or_make(file)?;
        self.folder.cut(file, 0)
    }

    /// A file that isn't there has nothing to sync.
    pub(crate) fn sync(&mut self, file: Which) -> io::Result<()>
        ensures does { OnOk result (Does file IsOpening (deeds.Synced file) [] ⊤ self.old.done self.new.done) }
    {
        if !self.reach(file)? {
            return Ok(());
        }
        self.folder.sync(file)
    }
}
