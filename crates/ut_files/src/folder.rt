//! What the disk asks of the system: a folder with the store's files, of which the page file has the store's lock.
ghost use Rattle.std.specs.Prelude.{◌≢◌, ◌≤◌, [], length, take, Option, IfOk};
ghost use Rattle.ut_outside.specs.declared.disk.Which.TheVariants.{Pages as PagesFile};
ghost use Rattle.ut_files.specs.Deeds.{Done, Notes, AreFilled, IsHeld, opening};
ghost use Rattle.ut_files.specs.declared.folder.Deed.TheVariants as deeds;

use std::io;
use ut_outside::Which;

/// What was done in a folder.
#[derive(Clone, Copy, Debug, PartialEq, Eq)]
pub enum Deed {
    /// The standard streams that were closed are open.
    Filled,
    /// A file that isn't there was looked for.
    Missing(Which),
    Opened(Which),
    Made(Which),
    /// The page file was locked: no other process has the store until this one ends.
    Locked,
    /// The names of the files are on the disk.
    Named,
    Sized(Which, u64),
    /// So many bytes were read from there on.
    Read(Which, u64, usize),
    /// So many bytes were written from there on.
    Wrote(Which, u64, usize),
    Cut(Which, u64),
    Synced(Which),
}

/// A folder with the store's files.
pub trait Folder {
    /// What was done so far, where it tells.
    ghost done: { Self → Option Done };

    /// Opens the standard streams that are closed, so that no file of the store takes the number of one.
    fn fill_streams(&mut self) -> io::Result<()>
        ensures { Notes (done self.old) (done self.new) result (λ _. deeds.Filled) (λ _. []) };

    /// Opens a file to read and write, and says whether it is there.
    fn open(&mut self, file: Which) -> io::Result<bool>
        requires { AreFilled (done self.old) }
        ensures { Notes (done self.old) (done self.new) result (opening file) (λ _. []) };

    /// Makes a file that isn't there, and opens it.
    fn make(&mut self, file: Which) -> io::Result<()>
        requires filled { AreFilled (done self.old) }
        requires held { file ≢ PagesFile → IsHeld (done self.old) }
        ensures { Notes (done self.old) (done self.new) result (λ _. deeds.Made file) (λ _. []) };

    /// Locks the open page file for as long as the process lives, where no other one has locked it.
    fn lock(&mut self) -> io::Result<()>
        ensures { Notes (done self.old) (done self.new) result (λ _. deeds.Locked) (λ _. []) };

    /// Makes the names of the files durable.
    fn sync_names(&mut self) -> io::Result<()>
        ensures { Notes (done self.old) (done self.new) result (λ _. deeds.Named) (λ _. []) };

    /// How many bytes an open file has.
    fn size(&mut self, file: Which) -> io::Result<u64>
        ensures { Notes (done self.old) (done self.new) result (λ n. deeds.Sized file n) (λ _. []) };

    /// Reads as much of an open file as the buffer or the file has from there on.
    fn read_at(&mut self, file: Which, at: u64, buf: &mut [u8]) -> io::Result<usize>
        ensures bound { IfOk result (λ n. n ≤ length buf.old) }
        ensures notes { Notes (done self.old) (done self.new) result (λ n. deeds.Read file at n) (λ n. take n buf.new) };

    fn write_at(&mut self, file: Which, at: u64, bytes: &[u8]) -> io::Result<()>
        requires { IsHeld (done self.old) }
        ensures { Notes (done self.old) (done self.new) result (λ _. deeds.Wrote file at (length bytes.now)) (λ _. bytes.now) };

    /// Makes an open file so long.
    fn cut(&mut self, file: Which, len: u64) -> io::Result<()>
        requires { IsHeld (done self.old) }
        ensures { Notes (done self.old) (done self.new) result (λ _. deeds.Cut file len) (λ _. []) };

    /// Makes the bytes and the length of an open file durable.
    fn sync(&mut self, file: Which) -> io::Result<()>
        ensures { Notes (done self.old) (done self.new) result (λ _. deeds.Synced file) (λ _. []) };
}
