//! A set of the store's files.
ghost use Rattle.std.specs.Prelude.{◌≡◌, false};
ghost use Rattle.ut_files.specs.FileSets.{is_in, with_file};

use ut_outside::Which;

#[derive(Clone, Copy)]
pub(crate) struct FileSet {
    redo: bool,
    pages: bool,
    redo2: bool,
}

impl FileSet {
    pub(crate) fn empty() -> FileSet
        ensures { (file : Which) → is_in file result ≡ false }
    {
        FileSet {
            redo: false,
            pages: false,
            redo2: false,
        }
    }

    pub(crate) fn has(&self, file: Which) -> bool
        ensures { result ≡ is_in file self.now }
    {
        match file {
            Which::Redo => self.redo,
            Which::Pages => self.pages,
            Which::Redo2 => self.redo2,
        }
    }

    pub(crate) fn add(&mut self, file: Which)
        ensures { self.new ≡ with_file file self.old }
    {
        match file {
            Which::Redo => self.redo = true,
            Which::Pages => self.pages = true,
            Which::Redo2 => self.redo2 = true,
        }
    }
}
