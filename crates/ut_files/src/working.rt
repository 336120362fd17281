//! The working folder of the process, as the system has it.
ghost use Rattle.std.specs.Prelude.{◌≤◌, None, length, IfOk};

use crate::folder::Folder;
use std::fs::{File, Files, OpenOptions};
use std::io;
use std::os::unix::fs::FileExt;
use ut_outside::Which;

/// What is read has no bytes, and what is written to it opened to be read is refused.
const NULL: &str = "/dev/null";

const WORKING: &str = ".";

/// The greatest offset that the system reads at.
const MAX_OFFSET: u64 = (1 << 63) - 1;

/// The working folder. It tells nothing.
pub struct WorkingFolder<'a, R: Files<File = File>> {
    rt: &'a R,
    nulls: Option<[File; 3]>,
    redo: Option<File>,
    pages: Option<File>,
    redo2: Option<File>,
}

// A drop of its own is one step of a proof wherever one is dropped. A derived one is a step for each file, at each place.
impl<'a, R: Files<File = File>> Drop for WorkingFolder<'a, R> {
    fn drop(self) {
        let WorkingFolder {
            rt: _,
            nulls: _,
            redo: _,
            pages: _,
            redo2: _,
        } = self;
    }
}

impl<'a, R: Files<File = File>> WorkingFolder<'a, R> {
    /// The folder that the process runs in. This opens nothing.
    pub fn new(rt: &'a R) -> WorkingFolder<'a, R> {
        WorkingFolder {
            rt,
            nulls: None,
            redo: None,
            pages: None,
            redo2: None,
        }
    }

    fn opened(&self, file: Which) -> io::Result<&File> {
        let opened = match file {
            Which::Redo => &self.redo,
            Which::Pages => &self.pages,
            Which::Redo2 => &self.redo2,
        };
        opened.as_ref().ok_or(io::ErrorKind::NotFound.into())
    }

    fn keep(&mut self, file: Which, opened: Option<File>) {
        match file {
            Which::Redo => self.redo = opened,
            Which::Pages => self.pages = opened,
            Which::Redo2 => self.redo2 = opened,
        }
    }
}

fn name_of(file: Which) -> &'static str {
    match file {
        Which::Redo => "table.redo",
        Which::Pages => "table.pages",
        Which::Redo2 => "table.redo2",
    }
}

impl<R: Files<File = File>> Folder for WorkingFolder<'_, R> {
    ghost done = { λ _. None };

    // The system gives the least number that is free, so of three opens each closed stream takes one.
    fn fill_streams(&mut self) -> io::Result<()> {
        if self.nulls.is_some() {
            return Ok(());
        }
        let first = File::open(self.rt, NULL)?;
        let second = File::open(self.rt, NULL)?;
        let third = File::open(self.rt, NULL)?;
        self.nulls = Some([first, second, third]);
        Ok(())
    }

    fn open(&mut self, file: Which) -> io::Result<bool> {
        self.keep(file, None);
        match OpenOptions::new()
            .read(true)
            .write(true)
            .open(self.rt, name_of(file))
        {
            Ok(opened) => {
                self.keep(file, Some(opened));
                Ok(true)
            }
            Err(error) if error.kind() == io::ErrorKind::NotFound => Ok(false),
            Err(error) => Err(error),
        }
    }

    fn make(&mut self, file: Which) -> io::Result<()> {
        let made = File::create_new(self.rt, name_of(file))?;
        self.keep(file, Some(made));
        Ok(())
    }

    fn lock(&mut self) -> io::Result<()> {
        self.opened(Which::Pages)?.try_lock()?;
        Ok(())
    }

    fn sync_names(&mut self) -> io::Result<()> {
        File::open(self.rt, WORKING)?.sync_all()
    }

    fn size(&mut self, file: Which) -> io::Result<u64> {
        Ok(self.opened(file)?.metadata()?.len())
    }

    fn read_at(&mut self, file: Which, at: u64, buf: &mut [u8]) -> io::Result<usize> {
        let opened = self.opened(file)?;
        let mut done = 0;
        while done < buf.len() {
            let offset = at.saturating_add(done as u64);
            if offset > MAX_OFFSET {
                break;
            }
            let count = opened.read_at(&mut buf[done..], offset)?;
            if count == 0 {
                break;
            }
            done += count;
        }
        Ok(done)
    }

    fn write_at(&mut self, file: Which, at: u64, bytes: &[u8]) -> io::Result<()> {
        self.opened(file)?.write_all_at(bytes, at)
    }

    fn cut(&mut self, file: Which, len: u64) -> io::Result<()> {
        self.opened(file)?.set_len(len)
    }

    fn sync(&mut self, file: Which) -> io::Result<()> {
        self.opened(file)?.sync_data()
    }
}
