//! Scripts with what the slow store answers to them.
use check_oracle::Oracle;
use check_scripts::Answers;
use std::alloc::{AllocError, Global};

/// A script, and the slow store's replies to it.
pub(crate) struct Script {
    pub lines: Vec<u8>,
    pub replies: Vec<u8>,
    /// Where in the replies those to each line end.
    pub ends: Vec<usize>,
}

// A drop of its own is one step of a proof wherever one is dropped. A derived one is a step for each part, at each place.
impl Drop for Script {
    fn drop(self) {
        let Script {
            lines: _,
            replies: _,
            ends: _,
        } = self;
    }
}

impl Script {
    pub fn new(alloc: Global) -> Script {
        Script {
            lines: Vec::new(alloc),
            replies: Vec::new(alloc),
            ends: Vec::new(alloc),
        }
    }

    /// Puts a line at the end, and what the store answers.
    pub fn ask(
        &mut self,
        alloc: Global,
        line: &[u8],
        store: &mut Oracle,
    ) -> Result<(), AllocError> {
        store.answer(alloc, line, &mut self.replies)?;
        self.ends.push(self.replies.len())?;
        self.lines.extend_from_slice(line)?;
        self.lines.push(b'\n')?;
        Ok(())
    }
}
