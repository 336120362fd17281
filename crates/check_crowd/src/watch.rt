//! A hook that holds threads at points of a run, to see that others go on meanwhile.
use crate::facts::holds;
use std::process::Abort;
use std::sync::atomic::AtomicU64;
use std::sync::atomic::Ordering::SeqCst;
use std::thread::yield_now;
use ut_outside::{Hook, Point};

/// So many times a thread that is held looks.
const PATIENCE: u32 = 10_000_000;

/// Behind which line its session is held: the ninth that was answered. Each session has ten lines at least, so this one has lines left,
/// and the crowd isn't over before it goes on.
const HELD: u64 = 8;

/// How often each point was reached, and how often a wait was given up.
pub(crate) struct Watch {
    pub lines: AtomicU64,
    pub builds: AtomicU64,
    pub missed: AtomicU64,
}

// One step of a proof, wherever one is dropped.
impl Drop for Watch {
    fn drop(self) {
        let Watch {
            lines: _,
            builds: _,
            missed: _,
        } = self;
    }
}

impl Watch {
    pub fn new() -> Watch {
        Watch {
            lines: AtomicU64::new(0),
            builds: AtomicU64::new(0),
            missed: AtomicU64::new(0),
        }
    }

    /// A hundred lines were answered, a merge was built, and neither waited for the other in vain.
    pub fn check(&self, rt: &impl Abort) {
        holds(rt, self.lines.load(SeqCst) == 100);
        holds(rt, self.builds.load(SeqCst) >= 1);
        holds(rt, self.missed.load(SeqCst) == 0);
    }

    fn until(&self, word: &AtomicU64, least: u64) {
        for _ in 0..PATIENCE {
            if word.load(SeqCst) >= least {
                return;
            }
            yield_now();
        }
        self.missed.fetch_add(1, SeqCst);
    }
}

impl Hook for Watch {
    /// Who answered the ninth line waits for the first build, and the first build for three more lines.
    fn reach(&self, point: Point) {
        match point {
            Point::LineDone => {
                if self.lines.fetch_add(1, SeqCst) == HELD {
                    self.until(&self.builds, 1);
                }
            }
            Point::BuildDone => {
                let lines = self.lines.load(SeqCst);
                if self.builds.fetch_add(1, SeqCst) == 0 {
                    self.until(&self.lines, lines.saturating_add(3));
                }
            }
            Point::JobTaken => {}
        }
    }
}
