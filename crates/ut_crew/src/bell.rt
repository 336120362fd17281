//! How keepers that sleep hear that there may be something to do.
ghost use Rattle.std.specs.Prelude.{◌≡◌, false, IsTrue};
ghost use Rattle.ut_crew.specs.Leaving.{IsLast, IsOver};

use crate::role::{Kept, Went};
use std::sync::Wait;
use std::sync::atomic::AtomicU64;
use std::sync::atomic::Ordering::SeqCst;

/// Counts the turns behind which a keeper may have something to do, and the sessions' last ones.
/// A keeper that is idle sleeps until the count goes on.
#[derive(Drop)]
pub(crate) struct Bell {
    rings: AtomicU64,
    // Sessions that have not left.
    sessions: AtomicU64,
    // Keepers that sleep, or are about to.
    asleep: AtomicU64,
}

impl Bell {
    pub(crate) fn new(sessions: usize) -> Bell {
        Bell {
            rings: AtomicU64::new(0),
            sessions: AtomicU64::new(sessions as u64),
            asleep: AtomicU64::new(0),
        }
    }

    pub(crate) fn rings(&self) -> u64 {
        self.rings.load(SeqCst)
    }

    // It counts before it looks for sleepers, and a sleeper is counted before it looks at the rings,
    // so one of the two sees the other.
    fn ring(&self) {
        self.rings.fetch_add(1, SeqCst);
        if self.asleep.load(SeqCst) != 0 {
            self.rings.wake_all();
        }
    }

    /// Whether a session goes on. It rings where a keeper may have something to do, and behind its last turn.
    pub(crate) fn went_on(&self, went: Went) -> bool
        ensures goes { IsTrue result → IsOver went → ⊥ }
        ensures ends { result ≡ false → IsOver went }
    {
        match went {
            Went::On => true,
            Went::Due => {
                self.ring();
                true
            }
            Went::Over => {
                self.sessions.fetch_sub(1, SeqCst);
                self.ring();
                false
            }
        }
    }

    /// Whether a keeper goes on, once it may have something to do. It had heard so many rings
    /// before its turn.
    pub(crate) fn goes_on<R: Wait>(&self, rt: &R, kept: Kept, heard: u64) -> bool
        ensures goes { IsTrue result → kept ≡ Kept.Over → ⊥ }
        ensures ends { result ≡ false → IsLast kept }
    {
        match kept {
            Kept::Did => true,
            Kept::Due => {
                self.ring();
                true
            }
            Kept::Idle => self.sleeps(rt, heard),
            Kept::Over => false,
        }
    }

    // Sleeps until a ring that was not heard. Where all sessions have left and none came, none may.
    fn sleeps<R: Wait>(&self, rt: &R, heard: u64) -> bool {
        if self.sessions.load(SeqCst) == 0 && self.rings() == heard {
            return false;
        }
        self.asleep.fetch_add(1, SeqCst);
        self.rings.park(rt, (heard & 0xffff_ffff) as u32);
        self.asleep.fetch_sub(1, SeqCst);
        true
    }
}
