//! Where passes sleep while they wait, each at a bell of its own.
ghost use Rattle.std.specs.Prelude.{◌≡◌, ◌≤◌, vec_len, vec_capacity};

use std::alloc::{AllocError, Global};
use std::marker::Model;
use std::sync::Wait;
use std::sync::atomic::AtomicU64;
use std::sync::atomic::Ordering::SeqCst;

/// So many passes a gate has at most, and so many tickets wait at once.
const BELLS: u64 = 64;

/// A bell for each ticket that waits: tickets that follow one another have different ones. A bell
/// counts its rings.
#[derive(Drop)]
pub(crate) struct Bells {
    bells: Vec<AtomicU64>,
}

impl Model for Bells {
    ghost use Rattle.std.specs.Prelude.{◌≡◌, vec_len};

    ghost Value = { Unit {0} };

    ghost view = { λ _. tt };

    ghost invariant = { λ b. vec_len b.bells ≡ 64 };
}

impl Bells {
    pub(crate) fn new(alloc: Global) -> Result<Bells, AllocError> {
        let mut bells = Vec::with_capacity(alloc, BELLS as usize)?;
        for _ in 0..BELLS {
            bells.push_reserved(AtomicU64::new(0));
        }
        Ok(Bells { bells })
    }

    /// How often the bell of a ticket has rung.
    pub(crate) fn rings(&self, ticket: u64) -> u64 {
        self.bells[place(ticket)].load(SeqCst)
    }

    /// Sleeps until the bell of a ticket has rung more often than was heard.
    pub(crate) fn sleep<R: Wait>(&self, rt: &R, ticket: u64, heard: u64) {
        self.bells[place(ticket)].park(rt, (heard & 0xffff_ffff) as u32);
    }

    /// Wakes who waits with a ticket.
    pub(crate) fn ring(&self, ticket: u64) {
        let bell = &self.bells[place(ticket)];
        bell.fetch_add(1, SeqCst);
        bell.wake_all();
    }
}

// The bell of a ticket.
fn place(ticket: u64) -> usize
    ensures { result ≤ 63 }
{
    (ticket % BELLS) as usize
}
