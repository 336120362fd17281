//! The store as its sessions know it.
ghost use Rattle.std.specs.Prelude.{◌≡◌, ◌≤◌, ◌<◌, ℕ, length, IsTrue, IfOk, OnErr};
ghost use Rattle.std.specs.List.{sum_by};
ghost use Rattle.ut_plain.specs.declared.stage.TableStages.{TableStages};
ghost use Rattle.ut_plain.specs.Capture.{Directory};
ghost use Rattle.ut_plain.specs.Journal.{since};
ghost use Rattle.ut_plain.specs.Plain.{no_image, new_store, opened_store};
ghost use Rattle.ut_plain.specs.Progress.{phase_of};
ghost use Rattle.ut_plain.specs.Spelled.{is_spelled};
ghost use Rattle.ut_plain.specs.Step.{step};
ghost use Rattle.check_oracle.specs.Store as store;
ghost use Rattle.check_oracle.specs.Store.{journal_with, plain_with, opening_with, directory_of, selected_of, selected_behind, Gives, Tells};

use crate::held::Held;
use crate::image::Image;
use crate::outcome::Outcome;
use crate::reopen::reopened;
use crate::step::stepped;
use std::alloc::{AllocError, Global};
use std::marker::Model;
use ut_plain::{Progress, Reply, Statement, TableStages, plain_laws};

/// A store that works as the plain definitions say. Each statement takes time and memory for all that was ever done.
pub struct Oracle {
    held: Held,
    selected: Image,
}

// One step of a proof, wherever one is dropped.
impl Drop for Oracle {
    fn drop(self) {
        let Oracle {
            held: _,
            selected: _,
        } = self;
    }
}

impl Model for Oracle {
    ghost use Rattle.check_oracle.specs.Store.{Kept};

    ghost Value = { Kept };

    ghost use Rattle.check_oracle.specs.Store.{kept_of, IsKept};

    ghost view = { λ o. kept_of o.held o.selected };

    ghost invariant = { λ o. IsKept o.held o.selected };
}

impl Oracle {
    /// A store that was just made, with the greatest id that a row may get.
    pub fn new(alloc: Global, rows_limit: u32) -> Result<Oracle, AllocError>
        requires { rows_limit ≤ 2147483648 }
        ensures made { (image_pages : Directory → ℕ) → IfOk result (λ oracle. plain_with image_pages oracle ≡ new_store (no_image image_pages) rows_limit) }
        ensures image { IfOk result (λ oracle. oracle.selected ≡ store.no_image) }
    {
        plain_laws();
        let held = Held::new(alloc, rows_limit)?;
        let selected = Image::new(alloc);
        Ok(Oracle { held, selected })
    }

    /// The store that is opened with this one's image and with its journal behind that: its open transactions are forgotten, a pending
    /// merge and a savepoint that is under way are lost.
    pub fn reopened(&self, alloc: Global, rows_limit: u32) -> Result<Oracle, AllocError>
        requires { rows_limit ≤ 2147483648 }
        ensures opens { (image_pages : Directory → ℕ) → IfOk result (λ oracle. plain_with image_pages oracle ≡ opened_store (opening_with image_pages self.now) (since (journal_with self.now) self.now.selected.length) rows_limit) }
        ensures image { IfOk result (λ oracle. oracle.selected ≡ self.now.selected) }
    {
        plain_laws();
        let selected = self.selected.copy(alloc)?;
        let held = reopened(alloc, &self.held, &self.selected, rows_limit)?;
        Ok(Oracle { held, selected })
    }

    /// Makes a statement of a session. A savepoint that begins is told how many pages its image takes. Where memory runs out
    /// nothing changes.
    pub fn statement(
        &mut self,
        alloc: Global,
        session: u8,
        st: &Statement,
        pages: u32,
    ) -> Result<Reply, AllocError>
        requires seat { session < 17 }
        requires spelled { IsTrue (is_spelled st.now) }
        ensures steps { (image_pages : Directory → ℕ) → Tells pages st.now (plain_with image_pages self.old) → IfOk result (λ reply. Gives (step (plain_with image_pages self.old) session st.now) reply (plain_with image_pages self.new)) }
        ensures image { IfOk result (λ reply. self.new.selected ≡ selected_behind self.old.selected self.old.phase reply) }

        // what stays the same where memory runs out
        ensures stays { OnErr result (self.new ≡ self.old) }
    {
        plain_laws();
        let mut told = self.held.copy(alloc)?;
        told.told = pages;
        let out = stepped(alloc, &told, session, st)?;
        let selected = selected_behind(alloc, &self.selected, &self.held, &out.reply)?;
        let Outcome { reply, held } = out;
        self.held = held;
        self.selected = selected;
        Ok(reply)
    }

    /// How many parts all tables have.
    pub fn parts(&self) -> usize
        ensures { result ≡ sum_by (λ (t : TableStages). length t.parts) self.now.stages }
    {
        parts_of(self.held.stages.as_slice())
    }
}

// How many parts tables of few parts have.
fn parts_of(stages: &[TableStages]) -> usize
    requires { sum_by (λ (t : TableStages). length t.parts) stages.now ≤ 2048 }
    ensures { result ≡ sum_by (λ (t : TableStages). length t.parts) stages.now }
{
    let mut parts = 0;
    for table in stages {
        parts += table.parts.len();
    }
    parts
}

// The image that is selected behind a reply.
fn selected_behind(
    alloc: Global,
    selected: &Image,
    held: &Held,
    reply: &Reply,
) -> Result<Image, AllocError>
    ensures { IfOk result (λ image. selected_of image ≡ selected_behind (selected_of selected.now) (phase_of held.now.progress held.now.captured.length (directory_of held.now.captured)) reply.now) }
{
    match (held.progress, reply) {
        (Progress::Sealed { .. }, Reply::Root(_)) => held.captured.copy(alloc),
        _ => selected.copy(alloc),
    }
}
