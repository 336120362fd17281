//! Savepoints: one begins, its pages are written, it is sealed and selected, or given up.
ghost use Rattle.std.specs.Prelude.{◌≡◌, ◌+◌, min, IfOk};
ghost use Rattle.ut_plain.specs.Journal.{journal_len};
ghost use Rattle.ut_plain.specs.View.{captured_now};
ghost use Rattle.ut_plain.specs.Reached.{IsPlain};
ghost use Rattle.ut_plain.specs.Step.{step, save_begun, save_written, save_sealed, save_flipped};
ghost use Rattle.check_oracle.specs.Store.{plain_of, directory_of, Allowed, Gives};

use crate::held::Held;
use crate::image::Image;
use crate::needed::add_ids;
use crate::outcome::{Outcome, refused, stays};
use crate::room::has_page_room;
use check_rows::{Known, state_after};
use check_stages::captured;
use std::alloc::{AllocError, Global};
use ut_plain::{Progress, Refusal, Reply, Statement};
use ut_value::Seq;

/// `save begin`
pub(crate) fn save_begin(
    alloc: Global,
    held: &Held,
    sight: &Known,
    session: u8,
) -> Result<Outcome, AllocError>
    requires { Allowed (plain_of held.now) sight.now session Statement.SaveBegin }
    ensures { IfOk result (λ out. Gives (step (plain_of held.now) session Statement.SaveBegin) out.reply (plain_of out.held)) }
{
    let _sight = sight;
    let _session = session;
    if !has_page_room(held) {
        return refused(alloc, held, Refusal::Full);
    }
    begun(alloc, held)
}

fn begun(alloc: Global, held: &Held) -> Result<Outcome, AllocError>
    requires { IsPlain (plain_of held.now) }
    ensures { IfOk result (λ out. Gives (save_begun (plain_of held.now)) out.reply (plain_of out.held)) }
{
    let mut next = held.copy(alloc)?;
    next.captured = image_now(alloc, held)?;
    next.progress = Progress::Writing {
        done: 0,
        pages: held.told,
    };
    Ok(Outcome {
        reply: Reply::Saving {
            done: 0,
            pages: held.told,
        },
        held: next,
    })
}

// What a savepoint captures now.
fn image_now(alloc: Global, held: &Held) -> Result<Image, AllocError>
    requires { IsPlain (plain_of held.now) }
    ensures length { IfOk result (λ image. image.length ≡ journal_len (plain_of held.now).journal) }
    ensures image { IfOk result (λ image. directory_of image ≡ captured_now (plain_of held.now)) }
{
    let now = state_after(alloc, held.first.as_slice(), held.entries.as_slice())?;
    let mut ids = Vec::new(alloc);
    add_ids(&mut ids, now.rows.as_slice())?;
    let stages = captured(alloc, ids.as_slice(), held.stages.as_slice())?;
    Ok(Image {
        length: held.journal_len() as u32,
        tables: Seq::from_vec(now.tables),
        stages,
    })
}

/// `save step`
pub(crate) fn save_step(
    alloc: Global,
    held: &Held,
    sight: &Known,
    session: u8,
    n: u32,
) -> Result<Outcome, AllocError>
    requires { Allowed (plain_of held.now) sight.now session (Statement.SaveStep n) }
    ensures { IfOk result (λ out. Gives (step (plain_of held.now) session (Statement.SaveStep n)) out.reply (plain_of out.held)) }
{
    let _sight = sight;
    let _session = session;
    written(alloc, held, n)
}

fn written(alloc: Global, held: &Held, n: u32) -> Result<Outcome, AllocError>
    ensures { IfOk result (λ out. Gives (save_written (plain_of held.now) n (plain_of held.now).phase) out.reply (plain_of out.held)) }
{
    let Progress::Writing { done, pages } = held.progress else {
        return stays(alloc, held, Reply::Done);
    };
    let next_done = done_by(done, pages, n);
    let mut next = held.copy(alloc)?;
    next.progress = Progress::Writing {
        done: next_done,
        pages,
    };
    Ok(Outcome {
        reply: Reply::Saving {
            done: next_done,
            pages,
        },
        held: next,
    })
}

// How many pages are written once so many more are, or those that are left.
fn done_by(done: u32, pages: u32, n: u32) -> u32
    ensures { result ≡ min pages (done + n) }
{
    u64::from(pages).min(u64::from(done) + u64::from(n)) as u32
}

/// `save seal`
pub(crate) fn save_seal(
    alloc: Global,
    held: &Held,
    sight: &Known,
    session: u8,
) -> Result<Outcome, AllocError>
    requires { Allowed (plain_of held.now) sight.now session Statement.SaveSeal }
    ensures { IfOk result (λ out. Gives (step (plain_of held.now) session Statement.SaveSeal) out.reply (plain_of out.held)) }
{
    let _sight = sight;
    let _session = session;
    sealed(alloc, held)
}

fn sealed(alloc: Global, held: &Held) -> Result<Outcome, AllocError>
    ensures { IfOk result (λ out. Gives (save_sealed (plain_of held.now) (plain_of held.now).phase) out.reply (plain_of out.held)) }
{
    let Progress::Writing { pages, .. } = held.progress else {
        return stays(alloc, held, Reply::Done);
    };
    let mut next = held.copy(alloc)?;
    next.progress = Progress::Sealed { pages };
    Ok(Outcome {
        reply: Reply::Sealed(pages),
        held: next,
    })
}

/// `save flip`
pub(crate) fn save_flip(
    alloc: Global,
    held: &Held,
    sight: &Known,
    session: u8,
) -> Result<Outcome, AllocError>
    requires { Allowed (plain_of held.now) sight.now session Statement.SaveFlip }
    ensures { IfOk result (λ out. Gives (step (plain_of held.now) session Statement.SaveFlip) out.reply (plain_of out.held)) }
{
    let _sight = sight;
    let _session = session;
    flipped(alloc, held)
}

fn flipped(alloc: Global, held: &Held) -> Result<Outcome, AllocError>
    ensures { IfOk result (λ out. Gives (save_flipped (plain_of held.now) (plain_of held.now).phase) out.reply (plain_of out.held)) }
{
    let Progress::Sealed { pages } = held.progress else {
        return stays(alloc, held, Reply::Done);
    };
    let mut next = held.copy(alloc)?;
    next.progress = Progress::Idle;
    next.root_pages = pages;
    Ok(Outcome {
        reply: Reply::Root(held.captured.length),
        held: next,
    })
}

/// `save drop`
pub(crate) fn save_drop(
    alloc: Global,
    held: &Held,
    sight: &Known,
    session: u8,
) -> Result<Outcome, AllocError>
    requires { Allowed (plain_of held.now) sight.now session Statement.SaveDrop }
    ensures { IfOk result (λ out. Gives (step (plain_of held.now) session Statement.SaveDrop) out.reply (plain_of out.held)) }
{
    let _sight = sight;
    let _session = session;
    let mut next = held.copy(alloc)?;
    next.progress = Progress::Idle;
    Ok(Outcome {
        reply: Reply::Done,
        held: next,
    })
}
