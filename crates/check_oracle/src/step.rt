//! One statement of a session: its refusals in order, and then what it does.
ghost use Rattle.std.specs.Prelude.{◌≡◌, ◌<◌, ℕ, IfOk};
ghost use Rattle.ut_plain.specs.Capture.{Directory};
ghost use Rattle.ut_plain.specs.Progress.{phase_of};
ghost use Rattle.ut_plain.specs.Step.{step};
ghost use Rattle.ut_plain.specs.Reached.{IsPlain};
ghost use Rattle.check_oracle.specs.Store.{plain_of, early, Allowed, Gives};

use crate::held::Held;
use crate::merges::{merge_begin, merge_end};
use crate::outcome::{Outcome, refused, stays};
use crate::saves::{save_begin, save_drop, save_flip, save_seal, save_step};
use crate::session::{abort, begin, commit, create};
use crate::shapes::{merge_l1, shape};
use crate::sight::sight_of;
use crate::writes::{bulk, delete, insert, update};
use check_rows::{Known, told};
use std::alloc::{AllocError, Global};
use ut_plain::{
    PendingMerge, Progress, Query, Refusal, Statement, Table, kinds_fit, merge_why, names_known,
    save_why, state_why,
};

/// What a statement of a session comes to.
pub(crate) fn stepped(
    alloc: Global,
    held: &Held,
    session: u8,
    st: &Statement,
) -> Result<Outcome, AllocError>
    requires plain { IsPlain (plain_of held.now) }
    requires seat { session < 17 }
    ensures { IfOk result (λ out. Gives (step (plain_of held.now) session st.now) out.reply (plain_of out.held)) }
{
    let sight = sight_of(alloc, held, session)?;
    let is_open = held.own(session).is_some();
    match early(
        sight.tables.as_slice(),
        is_open,
        held.pending,
        held.progress,
        st,
    ) {
        Some(why) => {
            let out = refused(alloc, held, why)?;
            Ok(out)
        }
        None => allowed(alloc, held, &sight, session, st),
    }
}

// The refusal that no limit and no conflict is asked for.
fn early(
    tables: &[Table],
    is_open: bool,
    pending: Option<PendingMerge>,
    progress: Progress,
    st: &Statement,
) -> Option<Refusal>
    ensures { (captured : ℕ) (image : Directory) → result ≡ early tables.now is_open pending (phase_of progress captured image) st.now }
{
    if !names_known(tables, st) {
        return Some(Refusal::Name);
    }
    if !kinds_fit(tables, st) {
        return Some(Refusal::Kind);
    }
    if let Some(why) = state_why(is_open, st) {
        return Some(Refusal::State(why));
    }
    if let Some(why) = merge_why(pending, st) {
        return Some(Refusal::State(why));
    }
    match save_why(progress, st) {
        None => None,
        Some(why) => Some(Refusal::State(why)),
    }
}

fn allowed(
    alloc: Global,
    held: &Held,
    sight: &Known,
    session: u8,
    st: &Statement,
) -> Result<Outcome, AllocError>
    requires plain { IsPlain (plain_of held.now) }
    requires allowed { Allowed (plain_of held.now) sight.now session st.now }
    ensures { IfOk result (λ out. Gives (step (plain_of held.now) session st.now) out.reply (plain_of out.held)) }
{
    match st {
        Statement::Create { table, columns } => {
            create(alloc, held, sight, session, table, columns)
        }
        Statement::Insert { table, values } => insert(alloc, held, sight, session, table, values),
        Statement::Bulk { table, values } => bulk(alloc, held, sight, session, table, values),
        Statement::Ask(query) => ask(alloc, held, sight, session, query),
        Statement::Update {
            table,
            column,
            value,
            preds,
        } => update(alloc, held, sight, session, table, column, value, preds),
        Statement::Delete { table, preds } => delete(alloc, held, sight, session, table, preds),
        Statement::Begin => begin(alloc, held, sight, session),
        Statement::Commit => commit(alloc, held, sight, session),
        Statement::Abort => abort(alloc, held, sight, session),
        Statement::MergeL1 { table, n } => merge_l1(alloc, held, sight, session, table, *n),
        Statement::Shape { table } => shape(alloc, held, sight, session, table),
        Statement::MergeBegin { table, kind } => {
            merge_begin(alloc, held, sight, session, table, *kind)
        }
        Statement::MergeEnd => merge_end(alloc, held, sight, session),
        Statement::SaveBegin => save_begin(alloc, held, sight, session),
        Statement::SaveStep { n } => save_step(alloc, held, sight, session, *n),
        Statement::SaveSeal => save_seal(alloc, held, sight, session),
        Statement::SaveFlip => save_flip(alloc, held, sight, session),
        Statement::SaveDrop => save_drop(alloc, held, sight, session),
    }
}

fn ask(
    alloc: Global,
    held: &Held,
    sight: &Known,
    session: u8,
    query: &Query,
) -> Result<Outcome, AllocError>
    requires { Allowed (plain_of held.now) sight.now session (Statement.Ask query.now) }
    ensures { IfOk result (λ out. Gives (step (plain_of held.now) session (Statement.Ask query.now)) out.reply (plain_of out.held)) }
{
    let _session = session;
    let reply = told(alloc, sight.tables.as_slice(), sight.rows.as_slice(), query)?;
    stays(alloc, held, reply)
}
