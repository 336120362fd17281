//! Merges into main: one begins, and the pending one ends.
ghost use Rattle.std.specs.Prelude.{◌≡◌, ◌≤◌, ◌<◌, ◌&&◌, nat_lt, length, slice_set, IfOk, Some};
ghost use Rattle.ut_plain.specs.Journal.{journal_len, current};
ghost use Rattle.ut_plain.specs.Merges.{closing, has_places, has_part_room};
ghost use Rattle.ut_plain.specs.Stages.{stages_at};
ghost use Rattle.ut_plain.specs.Reached.{IsPlain};
ghost use Rattle.ut_plain.specs.Step.{step, merge_begun, merge_ended};
ghost use Rattle.check_oracle.specs.Store.{plain_of, Allowed, Gives};

use crate::held::Held;
use crate::needed::needed;
use crate::outcome::{Outcome, refused, stays};
use crate::room::has_journal_room;
use crate::writes::place_in;
use check_rows::Known;
use check_stages::{closing, has_part_room, has_places, switched};
use std::alloc::{AllocError, Global};
use ut_plain::{PendingMerge, Refusal, Reply, Statement, TableStages};
use ut_value::{Entry, MergeKind, Name};

/// `merge begin`
pub(crate) fn merge_begin(
    alloc: Global,
    held: &Held,
    sight: &Known,
    session: u8,
    table: &Name,
    kind: MergeKind,
) -> Result<Outcome, AllocError>
    requires { Allowed (plain_of held.now) sight.now session (Statement.MergeBegin table.now kind) }
    ensures { IfOk result (λ out. Gives (step (plain_of held.now) session (Statement.MergeBegin table.now kind)) out.reply (plain_of out.held)) }
{
    let _session = session;
    let place = place_in(sight.tables.as_slice(), table.as_slice());
    let stages = &held.stages[usize::from(place)];
    if !has_merge_room(held, stages, kind) {
        return refused(alloc, held, Refusal::Full);
    }
    begun(alloc, held, sight.merges, place, kind)
}

// Whether a merge of a table may begin.
fn has_merge_room(held: &Held, stages: &TableStages, kind: MergeKind) -> bool
    requires { IsPlain (plain_of held.now) }
    ensures { result ≡ (nat_lt (journal_len (plain_of held.now).journal) 1073741823 && has_places stages.now && has_part_room kind (length stages.now.parts)) }
{
    has_journal_room(held) && has_places(stages) && has_part_room(kind, stages.parts.len())
}

// The stages of a table whose merge begins.
fn closed(
    alloc: Global,
    held: &Held,
    place: u16,
    kind: MergeKind,
) -> Result<TableStages, AllocError>
    requires plain { IsPlain (plain_of held.now) }
    requires there { place < length held.now.stages.items }
    ensures { IfOk result (λ stages. stages ≡ closing (plain_of held.now).journal held.now.sessions.items kind (stages_at held.now.stages.items place)) }
{
    let ids = needed(alloc, held)?;
    let stages = closing(
        alloc,
        ids.as_slice(),
        kind,
        &held.stages[usize::from(place)],
    )?;
    Ok(stages)
}

fn set_stages(stages: &mut Vec<TableStages>, place: u16, next: TableStages)
    requires { place < length stages.old.items }
    ensures { stages.new.items ≡ slice_set stages.old.items place next }
{
    stages[usize::from(place)] = next;
}

fn begun(
    alloc: Global,
    held: &Held,
    merges: u32,
    place: u16,
    kind: MergeKind,
) -> Result<Outcome, AllocError>
    requires plain { IsPlain (plain_of held.now) }
    requires merges { merges ≡ (current (plain_of held.now).journal).merges }
    requires counted { merges ≤ 1073741824 }
    requires there { place < length held.now.stages.items }
    ensures { IfOk result (λ out. Gives (merge_begun (plain_of held.now) place kind) out.reply (plain_of out.held)) }
{
    let number = merges + 1;
    let stages = closed(alloc, held, place, kind)?;
    let entry = Entry::Begun {
        n: number,
        table: place,
        kind,
    };
    let mut next = held.with_entry(alloc, entry)?;
    next.pending = Some(PendingMerge {
        number,
        table: place,
        kind,
    });
    set_stages(&mut next.stages, place, stages);
    Ok(Outcome {
        reply: Reply::Merge(number),
        held: next,
    })
}

/// `merge end`
pub(crate) fn merge_end(
    alloc: Global,
    held: &Held,
    sight: &Known,
    session: u8,
) -> Result<Outcome, AllocError>
    requires { Allowed (plain_of held.now) sight.now session Statement.MergeEnd }
    ensures { IfOk result (λ out. Gives (step (plain_of held.now) session Statement.MergeEnd) out.reply (plain_of out.held)) }
{
    let _sight = sight;
    let _session = session;
    match held.pending {
        None => stays(alloc, held, Reply::Done),
        Some(merge) => ended(alloc, held, merge),
    }
}

fn ended(alloc: Global, held: &Held, merge: PendingMerge) -> Result<Outcome, AllocError>
    requires { merge.table < length held.now.stages.items }
    ensures { IfOk result (λ out. Gives (merge_ended (plain_of held.now) (Some merge)) out.reply (plain_of out.held)) }
{
    let place = merge.table;
    let stages = switched(alloc, merge.kind, &held.stages[usize::from(place)])?;
    let mut next = held.with_entry(alloc, Entry::Ended { n: merge.number })?;
    next.pending = None;
    set_stages(&mut next.stages, place, stages);
    Ok(Outcome {
        reply: Reply::Merge(merge.number),
        held: next,
    })
}
