//! What a store must be that is opened again.
use check_run::run::Ran;
use row_files::{Row, Wanted};
use ut_app::Status;
use ut_outside::Ack;

/// Which roots a store may be opened with.
#[derive(Clone, Copy)]
pub(crate) enum Root {
    First,
    Either,
    Saved,
}

/// How many entries the journal had at the last reply that had begun where so many calls of the disk had returned.
fn told_by(acks: &[Ack], moment: u64) -> u64 {
    let mut told = 0;
    for ack in acks {
        if ack.moment <= moment {
            told = ack.journal;
        }
    }
    told
}

/// How many replies had begun by then.
pub(crate) fn replies_by(acks: &[Ack], moment: u64) -> usize {
    acks.iter().filter(|ack| ack.moment <= moment).count()
}

/// What is kept: so many entries of the journal or one more, and a root. Only a store that isn't made yet may lack.
#[derive(Clone, Copy)]
pub(crate) struct Kept {
    pub entries: u64,
    pub root: Root,
    pub may_lack: bool,
}

/// What is looked for.
#[derive(Clone, Copy)]
pub(crate) enum Must {
    Keep(Kept),
    Be(Wanted),
}

/// How many calls of the disk it takes to make the store of a row, and how many entries it has before its script.
#[derive(Clone, Copy)]
pub(crate) struct Base {
    pub making: u64,
    pub entries: u64,
}

impl Base {
    /// What a crash keeps of a run where so many calls of the disk had returned.
    pub(crate) fn kept_at(self, row: &Row<'_>, acks: &[Ack], moment: u64) -> Kept {
        Kept {
            entries: self.entries.max(told_by(acks, moment)),
            root: root_at(row, acks, moment),
            may_lack: moment < self.making,
        }
    }

    /// What is kept of a run whose call of the disk failed.
    pub(crate) fn kept_behind(self, row: &Row<'_>, acks: &[Ack], call: u64) -> Kept {
        Kept {
            entries: self.entries.max(told_by(acks, u64::MAX)),
            root: root_behind(row, acks.len()),
            may_lack: call < self.making,
        }
    }
}

// The root of a savepoint may be selected once the calls of its flip have begun, and no other one behind its reply.
fn root_at(row: &Row<'_>, acks: &[Ack], moment: u64) -> Root {
    let Some(flip) = row.flip else {
        return Root::First;
    };
    if moment >= moment_of(acks, flip) {
        return Root::Saved;
    }
    if moment < moment_of(acks, flip.saturating_sub(1)) {
        return Root::First;
    }
    Root::Either
}

/// The moment at which the reply to the line at a place began.
pub(crate) fn moment_of(acks: &[Ack], line: usize) -> u64 {
    acks.get(line).map_or(u64::MAX, |ack| ack.moment)
}

// Which root may be selected behind a run that failed with its last reply.
fn root_behind(row: &Row<'_>, replies: usize) -> Root {
    let Some(flip) = row.flip else {
        return Root::First;
    };
    if replies > flip.saturating_add(1) {
        return Root::Saved;
    }
    if replies <= flip {
        return Root::First;
    }
    Root::Either
}

/// Whether a store that was opened, and asked the question, is what it must be.
pub(crate) fn meets(row: &Row<'_>, ran: &Ran, must: Must) -> bool {
    match must {
        Must::Keep(kept) => has_kept(row, ran, kept),
        Must::Be(wanted) => is(row, ran, wanted),
    }
}

fn has_kept(row: &Row<'_>, ran: &Ran, kept: Kept) -> bool {
    match ran.status {
        Status::NoStore => kept.may_lack && kept.entries == 0,
        Status::Done => has(row, ran, kept.entries, kept.root) || has_one_more(row, ran, kept),
        _ => false,
    }
}

fn has_one_more(row: &Row<'_>, ran: &Ran, kept: Kept) -> bool {
    has(row, ran, kept.entries.saturating_add(1), kept.root)
}

// Whether a store has so many entries, opened with such a root. A row without a question is asked nothing but that number.
fn has(row: &Row<'_>, ran: &Ran, entries: u64, root: Root) -> bool {
    if row.question.is_empty() {
        return ran.journal == entries;
    }
    let told = ran.replies.as_slice();
    row.states.iter().any(|state| state.entries == entries
        && is_of(state.is_saved, root)
        && state.answer.as_slice() == told)
}

fn is_of(is_saved: bool, root: Root) -> bool {
    match root {
        Root::First => !is_saved,
        Root::Either => true,
        Root::Saved => is_saved,
    }
}

fn is(row: &Row<'_>, ran: &Ran, wanted: Wanted) -> bool {
    let is_done = ran.status == Status::Done;
    let is_damaged = ran.status == Status::Damaged;
    match wanted {
        Wanted::Opened => is_done,
        Wanted::Damaged => is_damaged,
        Wanted::OpenedOrDamaged => is_done || is_damaged,
        Wanted::NoStore => ran.status == Status::NoStore,
        Wanted::Left(entries) => is_done && has(row, ran, entries, Root::First),
        Wanted::Saved(entries) => is_done && has(row, ran, entries, Root::Saved),
    }
}
