//! The next id of the journal, and those that open transactions come to.
ghost use Rattle.std.specs.Prelude.{◌≡◌, ◌<◌, IfOk, IsTrue};
ghost use Rattle.ut_plain.specs.State.{State};
ghost use Rattle.ut_plain.specs.Journal.{after_all, can_all};
ghost use Rattle.ut_nextid.specs.NextIds.{ending_of, entries_next, entry_next, ops_next, op_next, nobody, noted_as, over, with_abort, with_commit, with_rows};

use std::alloc::{AllocError, Global};
use std::marker::Model;
use ut_plain::{Reply, Statement};
use ut_value::{Entry, Op, SEATS};

/// How a statement ends its session's transaction.
#[derive(Clone, Copy, Debug, PartialEq, Eq)]
pub enum Ending {
    Commit,
    Abort,
    Neither,
}

/// How a statement ends its session's transaction.
pub fn ending_of(st: &Statement) -> Ending
    ensures { result ≡ ending_of st.now }
{
    match st {
        Statement::Commit => Ending::Commit,
        Statement::Abort => Ending::Abort,
        _ => Ending::Neither,
    }
}

/// One above the greatest id that the journal's entries inserted, and for each session the same of its open transaction, 0 where it inserted none.
/// A store gives ids to rows of transactions that are given up, so its own next id may be greater.
#[derive(Drop)]
pub struct NextIds {
    next: u32,
    own: Vec<u32>,
}

impl Model for NextIds {
    ghost use Rattle.std.specs.Prelude.{◌≡◌, length};
    ghost use Rattle.ut_nextid.specs.NextIds.{Noted};

    ghost Value = { Noted };

    ghost view = { λ n. record { next = n.next; own = n.own.items } };

    ghost invariant = { λ n. length n.own.items ≡ 17 };
}

impl NextIds {
    /// Those of a journal that begins with this next id and has these entries. Nobody has a transaction.
    #[tactic(auto, using(crate::proofs::NoteLaws::next_is))]
    pub fn opened(alloc: Global, next: u32, entries: &[Entry]) -> Result<NextIds, AllocError>
        ensures { IfOk result (λ n. (s : State) → s.next ≡ next → IsTrue (can_all s entries.now) → n ≡ nobody (after_all s entries.now).next) }
    {
        let own = vec![in alloc; 0; SEATS]?;
        Ok(NextIds {
            next: next_behind(next, entries),
            own,
        })
    }

    /// The next id of the journal.
    pub fn next(&self) -> u32
        ensures { result ≡ self.now.next }
    {
        self.next
    }

    /// Notes what a statement of a session was answered that ends its transaction so, and the next id of the store before it and after it.
    pub fn note(&mut self, session: u8, ending: Ending, reply: &Reply, before: u32, after: u32)
        requires { session < 17 }
        ensures { self.new ≡ noted_as self.old session ending reply.now before after }
    {
        match ending {
            Ending::Commit => self.note_commit(session, reply),
            Ending::Abort => self.note_abort(session, reply),
            Ending::Neither => {
                if before < after {
                    self.note_rows(session, reply, after);
                }
            }
        }
    }

    fn note_commit(&mut self, session: u8, reply: &Reply)
        requires { session < 17 }
        ensures { self.new ≡ with_commit self.old session reply.now }
    {
        match reply {
            Reply::Committed(_) => {
                let own = self.own[session as usize];
                if self.next < own {
                    self.next = own;
                }
                self.end(session);
            }
            Reply::Done => self.end(session),
            _ => {}
        }
    }

    fn note_abort(&mut self, session: u8, reply: &Reply)
        requires { session < 17 }
        ensures { self.new ≡ with_abort self.old session reply.now }
    {
        match reply {
            Reply::Done => self.end(session),
            _ => {}
        }
    }

    fn note_rows(&mut self, session: u8, reply: &Reply, after: u32)
        requires { session < 17 }
        ensures { self.new ≡ with_rows self.old session reply.now after }
    {
        match reply {
            Reply::Changed { commit, .. } => match commit {
                Some(_) => self.next = after,
                None => self.own[session as usize] = after,
            },
            _ => {}
        }
    }

    // The session's transaction is over.
    fn end(&mut self, session: u8)
        requires { session < 17 }
        ensures { self.new ≡ over self.old session }
    {
        self.own[session as usize] = 0;
    }
}

// The next id behind entries.
fn next_behind(next: u32, entries: &[Entry]) -> u32
    ensures { result ≡ entries_next next entries.now }
{
    let mut behind = next;
    for entry in entries {
        behind = entry_next(behind, entry);
    }
    behind
}

fn entry_next(next: u32, entry: &Entry) -> u32
    ensures { result ≡ entry_next next entry.now }
{
    match entry {
        Entry::Txn { ops } => ops_next(next, ops.as_slice()),
        _ => next,
    }
}

fn ops_next(next: u32, ops: &[Op]) -> u32
    ensures { result ≡ ops_next next ops.now }
{
    let mut behind = next;
    for op in ops {
        behind = op_next(behind, op);
    }
    behind
}

fn op_next(next: u32, op: &Op) -> u32
    ensures { result ≡ op_next next op.now }
{
    match op {
        Op::Insert { id, .. } => next.max(id.saturating_add(1)),
        Op::Delete { .. } => next,
    }
}
