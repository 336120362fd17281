//! Statements are bound to the tables that are there, and what was bound is executed.
ghost use Rattle.std.specs.Prelude.{◌≡◌, ◌<◌, ℕ, false, true, IsErr, IsTrue, IfOk, IfErr};
ghost use Rattle.ut_value.specs.Text.{is_name};
ghost use Rattle.ut_plain.specs.declared.reply.Reply.TheVariants.{Refused};
ghost use Rattle.ut_plain.specs.Refusals.{is_save};
ghost use Rattle.ut_plain.specs.Tables.{place_of};
ghost use Rattle.ut_names.specs.Binding.{Binds};
ghost use Rattle.ut_names.specs.declared.bound.Task.TheVariants as tasks;
ghost use Rattle.ut_store.specs.declared.response.Response.TheVariants.{Answered};
ghost use Rattle.ut_store.specs.Answers.{Answers};
ghost use Rattle.ut_store.specs.Executing.{Executes, MayExecute};
ghost use Rattle.ut_store.specs.Outcomes.{moved_outcome, shape_outcome};
ghost use Rattle.ut_store.specs.Standing.{Stands};

use crate::merges::merging;
use crate::{Outcome, Store};
use std::alloc::{AllocError, Global};
use ut_names::{Bound, Question, Task, bind, table_place};
use ut_plain::{Refusal, Shape, Statement};
use ut_query::answer;
use ut_value::Name;

impl Store {
    /// A statement with its names bound and its values moved, or why it is refused.
    pub fn bind(&self, alloc: Global, st: Statement) -> Result<Bound, Refusal>
        requires { Stands self.now }
        ensures ok { IfOk result (Binds self.now.rows.tables st) }
        ensures err { IfErr result (λ why. (session : ℕ) → session < 17 → is_save st ≡ false
            → Answers self.now session st (Answered (Refused why)) self.now) }
        // None of a savepoint is refused.
        ensures save { is_save st ≡ true → IsErr result → ⊥ }
    {
        bind(alloc, self.rows.tables(), st)
    }

    /// The place of the table of a name, in order of creation.
    pub fn place_of(&self, name: &Name) -> Option<usize>
        ensures place { result ≡ place_of self.now.rows.tables name.now }
        // A name is one.
        ensures rule { IsTrue (is_name name.now) }
    {
        table_place(self.rows.tables(), name)
    }

    /// Executes what was bound. Where the outcome says so, the log has to append the store's frame before it is told. A commit
    /// and an abort take no memory.
    pub fn execute(&mut self, alloc: Global, session: u8, task: Task) -> Outcome
        requires { MayExecute self.old session task }
        ensures { Executes self.old session task result self.new }
    {
        match task {
            Task::Insert { table, values } => self.insert(session, table, values),
            Task::Load {
                table,
                width,
                values,
            } => self.load(session, table, width, values),
            Task::Update { target, value } => self.update(alloc, session, target, value),
            Task::Delete(rows) => self.delete(alloc, session, rows),
            Task::Ask(question) => self.tell(alloc, session, question),
            Task::Create(table) => self.create(alloc, session, table),
            Task::Begin => self.begin(session),
            Task::Commit => self.commit(session),
            Task::Abort => self.abort(session),
            Task::MergeL1 { table, n } => moved(self.merge_l1(table, n)),
            Task::MergeBegin { table, kind } => merging(self.merge_begin(alloc, table, kind)),
            Task::Shape { table } => shown(self.shape(alloc, table)),
        }
    }

    // What is asked.
    fn tell(&self, alloc: Global, session: u8, question: Question) -> Outcome
        requires { MayExecute self.now session (tasks.Ask question) }
        ensures { Executes self.now session (tasks.Ask question) result self.now }
    {
        match answer(alloc, &self.look(session), &question) {
            Ok(reply) => Outcome::Told(reply),
            Err(_) => Outcome::Refused(Refusal::Memory),
        }
    }
}

// The outcome of rows that were to be moved to a second stage.
fn moved(answer: Result<u32, AllocError>) -> Outcome
    ensures { result ≡ moved_outcome answer }
{
    match answer {
        Ok(moved) => Outcome::Moved(moved),
        Err(_) => Outcome::Refused(Refusal::Memory),
    }
}

// The outcome of the question how many rows stand in each stage.
fn shown(answer: Result<Shape, AllocError>) -> Outcome
    ensures { result ≡ shape_outcome answer }
{
    match answer {
        Ok(shape) => Outcome::Shape(shape),
        Err(_) => Outcome::Refused(Refusal::Memory),
    }
}
