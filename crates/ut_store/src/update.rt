//! Update: the rows that meet a condition end, and a changed copy of each enters the first stage.
ghost use Rattle.ut_names.specs.declared.bound.Task.TheVariants as tasks;
ghost use Rattle.ut_store.specs.Executing.{Executes, MayExecute};

use crate::finish::no_memory;
use crate::{Outcome, Store};
use std::alloc::Global;
use ut_change::{Change, update_ops};
use ut_names::Target;
use ut_plain::Refusal;
use ut_tables::{Changes, Work};
use ut_value::Value;

impl Store {
    pub(crate) fn update(
        &mut self,
        alloc: Global,
        session: u8,
        target: Target,
        value: Value,
    ) -> Outcome
        requires { MayExecute self.old session (tasks.Update target value) }
        ensures { Executes self.old session (tasks.Update target value) result self.new }
    {
        let table = target.rows.table;
        let Ok(hits) = self.selected(alloc, session, &target.rows) else {
            return no_memory();
        };
        if !self.has_ids_for(hits.len()) {
            return Outcome::Refused(Refusal::Full);
        }
        let change = Change {
            table: table as u16,
            column: target.column,
        };
        let stages = self.rows.table(table);
        let Ok(ops) = update_ops(alloc, stages, change, self.counts.next_id, &value, &hits) else {
            return no_memory();
        };
        let work = Work {
            place: table,
            changes: Changes::Writes { hits: &hits, ops },
            rows: hits.len() as u32,
            inserts: hits.len() as u32,
        };
        self.finish(session, work)
    }
}
