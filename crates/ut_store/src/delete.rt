//! Delete: the rows that meet a condition end.
ghost use Rattle.ut_names.specs.declared.bound.Task.TheVariants as tasks;
ghost use Rattle.ut_store.specs.Executing.{Executes, MayExecute};

use crate::finish::no_memory;
use crate::{Outcome, Store};
use std::alloc::Global;
use ut_change::delete_ops;
use ut_names::Selection;
use ut_tables::{Changes, Work};

impl Store {
    pub(crate) fn delete(&mut self, alloc: Global, session: u8, rows: Selection) -> Outcome
        requires { MayExecute self.old session (tasks.Delete rows) }
        ensures { Executes self.old session (tasks.Delete rows) result self.new }
    {
        let Ok(hits) = self.selected(alloc, session, &rows) else {
            return no_memory();
        };
        let Ok(ops) = delete_ops(alloc, rows.table as u16, &hits) else {
            return no_memory();
        };
        let work = Work {
            place: rows.table,
            changes: Changes::Writes { hits: &hits, ops },
            rows: hits.len() as u32,
            inserts: 0,
        };
        self.finish(session, work)
    }
}
