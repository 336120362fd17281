//! Insert: one row enters the first stage of its table.
ghost use Rattle.ut_names.specs.declared.bound.Task.TheVariants as tasks;
ghost use Rattle.ut_store.specs.Executing.{Executes, MayExecute};

use crate::{Outcome, Store};
use ut_change::Entering;
use ut_tables::{Changes, Work};
use ut_value::{Seq, Value};

impl Store {
    pub(crate) fn insert(&mut self, session: u8, table: usize, values: Seq<Value>) -> Outcome
        requires { MayExecute self.old session (tasks.Insert table values) }
        ensures { Executes self.old session (tasks.Insert table values) result self.new }
    {
        let row = Entering {
            table: table as u16,
            id: self.counts.next_id,
            values,
        };
        let work = Work {
            place: table,
            changes: Changes::Enters(row),
            rows: 1,
            inserts: 1,
        };
        self.finish(session, work)
    }
}
