//! Bulk: rows are loaded into the second stage of their table.
ghost use Rattle.ut_names.specs.declared.bound.Task.TheVariants as tasks;
ghost use Rattle.ut_store.specs.Executing.{Executes, MayExecute};

use crate::{Outcome, Store};
use ut_change::{Bulk, rows_in};
use ut_plain::Refusal;
use ut_tables::{Changes, Work};
use ut_value::{Seq, Value};

impl Store {
    pub(crate) fn load(
        &mut self,
        session: u8,
        table: usize,
        width: usize,
        values: Seq<Value>,
    ) -> Outcome
        requires { MayExecute self.old session (tasks.Load table width values) }
        ensures { Executes self.old session (tasks.Load table width values) result self.new }
    {
        let values = values.as_slice();
        let count = rows_in(width, values);
        if !self.has_ids_for(count) {
            return Outcome::Refused(Refusal::Full);
        }
        let bulk = Bulk {
            table: table as u16,
            id: self.counts.next_id,
            width,
            values,
        };
        let work = Work {
            place: table,
            changes: Changes::Loads(bulk),
            rows: count as u32,
            inserts: count as u32,
        };
        self.finish(session, work)
    }
}
