//! A statement's work: refused, or done.
ghost use Rattle.std.specs.Prelude.{◌≡◌};
ghost use Rattle.ut_store.specs.Works.{AnswersWork, IsAskedWork, IsReady};

use crate::{Outcome, Store};
use ut_plain::Refusal;
use ut_tables::Work;

impl Store {
    /// Does the work of a statement, if limits and the other transactions allow it.
    pub(crate) fn finish(&mut self, session: u8, work: Work<'_>) -> Outcome
        requires asked { IsAskedWork self.old session work }
        requires ready { IsReady self.old work }
        ensures { AnswersWork self.old session work.entry result self.new }
    {
        let bytes = match self.measured(session, &work) {
            Ok(bytes) => bytes,
            Err(why) => return Outcome::Refused(why),
        };
        let rows = work.rows;
        match self.sessions.opened(session) {
            Some(opened) => match self.work_inside(session, opened, bytes, work) {
                Ok(()) => Outcome::Changed { rows, commit: None },
                Err(_) => no_memory(),
            },
            None => {
                if work.changes.is_empty() {
                    return Outcome::Changed {
                        rows: 0,
                        commit: None,
                    };
                }
                match self.work_alone(bytes, work) {
                    Ok(()) => Outcome::Changed {
                        rows,
                        commit: Some(self.counts.commits),
                    },
                    Err(_) => no_memory(),
                }
            }
        }
    }
}

/// The outcome where memory ran out.
pub(crate) fn no_memory() -> Outcome
    ensures { result ≡ Outcome.Refused Refusal.Memory }
{
    Outcome::Refused(Refusal::Memory)
}
