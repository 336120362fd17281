//! A question, its names resolved once.
ghost use Rattle.std.specs.Prelude.{IfOk, IfErr};
ghost use Rattle.ut_plain.specs.Names.{query_known};
ghost use Rattle.ut_plain.specs.Kinds.{query_fits};
ghost use Rattle.ut_names.specs.Resolved.{Hinders};
ghost use Rattle.ut_look.specs.Look.{sight};
ghost use Rattle.ut_query.specs.Look.{CanLook};
ghost use Rattle.ut_query.specs.Tells.{IsAsked, IsAnswer, Tells};

use crate::answers::{count_rows, extreme_of, groups_of, pairs_of, select_rows, sum_of};
use std::alloc::{AllocError, Global};
use ut_look::Look;
use ut_names::{Question, question};
use ut_plain::{Query, Refusal, Reply};

/// The answer to a question over the rows that are seen, or why there is none: a name that isn't there, else a kind that
/// doesn't suit, else that memory ran out. Reads what it is asked for and changes nothing.
pub fn ask(alloc: Global, look: &Look<'_>, query: &Query) -> Result<Reply, Refusal>
    requires { CanLook (sight look.now) }
    ensures ok { IfOk result (IsAnswer (sight look.now) query.now) }
    ensures err { IfErr result (Hinders (query_known look.now.tables.now query.now) (query_fits look.now.tables.now query.now)) }
{
    let question = question(alloc, look.tables, query)?;
    match answer(alloc, look, &question) {
        Ok(reply) => Ok(reply),
        Err(_) => Err(Refusal::Memory),
    }
}

/// The answer to a question whose names are bound, over the rows that are seen. An error says that memory ran out.
pub fn answer(alloc: Global, look: &Look<'_>, question: &Question) -> Result<Reply, AllocError>
    requires looks { CanLook (sight look.now) }
    requires asked { IsAsked look.now.tables.now question.now }
    ensures { IfOk result (Tells (sight look.now) question.now) }
{
    match question {
        Question::Select { rows, columns } => select_rows(alloc, look, rows, columns),
        Question::Count { rows } => count_rows(alloc, look, rows),
        Question::Sum { rows, column } => sum_of(alloc, look, rows, *column),
        Question::Extreme { rows, column, end } => extreme_of(alloc, look, rows, *column, *end),
        Question::Group { rows, key, sum } => groups_of(alloc, look, rows, *key, *sum),
        Question::Join {
            left,
            left_column,
            right,
            right_column,
        } => pairs_of(alloc, look, *left, *left_column, *right, *right_column),
    }
}
