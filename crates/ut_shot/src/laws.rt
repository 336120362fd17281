//! What a question is answered at a length of the journal, as laws that the crates above may rest on.
ghost use Rattle.ut_shot.specs.Laws.{AskedOutside, AnswersStay};

/// An answer at a length is that of a session outside a transaction then, and stays whatever is
/// appended.
pub fn answer_laws()
    ensures asked { AskedOutside }
    ensures stay { AnswersStay }
{}
