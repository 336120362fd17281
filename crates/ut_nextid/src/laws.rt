//! What is noted of the next id, as a law that a crate above may rest on.
ghost use Rattle.ut_nextid.specs.NextIds.{NoteKeeps};

/// With each statement, what is noted stays the plain store's.
#[tactic(auto, using(crate::proofs::NoteLaws::note_keeps))]
pub fn note_laws()
    ensures keeps { NoteKeeps }
{}
