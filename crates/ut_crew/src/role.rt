//! What the members of a crew do, in their turns and outside them.
ghost use Rattle.std.specs.Prelude.{◌≡◌, [], ◌++◌, Some, IfSome, IfNone, option_to_list};
ghost use Rattle.ut_crew.specs.Starting.{left_of};

use ut_gate::{Act, Held};

/// What a session's turn came to.
#[derive(Clone, Copy, Debug, PartialEq, Eq)]
pub enum Went {
    /// There may be another turn, and no keeper that sleeps has more to do than before.
    On,
    /// There may be another turn, and a keeper that sleeps may have something to do.
    Due,
    /// There is no other turn.
    Over,
}

/// What a keeper's turn came to.
#[derive(Clone, Copy, Debug, PartialEq, Eq)]
pub enum Kept {
    /// There may be more to do at once.
    Did,
    /// So there may be for the other keeper, even if it sleeps.
    Due,
    /// There is nothing to do until others have done something.
    Idle,
    /// There will be nothing to do.
    Over,
}

/// What a session does outside the turns. It tells nothing.
pub trait Between {
    /// Called behind each turn that there may be another one after.
    fn between(&self);
}

/// What a merger does outside the turns: it builds what a job asks for.
pub trait Build<E: Held> {
    /// Ends a job, in a turn.
    type End: Act<E, Answer = Kept> + Send + Drop;

    /// What has to be known of a builder before it builds.
    ghost ready: { Self → Type 0 };

    /// What is known where a job could not be built.
    ghost unbuilt: { Self → E.Job → Type 0 };

    /// An act that may end the job. Without one the merger is over, and the job stays.
    fn build(&self, job: &E::Job) -> Option<Self::End>
        requires ready { ready self.now }
        ensures ends { IfSome result (λ end. Self.End.asks end (record { job = Some job.now })) }
        ensures none { IfNone result (unbuilt self.now job.now) };
}

/// The part that a thread plays.
#[derive(Drop)]
pub(crate) enum Role<A: Drop, M: Drop, S: Drop> {
    Session(A),
    Merger(M),
    Saver(S),
}

/// The parts that are still to be given out: the keepers' first, and the last session's before the others'.
#[derive(Drop)]
pub(crate) struct Parts<A: Drop, M: Drop, S: Drop> {
    pub saver: Option<S>,
    pub merger: Option<M>,
    pub sessions: Vec<A>,
}

impl<A: Drop, M: Drop, S: Drop> Parts<A, M, S> {
    pub(crate) fn next(&mut self) -> Option<Role<A, M, S>>
        ensures given { left_of self.old.saver self.old.merger self.old.sessions.items ≡ option_to_list result ++ left_of self.new.saver self.new.merger self.new.sessions.items }
        ensures none { IfNone result (left_of self.old.saver self.old.merger self.old.sessions.items ≡ []) }
    {
        if let Some(saver) = self.saver.take() {
            return Some(Role::Saver(saver));
        }
        if let Some(merger) = self.merger.take() {
            return Some(Role::Merger(merger));
        }
        let session = self.sessions.pop()?;
        Some(Role::Session(session))
    }
}
