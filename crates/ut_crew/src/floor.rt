//! Where a crew works, and how a pass comes back.
use crate::bell::Bell;
use crate::role::{Build, Kept, Role, Went};
use std::snapshot::Snapshot;
use std::thread::{Promise, PromisedHandle};
use ut_gate::{Act, Gate, Held, Pass};

/// What all members share.
#[derive(Drop)]
pub(crate) struct Floor<E: Held> {
    pub gate: Gate<E>,
    pub bell: Bell,
}

/// A pass that came back, and the part that it went out for.
#[derive(Drop)]
pub(crate) struct Done<E: Held, A: Drop, M: Drop, S: Drop> {
    pub pass: Pass<E>,
    pub part: Snapshot<Role<A, M, S>>,
}

/// The pass that comes back is of this floor's gate, and who had the part has left.
pub(crate) struct OfFloor<'a, E: Held, A: Drop, M: Drop, S: Drop> {
    pub floor: &'a Floor<E>,
    pub part: Snapshot<Role<A, M, S>>,
}

impl<'a, E: Held, A: Drop, M: Drop, S: Drop> Drop for OfFloor<'a, E, A, M, S> {
    fn drop(self) {
        let OfFloor { floor: _, part: _ } = self;
    }
}

impl<
    'a,
    E: Held,
    A: Act<E, Answer = Went> + Drop,
    M: Act<E, Answer = Kept> + Build<E> + Drop,
    S: Act<E, Answer = Kept> + Drop,
> Promise<Pass<E>> for OfFloor<'a, E, A, M, S> {
    ghost use Rattle.std.specs.Prelude.{◌≡◌};
    ghost use Rattle.ut_crew.specs.Leaving.{HasLeft};

    ghost kept_by = { λ p r. (r.gate ≡ p.floor.now.gate) × HasLeft E.book E.job (E.stands_on E.ground) M.relates M.End.asks M.End.relates M.unbuilt A.relates S.relates p.part.value r };
}

/// A member works in a thread, by this part; or it worked at once, since there was none for it.
pub(crate) type Begun<'a, E, A, M, S> = Result<
    (
        PromisedHandle<Pass<E>, OfFloor<'a, E, A, M, S>>,
        Snapshot<Role<A, M, S>>,
    ),
    Done<E, A, M, S>,
>;
