//! What a statement comes to: its reply, and what the store holds then.
ghost use Rattle.std.specs.Prelude.{IfOk};
ghost use Rattle.check_oracle.specs.Store.{plain_of, refuses, Gives};

use crate::held::Held;
use std::alloc::{AllocError, Global};
use ut_plain::{Refusal, Reply};

/// A reply, and what the store holds then.
#[derive(Drop)]
pub(crate) struct Outcome {
    pub reply: Reply,
    pub held: Held,
}

/// A reply, and nothing changes.
pub(crate) fn stays(alloc: Global, held: &Held, reply: Reply) -> Result<Outcome, AllocError>
    ensures { IfOk result (λ out. Gives (record { reply = reply; plain = plain_of held.now }) out.reply (plain_of out.held)) }
{
    let held = held.copy(alloc)?;
    Ok(Outcome { reply, held })
}

/// A refusal.
pub(crate) fn refused(alloc: Global, held: &Held, why: Refusal) -> Result<Outcome, AllocError>
    ensures { IfOk result (λ out. Gives (refuses (plain_of held.now) why) out.reply (plain_of out.held)) }
{
    stays(alloc, held, Reply::Refused(why))
}
