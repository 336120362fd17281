//! Why entries are no journal of a store.
ghost use Rattle.std.specs.Prelude.{◌≡◌};
ghost use Rattle.ut_restart.specs.declared.error.RestartError.TheVariants.{Memory};

use std::alloc::AllocError;
use thiserror::Error;

/// Why entries are no journal of a store.
#[derive(Debug, Drop, Error)]
pub enum RestartError {
    #[error("the entries are no journal")]
    Damaged,
    #[error("out of memory")]
    Memory,
}

impl From<AllocError> for RestartError {
    ghost from_gives = { λ _ e. e ≡ Memory };

    fn from(_: AllocError) -> Self {
        RestartError::Memory
    }
}
