//! Why a store could not be made or opened, why no row was moved from a first stage to a second, and why no merge or savepoint began or went on.
ghost use Rattle.std.specs.Prelude.{◌≡◌};
ghost use Rattle.ut_engine.specs.Opening.{of_page, of_redo, of_restart};
ghost use Rattle.ut_engine.specs.declared.error.OpenError.TheVariants.{Disk as DiskFault, Memory};

use std::alloc::AllocError;
use thiserror::Error;
use ut_outside::Failed;
use ut_pages::PageError;
use ut_plain::Why;
use ut_redo::RedoError;
use ut_restart::RestartError;

/// Why a store could not be made or opened.
#[derive(Clone, Copy, Debug, PartialEq, Eq, Error)]
pub enum OpenError {
    #[error("the store is made")]
    Made,
    #[error("there is no store")]
    NotMade,
    #[error("the store is damaged")]
    Damaged,
    #[error("the disk failed")]
    Disk,
    #[error("out of memory")]
    Memory,
}

impl From<Failed> for OpenError {
    ghost from_gives = { λ _ e. e ≡ DiskFault };

    fn from(_: Failed) -> Self {
        OpenError::Disk
    }
}

impl From<AllocError> for OpenError {
    ghost from_gives = { λ _ e. e ≡ Memory };

    fn from(_: AllocError) -> Self {
        OpenError::Memory
    }
}

impl From<PageError> for OpenError {
    ghost from_gives = { λ x e. e ≡ of_page x };

    fn from(error: PageError) -> Self {
        match error {
            PageError::Damaged => OpenError::Damaged,
            PageError::Disk => OpenError::Disk,
            PageError::Memory => OpenError::Memory,
        }
    }
}

impl From<RedoError> for OpenError {
    ghost from_gives = { λ x e. e ≡ of_redo x };

    fn from(error: RedoError) -> Self {
        match error {
            RedoError::Damaged => OpenError::Damaged,
            RedoError::Disk => OpenError::Disk,
            RedoError::Memory => OpenError::Memory,
        }
    }
}

impl From<RestartError> for OpenError {
    ghost from_gives = { λ x e. e ≡ of_restart x };

    fn from(error: RestartError) -> Self {
        match error {
            RestartError::Damaged => OpenError::Damaged,
            RestartError::Memory => OpenError::Memory,
        }
    }
}

/// Why no row was moved from a first stage to a second.
#[derive(Clone, Copy, Debug, PartialEq, Eq, Error)]
pub enum L1Error {
    #[error("there is no such table")]
    Name,
    #[error("out of memory")]
    Memory,
}

/// Why no merge into main began. `Busy` has the number of the merge that is pending.
#[derive(Clone, Copy, Debug, PartialEq, Eq, Error)]
pub enum BeginError {
    #[error("there is no such table")]
    Name,
    #[error("merge {0} has not ended")]
    Busy(u32),
    #[error("there is no room for a merge")]
    Full,
    #[error("out of memory")]
    Memory,
    #[error("the disk failed")]
    Disk,
}

/// Why no savepoint began. `State` says that one is under way, `Full` that there are no numbers for its pages.
#[derive(Clone, Copy, Debug, PartialEq, Eq, Error)]
pub enum SaveError {
    #[error("a savepoint is under way")]
    State(Why),
    #[error("there are no page numbers for a savepoint")]
    Full,
    #[error("out of memory")]
    Memory,
    #[error("the disk failed")]
    Disk,
}

/// Why a savepoint did not go on. `State` says that it isn't the turn of this call.
#[derive(Clone, Copy, Debug, PartialEq, Eq, Error)]
pub enum PhaseError {
    #[error("it is not the turn of this call")]
    State(Why),
    #[error("the disk failed")]
    Disk,
}
