//! What is left where no store could be made or opened.
use crate::error::OpenError;
use ut_outside::Disk;

/// Why a store could not be made or opened, and the disk, which is handed back.
#[derive(Drop)]
pub struct Unopened<'d, D: Disk> {
    pub cause: OpenError,
    pub disk: &'d mut D,
}
