//! What the bytes of directories have in common.
ghost use Rattle.ut_image.specs.Rules.{OneImage};

/// A directory has one list of tables.
pub fn one_image()
    ensures { OneImage }
{}
