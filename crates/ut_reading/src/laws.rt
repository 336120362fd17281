//! What a store's files determine, as laws that a program above may rest on.
ghost use Rattle.ut_reading.specs.Laws.{OneStore, OneImageEach, ImageIsBase, OneBase, ImageMayOpen};
ghost use Rattle.ut_reading.specs.Restored.{PrefixIsRestored};

/// Files are those of one journal at most, and those that hold a prefix give it back.
pub fn reading_laws()
    ensures store { OneStore }
    ensures image { OneImageEach }
    ensures base { ImageIsBase }
    ensures one { OneBase }
    ensures opens { ImageMayOpen }
    ensures restores { PrefixIsRestored }
{}
