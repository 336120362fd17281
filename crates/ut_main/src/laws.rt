//! That a part's bytes are those of no other part.
ghost use Rattle.ut_main.specs.Laws.{OnePartEach};

/// No two parts that may stand behind the same main have the same bytes.
pub fn part_laws()
    ensures { OnePartEach }
{}
