//! For each definition that walks over a list: what its value is, and that nothing else is that.
ghost use Rattle.std.specs.Ordering.{is_lt, is_gt};
ghost use Rattle.ut_meaning.specs.Best.{TellsBest, IsOnlyBest};
ghost use Rattle.ut_meaning.specs.Keeping.{KeepsWhatIsSeen};
ghost use Rattle.ut_meaning.specs.Keys.{CountsKeys, IsOnlyOwnDict, OwnDictHasNewKeys};
ghost use Rattle.ut_meaning.specs.Marking.{KeepsShape, MarksNone, MarksOne};
ghost use Rattle.ut_meaning.specs.Occurring.{DistinctOccur, IsOnlyDistinct};
ghost use Rattle.ut_meaning.specs.Resorting.{ColumnsAreByCount, IsOnlyColumnOrder, IsOnlyResorted, PlacesAreResorted};

/// The least value of a column is one of its values that none of them is below; the greatest likewise.
pub fn best_value()
    ensures least { TellsBest is_lt }
    ensures only_least { IsOnlyBest is_lt }
    ensures greatest { TellsBest is_gt }
    ensures only_greatest { IsOnlyBest is_gt }
{}

/// The keys of groups are the values that occur, each once, ascending.
pub fn occurring_values()
    ensures occur { DistinctOccur }
    ensures only { IsOnlyDistinct }
{}

/// An own dictionary has the keys that are new, each once, ascending; and how many different keys there are.
pub fn different_keys()
    ensures new { OwnDictHasNewKeys }
    ensures only { IsOnlyOwnDict }
    ensures count { CountsKeys }
{}

/// The re-sorted places are all places, sorted, by the columns, sorted.
pub fn resorted_places()
    ensures columns { ColumnsAreByCount }
    ensures only_columns { IsOnlyColumnOrder }
    ensures places { PlacesAreResorted }
    ensures only { IsOnlyResorted }
{}

/// A delete that is replayed marks the one place of its row that isn't dead yet.
pub fn marked_places()
    ensures one { MarksOne }
    ensures none { MarksNone }
    ensures shape { KeepsShape }
{}

/// A merge keeps the rows that somebody sees.
pub fn needed_rows()
    ensures seen { KeepsWhatIsSeen }
{}
