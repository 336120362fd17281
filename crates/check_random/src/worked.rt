//! Worked scripts for runs with a refused allocation. The slow store says their replies.
use std::alloc::{AllocError, Global};

/// The lines of a script, or of a piece of one.
type Lines = &'static [&'static str];

/// Rows that are refused for their names and kinds.
const REFUSED_ROWS: Lines = &[
    "1 create T k:int v:text",
    "1 insert X 1",
    "1 insert T 5",
    "1 insert T 'a' 5",
    "2 select T *",
    "1 select T *",
];

/// A load of texts in a transaction that is committed, and rows that move. A text of more than 24 bytes takes an allocation.
const A_LOAD_IN_A_TRANSACTION: Lines = &[
    "1 create T k:int v:text",
    "1 insert T 1 'one'",
    "1 begin",
    "1 bulk T 2 'two, spelled in more than a few letters' 3 'it''s long, and has a quote in it' 4 ''",
    "1 insert T 5 'five'",
    "2 select T *",
    "0 merge l1 T 1",
    "1 update T set v 'new, and no shorter than it was' where k = 3",
    "1 select T * where v <> 'two, spelled in more than a few letters'",
    "1 commit",
    "0 merge l1 T 10",
    "0 shape T",
    "2 select T *",
];

/// A load of a hundred sevens.
const SEVENS: &str =
    "1 bulk T 7 7 7 7 7 7 7 7 7 7 7 7 7 7 7 7 7 7 7 7 7 7 7 7 7 7 7 7 7 7 7 7 7 7 7 7 7 7 7 7 7 7 7 7 7 7 7 7 7 7 7 7 7 7 7 7 7 7 7 7 7 7 7 7 7 7 7 7 7 7 7 7 7 7 7 7 7 7 7 7 7 7 7 7 7 7 7 7 7 7 7 7 7 7 7 7 7 7 7 7";

/// A load of a hundred eights.
const EIGHTS: &str =
    "1 bulk T 8 8 8 8 8 8 8 8 8 8 8 8 8 8 8 8 8 8 8 8 8 8 8 8 8 8 8 8 8 8 8 8 8 8 8 8 8 8 8 8 8 8 8 8 8 8 8 8 8 8 8 8 8 8 8 8 8 8 8 8 8 8 8 8 8 8 8 8 8 8 8 8 8 8 8 8 8 8 8 8 8 8 8 8 8 8 8 8 8 8 8 8 8 8 8 8 8 8 8 8";

/// Rows in two parts of main, by a classic merge and a partial one.
const TWO_PARTS: Lines = &[
    "1 create T k:int",
    "1 bulk T 2 4 6",
    "0 merge begin T classic",
    "0 merge end",
    "1 bulk T 1 4 9",
    "0 merge begin T partial",
    "0 merge end",
];

/// A row of a number and a text.
const A_ROW_IS_SELECTED: Lines = &[
    "1 create T k:int v:text",
    "1 insert T 5 'a'",
    "1 select T *",
];

/// A transaction sees the journal as it was, and its own rows.
const A_SNAPSHOT_SEES_NO_LATER_COMMIT: Lines = &[
    "1 create T k:int",
    "1 insert T 5",
    "1 begin",
    "1 insert T 6",
    "2 count T",
    "2 update T set k 7 where k = 5",
    "1 select T *",
    "1 delete T",
    "1 delete T where k = 6",
    "1 commit",
    "1 select T *",
];

/// Inserts enter the first stage, bulk loads the second, and a merge moves rows there.
const ROWS_STAND_IN_TWO_STAGES: Lines = &[
    "1 create T k:int",
    "1 bulk T 1 2",
    "1 insert T 3",
    "0 shape T",
    "0 merge l1 T 10",
    "0 shape T",
];

/// An update gives a row a fresh id; sums and bests of no rows.
const AN_UPDATE_MOVES_A_ROW_TO_THE_END: Lines = &[
    "1 create T k:int v:int",
    "1 bulk T 1 10 2 20",
    "1 update T set v 5 where k = 1",
    "1 select T *",
    "1 update T set v 5 where k = 9",
    "1 max T v where k > 1",
    "1 min T v where k = 9",
    "1 sum T v where k = 9",
];

/// Joins give all pairs, groups come by ascending key.
const PAIRS_ARE_JOINED_AND_GROUPS_SUMMED: Lines = &[
    "1 create T a:int",
    "1 create U b:int c:text",
    "1 bulk T 2 1 2",
    "1 bulk U 2 'x' 2 'y'",
    "1 join T a U b",
    "1 join T a U c",
    "1 create V k:int w:int",
    "1 bulk V 1 5 0 -7 1 2",
    "1 group V k sum w",
];

/// A merge keeps a deleted row for the snapshot that sees it, and the next one drops it.
const A_MERGE_KEEPS_WHAT_A_SNAPSHOT_SEES: Lines = &[
    "1 create T k:int",
    "1 insert T 5",
    "0 merge l1 T 10",
    "1 begin",
    "2 delete T where k = 5",
    "0 merge begin T classic",
    "0 merge end",
    "1 select T *",
    "1 delete T",
    "0 shape T",
    "1 commit",
    "1 count T",
    "0 merge begin T classic",
    "0 merge end",
    "0 shape T",
];

/// Behind them, a further partial merge rebuilds the second part with the rows of the closed stage behind its own.
const A_PARTIAL_MERGE_LEAVES_THE_FIRST_PART: Lines = &[
    "1 select T * where k >= 4",
    "0 shape T",
    "1 bulk T 6 11",
    "0 merge begin T partial",
    "0 merge end",
    "0 shape T",
    "1 count T where k = 6",
];

/// A re-sorting merge changes the order of places, and not that of the rows in an answer.
const A_RESORTED_PART_IS_READ_BY_ID: Lines = &[
    "1 create T a:int b:int",
    "1 bulk T 2 1 1 1 2 1 1 1",
    "0 merge begin T resort",
    "0 merge end",
    "1 select T *",
];

/// A column of two runs, of 600 rows and of 400.
const ROWS_OF_TWO_VALUES_ARE_MERGED: Lines = &[
    "1 create T k:int",
    SEVENS,
    SEVENS,
    SEVENS,
    SEVENS,
    SEVENS,
    SEVENS,
    EIGHTS,
    EIGHTS,
    EIGHTS,
    EIGHTS,
    "0 merge begin T classic",
    "0 merge end",
    "1 count T where k = 7",
    "1 count T where k = 8",
];

/// Behind them, a savepoint of three pages: one of each part, and one for the directory.
const A_SAVEPOINT_OF_TWO_PARTS: Lines = &[
    "0 save begin",
    "0 save step 2",
    "0 save seal",
    "0 save step 2",
    "0 save seal",
    "0 save flip",
];

/// A merge is pending while a savepoint is made. Four entries are captured, one of them the begin of the merge.
const A_SAVEPOINT_AMID_A_MERGE: Lines = &[
    "1 create T k:int",
    "1 bulk T 1 2 3",
    "0 merge begin T classic",
    "1 bulk T 4",
    "0 save begin",
    "0 save step 1",
    "0 save seal",
    "0 save flip",
];

/// Rows of two stages, a deleted one, and the work of an open transaction, which inserts a row and deletes one.
const A_SAVEPOINT_OF_ALL_STAGES: Lines = &[
    "1 create T k:int",
    "1 bulk T 1 2",
    "1 insert T 3",
    "1 insert T 4",
    "1 delete T where k = 2",
    "2 begin",
    "2 insert T 5",
    "2 delete T where k = 3",
    "0 shape T",
    "0 save begin",
    "0 save step 1",
    "0 save seal",
    "0 save flip",
    "1 insert T 6",
];

/// A transaction that is open when the savepoint begins commits while it is written.
const A_SAVEPOINT_AMID_A_TRANSACTION: Lines = &[
    "1 create T k:int",
    "1 begin",
    "1 insert T 1",
    "0 save begin",
    "0 save step 1",
    "0 save step 1",
    "1 commit",
    "0 save flip",
    "0 save seal",
    "0 save flip",
];

/// A merge that is ended twice. Where the first end finds no memory for what it builds, all stages are as before it, and the second
/// ends the same merge.
const A_MERGE_ENDED_TWICE: Lines = &[
    "1 create T k:int",
    "1 bulk T 1 2 3",
    "0 merge begin T classic",
    "1 bulk T 4",
    "0 shape T",
    "0 merge end",
    "0 shape T",
    "0 merge end",
    "0 shape T",
    "1 select T *",
];

/// So many scripts there are.
pub(crate) const COUNT: usize = 16;

/// What stands in two of the scripts, before the lines of each.
fn front_of(number: usize) -> Lines {
    match number {
        8 | 11 => TWO_PARTS,
        _ => &[],
    }
}

/// What stands in one alone.
fn script_of(number: usize) -> Lines {
    match number {
        0 => REFUSED_ROWS,
        1 => A_LOAD_IN_A_TRANSACTION,
        2 => A_ROW_IS_SELECTED,
        3 => A_SNAPSHOT_SEES_NO_LATER_COMMIT,
        4 => ROWS_STAND_IN_TWO_STAGES,
        5 => AN_UPDATE_MOVES_A_ROW_TO_THE_END,
        6 => PAIRS_ARE_JOINED_AND_GROUPS_SUMMED,
        7 => A_MERGE_KEEPS_WHAT_A_SNAPSHOT_SEES,
        8 => A_PARTIAL_MERGE_LEAVES_THE_FIRST_PART,
        9 => A_RESORTED_PART_IS_READ_BY_ID,
        10 => ROWS_OF_TWO_VALUES_ARE_MERGED,
        11 => A_SAVEPOINT_OF_TWO_PARTS,
        12 => A_SAVEPOINT_AMID_A_MERGE,
        13 => A_SAVEPOINT_OF_ALL_STAGES,
        14 => A_SAVEPOINT_AMID_A_TRANSACTION,
        15 => A_MERGE_ENDED_TWICE,
        _ => &[],
    }
}

/// The lines of the script of a number.
pub(crate) fn lines_of(alloc: Global, number: usize) -> Result<Vec<&'static str>, AllocError> {
    let mut lines = Vec::new(alloc);
    lines.extend_from_slice(front_of(number))?;
    lines.extend_from_slice(script_of(number))?;
    Ok(lines)
}
