//! The lines that are the same for each seed.
ghost use Rattle.std.specs.Prelude.{◌≡◌, ◌<◌, ◌≤◌, ◌++◌, Some, List, [], ◌∷◌, codes, length};
ghost use Rattle.std.specs.List.{slice_get};
ghost use Rattle.ut_gen.specs.Script.{opening, begins, ends, saves, moves, asks};

const MOVE: &[u8] = b"0 merge l1 sales 1048576";

const BEGIN_PARTIAL: &[u8] = b"0 merge begin sales partial";

const END: &[u8] = b"0 merge end";

/// How many lines create the tables.
pub(crate) const OPENING: u32 = 3;

/// A line of those that create the tables.
pub(crate) fn opening_line(i: u32) -> &'static [u8]
    requires { i < 3 }
    ensures line { slice_get opening i ≡ Some result.now }
    ensures short { length result.now ≤ 100 }
{
    match i {
        0 => {
            b"1 create sales id:int day:int region:text product:text qty:int price:int paid:int note:text"
        }
        1 => b"1 create region name:text zone:int",
        _ => b"1 bulk region 'east' 1 'north' 2 'south' 3 'west' 4",
    }
}

/// How many lines merge and save what was filled in bulk.
pub(crate) const FIRST_MERGE: u32 = 6;

/// A line of those that merge and save what was filled in bulk.
pub(crate) fn first_merge_line(i: u32) -> &'static [u8]
    requires { i < 6 }
    ensures line { slice_get (begins (codes "classic") ++ ends ++ saves) i ≡ Some result.now }
    ensures short { length result.now ≤ 100 }
{
    match i {
        0 => b"0 merge begin sales classic",
        1 => END,
        _ => save_line(i - 2),
    }
}

/// The line that moves rows to the second delta.
pub(crate) fn move_line() -> &'static [u8]
    ensures line { moves ≡ result.now ∷ [] }
    ensures short { length result.now ≤ 100 }
{
    MOVE
}

/// How many lines move rows, and begin a partial merge.
pub(crate) const PARTIAL: u32 = 2;

/// A line of those that move rows, and begin a partial merge.
pub(crate) fn partial_line(i: u32) -> &'static [u8]
    requires { i < 2 }
    ensures line { slice_get (moves ++ begins (codes "partial")) i ≡ Some result.now }
    ensures short { length result.now ≤ 100 }
{
    match i {
        0 => MOVE,
        _ => BEGIN_PARTIAL,
    }
}

/// How many lines stand behind the updates.
pub(crate) const CLOSING: u32 = 14;

/// A line of those behind the updates.
pub(crate) fn closing_line(i: u32) -> &'static [u8]
    requires { i < 14 }
    ensures line { slice_get (ends ++ moves ++ begins (codes "partial") ++ ends ++ saves ++ begins (codes "resort") ++ ends ++ asks) i ≡ Some result.now }
    ensures short { length result.now ≤ 100 }
{
    match i {
        0 | 3 | 9 => END,
        1 => MOVE,
        2 => BEGIN_PARTIAL,
        4..8 => save_line(i - 4),
        8 => b"0 merge begin sales resort",
        _ => ask_line(i - 10),
    }
}

fn save_line(i: u32) -> &'static [u8]
    requires { i < 4 }
    ensures line { slice_get saves i ≡ Some result.now }
    ensures short { length result.now ≤ 100 }
{
    match i {
        0 => b"0 save begin",
        1 => b"0 save step 1048576",
        2 => b"0 save seal",
        _ => b"0 save flip",
    }
}

fn ask_line(i: u32) -> &'static [u8]
    requires { i < 4 }
    ensures line { slice_get asks i ≡ Some result.now }
    ensures short { length result.now ≤ 100 }
{
    match i {
        0 => b"1 group sales region sum qty",
        1 => b"1 join sales region region name",
        2 => b"1 count sales",
        _ => b"1 sum sales id",
    }
}
