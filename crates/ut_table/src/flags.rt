//! Which places a merge keeps, by the stamps of their rows.
ghost use Rattle.std.specs.Prelude.{◌≡◌, ◌<◌, ◌≤◌, ◌||◌, ◌++◌, [], ◌∷◌, length, map, IfOk};
ghost use Rattle.ut_plain.specs.Merges.{staying};
ghost use Rattle.ut_stamps.specs.Kept.{stamp_keeps};
ghost use Rattle.ut_table.specs.Flags.{flags_behind};

use std::alloc::{AllocError, Global};
use ut_stamps::{Fates, PartStamps, Stamp, StampTable, keeps};
use ut_value::MergeKind;

/// How many parts stay as they are, of so many.
pub(crate) fn staying(kind: MergeKind, parts: u8) -> u8
    ensures { result ≡ staying kind parts }
{
    match kind {
        MergeKind::Classic => 0,
        MergeKind::Resort => 0,
        MergeKind::Partial => if parts < 2 { parts } else { parts - 1 },
        MergeKind::Extend => parts,
    }
}

fn is_kept(fates: &Fates, snapshots: &[u32], stays: bool, stamp: &Stamp) -> bool
    ensures { result ≡ (stays || stamp_keeps fates.now snapshots.now stamp.now) }
{
    stays || keeps(fates, stamp, snapshots)
}

/// The flags of a part's places, all true where it stays.
fn part_flags(
    alloc: Global,
    fates: &Fates,
    snapshots: &[u32],
    stays: bool,
    stamps: &PartStamps,
) -> Result<Vec<bool>, AllocError>
    ensures { IfOk result (λ flags. flags.items ≡ map (λ stamp. stays || stamp_keeps fates.now snapshots.now stamp) stamps.now) }
{
    let mut flags = Vec::with_capacity(alloc, stamps.len())?;
    for i in 0..stamps.len() {
        flags.push(is_kept(fates, snapshots, stays, &stamps.get(i)))?;
    }
    Ok(flags)
}

/// The flags of a list of places.
fn list_flags(
    alloc: Global,
    fates: &Fates,
    snapshots: &[u32],
    stamps: &[Stamp],
) -> Result<Vec<bool>, AllocError>
    ensures { IfOk result (λ flags. flags.items ≡ map (stamp_keeps fates.now snapshots.now) stamps.now) }
{
    let mut flags = Vec::with_capacity(alloc, stamps.len())?;
    for stamp in stamps {
        flags.push(keeps(fates, stamp, snapshots))?;
    }
    Ok(flags)
}

/// The flags of all parts, and then of the second stage, where the first parts, so many, stay.
pub(crate) fn flags_of(
    alloc: Global,
    fates: &Fates,
    snapshots: &[u32],
    stay: u8,
    stamps: &StampTable,
) -> Result<Vec<Vec<bool>>, AllocError>
    requires { stay ≤ length stamps.now.parts }
    ensures { IfOk result (λ lists. map (λ list. list.items) lists.items ≡ flags_behind fates.now snapshots.now stay (stamps.now.parts ++ stamps.now.l2.items ∷ [])) }
{
    let parts = stamps.parts();
    let mut lists = Vec::with_capacity(alloc, usize::from(parts) + 1)?;
    for p in 0..parts {
        let stays = p < stay;
        let flags = part_flags(alloc, fates, snapshots, stays, stamps.part(p))?;
        lists.push(flags)?;
    }
    let flags = list_flags(alloc, fates, snapshots, stamps.l2())?;
    lists.push(flags)?;
    Ok(lists)
}
