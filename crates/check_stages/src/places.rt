//! Lists of places: copies, and those with a flag.
ghost use Rattle.std.specs.Prelude.{◌≡◌, ◌++◌, ◌∷◌, [], IfOk};
ghost use Rattle.ut_plain.specs.Merges.{flagged, flagged_all};

use std::alloc::{AllocError, Global};
use ut_plain::Placed;
use ut_value::{Duplicate, Seq};

/// A copy of places.
pub(crate) fn places_copied(alloc: Global, places: &[Placed]) -> Result<Seq<Placed>, AllocError>
    ensures { IfOk result (λ copy. copy ≡ places.now) }
{
    let mut copies = Seq::new(alloc);
    for place in places {
        let copy = place.duplicate(alloc)?;
        copies.push(copy)?;
    }
    Ok(copies)
}

/// The places of the parts, and then those of the closed stage.
pub(crate) fn lists_of(
    alloc: Global,
    parts: &[Seq<Placed>],
    closed: &[Placed],
) -> Result<Seq<Seq<Placed>>, AllocError>
    ensures { IfOk result (λ lists. lists ≡ parts.now ++ closed.now ∷ []) }
{
    let mut lists = parts_copied(alloc, parts)?;
    let last = places_copied(alloc, closed)?;
    lists.push(last)?;
    Ok(lists)
}

/// A copy of parts.
pub(crate) fn parts_copied(
    alloc: Global,
    parts: &[Seq<Placed>],
) -> Result<Seq<Seq<Placed>>, AllocError>
    ensures { IfOk result (λ copy. copy ≡ parts.now) }
{
    let mut copies = Seq::new(alloc);
    for part in parts {
        let copy = places_copied(alloc, part.as_slice())?;
        copies.push(copy)?;
    }
    Ok(copies)
}

// Those with a flag.
fn flagged(alloc: Global, places: &[Placed], flags: &[bool]) -> Result<Seq<Placed>, AllocError>
    ensures { IfOk result (λ kept. kept ≡ flagged places.now flags.now) }
{
    let mut kept = Seq::new(alloc);
    for (place, flag) in places.iter().zip(flags) {
        if *flag {
            let copy = place.duplicate(alloc)?;
            kept.push(copy)?;
        }
    }
    Ok(kept)
}

/// Those of all lists that have a flag.
pub(crate) fn flagged_all(
    alloc: Global,
    lists: &[Seq<Placed>],
    keep: &[Seq<bool>],
) -> Result<Seq<Placed>, AllocError>
    ensures { IfOk result (λ kept. kept ≡ flagged_all lists.now keep.now) }
{
    let mut kept = Seq::new(alloc);
    for (places, flags) in lists.iter().zip(keep) {
        let more = flagged(alloc, places.as_slice(), flags.as_slice())?;
        kept.append(more)?;
    }
    Ok(kept)
}
