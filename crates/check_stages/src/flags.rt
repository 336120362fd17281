//! Which places a merge keeps.
ghost use Rattle.std.specs.Prelude.{◌≡◌, ◌++◌, map, nat_eq, take, drop, IfOk};
ghost use Rattle.std.specs.List.{list_any};
ghost use Rattle.ut_plain.specs.Merges.{all_kept};
ghost use Rattle.check_stages.specs.Needed.{is_kept_by, flags_by};

use std::alloc::{AllocError, Global};
use ut_plain::Placed;
use ut_value::Seq;

/// Whether an id is one of these.
pub(crate) fn has(ids: &[u32], id: u32) -> bool
    ensures { result ≡ list_any (nat_eq id) ids.now }
{
    ids.iter().any(|other| id == *other)
}

// Whether a place is kept, where these rows are needed.
fn is_kept(ids: &[u32], place: &Placed) -> bool
    ensures { result ≡ is_kept_by ids.now place.now }
{
    if place.dead {
        return false;
    }
    has(ids, place.id)
}

fn flags_of(alloc: Global, ids: &[u32], places: &[Placed]) -> Result<Seq<bool>, AllocError>
    ensures { IfOk result (λ flags. flags ≡ map (is_kept_by ids.now) places.now) }
{
    let mut flags = Seq::new(alloc);
    for place in places {
        flags.push(is_kept(ids, place))?;
    }
    Ok(flags)
}

fn all_kept(alloc: Global, places: &[Placed]) -> Result<Seq<bool>, AllocError>
    ensures { IfOk result (λ flags. flags ≡ all_kept places.now) }
{
    let mut flags = Seq::new(alloc);
    for _ in places {
        flags.push(true)?;
    }
    Ok(flags)
}

fn all_kept_in(alloc: Global, lists: &[Seq<Placed>]) -> Result<Seq<Seq<bool>>, AllocError>
    ensures { IfOk result (λ keep. keep ≡ map all_kept lists.now) }
{
    let mut keep = Seq::new(alloc);
    for places in lists {
        let flags = all_kept(alloc, places.as_slice())?;
        keep.push(flags)?;
    }
    Ok(keep)
}

fn flags_in(alloc: Global, ids: &[u32], lists: &[Seq<Placed>]) -> Result<Seq<Seq<bool>>, AllocError>
    ensures { IfOk result (λ keep. keep ≡ map (map (is_kept_by ids.now)) lists.now) }
{
    let mut keep = Seq::new(alloc);
    for places in lists {
        let flags = flags_of(alloc, ids, places.as_slice())?;
        keep.push(flags)?;
    }
    Ok(keep)
}

/// A flag for each place of these lists, of which so many stay as they are.
pub(crate) fn flags(
    alloc: Global,
    ids: &[u32],
    stay: usize,
    lists: &[Seq<Placed>],
) -> Result<Seq<Seq<bool>>, AllocError>
    ensures { IfOk result (λ keep. keep ≡ flags_by ids.now stay lists.now) }
{
    let (front, behind) = lists.split_at(stay.min(lists.len()));
    let mut keep = all_kept_in(alloc, front)?;
    let more = flags_in(alloc, ids, behind)?;
    keep.append(more)?;
    Ok(keep)
}
