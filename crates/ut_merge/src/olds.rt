//! The old places of the rows that are kept, and their ids.
ghost use Rattle.std.specs.Prelude.{◌≡◌, ◌≤◌, ◌++◌, [], length, map, get_or, All, IfOk, OnOk};
ghost use Rattle.ut_plain.specs.Merges.{flagged};
ghost use Rattle.ut_main.specs.Parts.{AreWide};
ghost use Rattle.ut_merge.specs.Jobs.{kept_olds, kept_rows, row_of, IsJob};
ghost use Rattle.ut_merge.specs.Places.{list_at, old_in, places_in_list, IsOld};

use crate::job::Job;
use crate::old::Old;
use std::alloc::{AllocError, Global};

/// How many rows a list has: a part, or behind all parts the closed stage.
fn rows_in_list(job: &Job, list: u8) -> u32
    requires { list ≤ length job.now.parts }
    ensures rows { result ≡ length (list_at job.now list) }
    ensures wide { AreWide job.now.width (list_at job.now list) }
{
    if list < job.main().parts() {
        job.main().part(list).len()
    } else {
        job.closed().len()
    }
}

/// The place of row `i` of a list, where there are so many parts.
fn old_at(parts: u8, list: u8, i: u32) -> Old
    ensures { result ≡ old_in parts list i }
{
    if list < parts {
        Old::Part(list, i)
    } else {
        Old::Closed(i)
    }
}

/// Appends the places of a list that are kept.
fn push_kept(job: &Job, list: u8, olds: &mut Vec<Old>) -> Result<(), AllocError>
    requires job { IsJob job.now }
    requires list { list ≤ length job.now.parts }
    ensures kept { OnOk result (
        olds.new.items ≡ olds.old.items ++ flagged (places_in_list job.now list) (get_or job.now.keep list [])) }
    ensures wide { AreWide job.now.width (list_at job.now list) }
{
    let rows = rows_in_list(job, list);
    let parts = job.main().parts();
    let flags = job.keep().list(list);
    for i in 0..rows {
        if flags[i as usize] {
            olds.push(old_at(parts, list, i))?;
        }
    }
    Ok(())
}

/// The places that are kept, in their old order.
pub(crate) fn kept_olds(alloc: Global, job: &Job) -> Result<Vec<Old>, AllocError>
    ensures olds { IfOk result (λ olds. olds.items ≡ kept_olds job.now) }
    ensures wide { OnOk result (AreWide job.now.width (kept_rows job.now)) }
{
    let mut olds = Vec::new(alloc);
    for list in job.stay()..job.main().parts() + 1 {
        push_kept(job, list, &mut olds)?;
    }
    Ok(olds)
}

/// The id of the row at an old place.
fn id_at(job: &Job, old: Old) -> u32
    requires { IsOld job.now old }
    ensures { result ≡ (row_of job.now old).id }
{
    match old {
        Old::Part(p, i) => job.main().part(p).row_id(i),
        Old::Closed(i) => job.closed().row_id(i),
    }
}

/// The ids of the rows at old places.
pub(crate) fn ids_of(alloc: Global, job: &Job, olds: &[Old]) -> Result<Vec<u32>, AllocError>
    requires { All (IsOld job.now) olds.now }
    ensures { IfOk result (λ ids. ids.items ≡ map (λ old. (row_of job.now old).id) olds.now) }
{
    let mut ids = Vec::with_capacity(alloc, olds.len())?;
    for old in olds {
        ids.push(id_at(job, *old))?;
    }
    Ok(ids)
}
