//! The rows of the new part, in their old order or re-sorted.
ghost use Rattle.std.specs.Prelude.{◌≡◌, ◌<◌, ◌≤◌, length, map, get_or, All, IfOk};
ghost use Rattle.ut_main.specs.Parts.{first_parts};
ghost use Rattle.ut_merge.specs.Jobs.{kept_rows, new_rows, stay_of, IsJob};
ghost use Rattle.ut_merge.specs.Columns.{codes_in, main_before};
ghost use Rattle.ut_prefix.specs.Chain.{shared_dicts};
ghost use Rattle.ut_merge.specs.NewRows.{AreNewRows};

use crate::coding::code_column;
use crate::job::Job;
use crate::old::Old;
use crate::olds::{ids_of, kept_olds};
use std::alloc::{AllocError, Global};
use std::sync::Arc;
use std::thread::Threads;
use ut_main::Main;
use ut_prefix::PrefixDict;
use ut_resort::order;
use ut_value::MergeKind;

/// What a new part is made of: the old place and the id of each row, and of each column its own
/// dictionary and its codes.
#[derive(Drop)]
pub(crate) struct NewRows {
    pub olds: Vec<Old>,
    pub ids: Vec<u32>,
    pub dicts: Vec<Arc<PrefixDict>>,
    pub codes: Vec<Vec<u32>>,
}

/// The rows that are kept, in their old order.
pub(crate) fn kept<R: Threads + Sync>(
    rt: &R,
    alloc: Global,
    job: &Job,
    staying: &Main,
    pieces: u32,
) -> Result<NewRows, AllocError>
    requires job { IsJob job.now }
    requires staying { staying.now ≡ first_parts (stay_of job.now) (main_before job.now) }
    requires pieces { (1 ≤ pieces) × (pieces ≤ 64) }
    ensures { IfOk result (λ rows. AreNewRows job.now (kept_rows job.now) rows) }
{
    let olds = kept_olds(alloc, job)?;
    let ids = ids_of(alloc, job, olds.as_slice())?;
    let mut dicts = Vec::new(alloc);
    let mut codes = Vec::new(alloc);
    for column in 0..staying.width() {
        let coded = code_column(rt, alloc, job, staying, column, olds.as_slice(), pieces)?;
        dicts.push(coded.dict)?;
        codes.push(coded.codes)?;
    }
    Ok(NewRows {
        olds,
        ids,
        dicts,
        codes,
    })
}

/// How many keys each dictionary has.
fn counts_of(alloc: Global, dicts: &[Arc<PrefixDict>]) -> Result<Vec<u32>, AllocError>
    ensures { IfOk result (λ counts. counts.items ≡ map length (shared_dicts dicts.now)) }
{
    let mut counts = Vec::with_capacity(alloc, dicts.len())?;
    for dict in dicts {
        counts.push(dict.len())?;
    }
    Ok(counts)
}

/// The items at places, in the order of these.
fn moved<T: Copy>(alloc: Global, items: &[T], places: &[u32]) -> Result<Vec<T>, AllocError>
    requires { All (λ place. place < length items.now) places.now }
    ensures { IfOk result (λ new. (d : T) → new.items ≡ map (λ place. get_or items.now place d) places.now) }
{
    let mut new = Vec::with_capacity(alloc, places.len())?;
    for place in places {
        new.push(items[*place as usize])?;
    }
    Ok(new)
}

/// The codes of all columns at places, in the order of these.
fn moved_columns(
    alloc: Global,
    columns: &[Vec<u32>],
    places: &[u32],
) -> Result<Vec<Vec<u32>>, AllocError>
    requires { All (λ column. All (λ place. place < length column.items) places.now) columns.now }
    ensures { IfOk result (λ new.
        codes_in new.items ≡ map (λ codes. map (λ place. get_or codes place 0) places.now) (codes_in columns.now)) }
{
    let mut new = Vec::with_capacity(alloc, columns.len())?;
    for column in columns {
        new.push(moved(alloc, column.as_slice(), places)?)?;
    }
    Ok(new)
}

/// The kept rows in the order of the new part. Where they are re-sorted nothing stays, so a column
/// has one dictionary, and its codes are in the order of the keys.
pub(crate) fn arranged(alloc: Global, job: &Job, rows: NewRows) -> Result<NewRows, AllocError>
    requires job { IsJob job.now }
    requires rows { AreNewRows job.now (kept_rows job.now) rows }
    ensures { IfOk result (λ new. AreNewRows job.now (new_rows job.now) new) }
{
    match job.kind() {
        MergeKind::Classic => Ok(rows),
        MergeKind::Resort => {
            let counts = counts_of(alloc, rows.dicts.as_slice())?;
            let columns = rows.codes.as_slice();
            let places = order(alloc, columns, counts.as_slice(), rows.ids.as_slice())?;
            let olds = moved(alloc, rows.olds.as_slice(), places.as_slice())?;
            let ids = moved(alloc, rows.ids.as_slice(), places.as_slice())?;
            let codes = moved_columns(alloc, columns, places.as_slice())?;
            Ok(NewRows {
                olds,
                ids,
                dicts: rows.dicts,
                codes,
            })
        }
        MergeKind::Partial => Ok(rows),
        MergeKind::Extend => Ok(rows),
    }
}
