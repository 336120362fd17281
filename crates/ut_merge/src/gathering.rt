//! The codes of a column at the kept places.
ghost use Rattle.std.specs.Prelude.{◌≡◌, ◌<◌, ◌≤◌, [], length, get_or, All, IfOk, flat_map};
ghost use Rattle.ut_l2.specs.KeyRows.{key_at};
ghost use Rattle.ut_merge.specs.Jobs.{row_of};
ghost use Rattle.ut_merge.specs.Places.{IsOld};
ghost use Rattle.ut_merge.specs.Columns.{codes_in, laid_keys, ArePartCodes};
ghost use Rattle.ut_merge.specs.Gathering.{AreGathered, HasCodes};

use crate::job::Job;
use crate::keys::keys_in;
use crate::old::Old;
use rayon::prelude::*;
use std::alloc::{AllocError, Global};
use std::thread::Threads;

/// With fewer rows than this a thread costs more than it saves.
const FEW_ROWS: usize = 100_000;

/// The codes of a column in the lists that are rebuilt: of the parts behind the first `stay`, each
/// unpacked, and of the closed stage, whose codes count from `first` on.
#[derive(Drop)]
pub(crate) struct Sources<'a> {
    job: &'a Job,
    column: u8,
    stay: u8,
    parts: Vec<Vec<u32>>,
    closed: &'a [u32],
    first: u32,
}

/// The codes of a column of the parts that are rebuilt.
fn part_codes(alloc: Global, job: &Job, column: u8) -> Result<Vec<Vec<u32>>, AllocError>
    requires { column < job.now.width }
    ensures { IfOk result (λ parts.
        ArePartCodes job.now column (length job.now.parts) (codes_in parts.items)) }
{
    let mut parts = Vec::new(alloc);
    for p in job.stay()..job.main().parts() {
        parts.push(job.main().part(p).codes(column).codes(alloc)?)?;
    }
    Ok(parts)
}

/// The codes of a column.
pub(crate) fn sources_of<'a>(
    alloc: Global,
    job: &'a Job,
    column: u8,
) -> Result<Sources<'a>, AllocError>
    requires { column < job.now.width }
    ensures job { IfOk result (λ sources. sources.job.now ≡ job.now) }
    ensures column { IfOk result (λ sources. sources.column ≡ column) }
    ensures are { IfOk result HasCodes }
{
    let parts = part_codes(alloc, job, column)?;
    Ok(Sources {
        job,
        column,
        stay: job.stay(),
        parts,
        closed: job.closed().codes(column),
        first: keys_in(job.main(), column),
    })
}

/// The code at an old place.
fn code_at(sources: &Sources<'_>, old: Old) -> u32
    requires are { HasCodes sources.now }
    requires place { IsOld sources.now.job.now old }
    ensures within { result < length (laid_keys sources.now.job.now sources.now.column) }
    ensures key { get_or (laid_keys sources.now.job.now sources.now.column) result []
        ≡ key_at sources.now.column (row_of sources.now.job.now old) }
{
    match old {
        Old::Part(p, i) => sources.parts[(p - sources.stay) as usize][i as usize],
        Old::Closed(i) => sources.first + sources.closed[i as usize],
    }
}

/// The codes at old places, on this thread.
fn codes_at(alloc: Global, sources: &Sources<'_>, olds: &[Old]) -> Result<Vec<u32>, AllocError>
    requires are { HasCodes sources.now }
    requires places { All (IsOld sources.now.job.now) olds.now }
    ensures { IfOk result (λ codes. AreGathered sources.now olds.now codes.items) }
{
    let mut codes = Vec::with_capacity(alloc, olds.len())?;
    for old in olds {
        codes.push(code_at(sources, *old))?;
    }
    Ok(codes)
}

/// Lays lists of codes end to end, so many codes together.
fn join(alloc: Global, lists: &[Vec<u32>], count: usize) -> Result<Vec<u32>, AllocError>
    ensures { IfOk result (λ codes. codes.items ≡ flat_map (λ list. list.items) lists.now) }
{
    let mut codes = Vec::with_capacity(alloc, count)?;
    for list in lists {
        codes.extend_from_slice(list.as_slice())?;
    }
    Ok(codes)
}

/// The codes at old places, in the order of these, in so many pieces, each of which may have a
/// thread of its own. The list is the same for every number of pieces.
pub(crate) fn gather<R: Threads + Sync>(
    rt: &R,
    alloc: Global,
    sources: &Sources<'_>,
    olds: &[Old],
    pieces: u32,
) -> Result<Vec<u32>, AllocError>
    requires are { HasCodes sources.now }
    requires places { All (IsOld sources.now.job.now) olds.now }
    requires few { length olds.now ≤ 2147483647 }
    requires pieces { 1 ≤ pieces }
    ensures { IfOk result (λ codes. AreGathered sources.now olds.now codes.items) }
{
    if pieces == 1 || olds.len() < FEW_ROWS {
        return codes_at(alloc, sources, olds);
    }
    let lists = olds
        .par_chunks(olds.len() / pieces as usize + 1)
        .map(
            |piece: &[Old]| -> Result<Vec<u32>, AllocError>
                requires are { HasCodes sources.now }
                requires places { All (IsOld sources.now.job.now) piece.now }
                ensures { IfOk result (λ codes. AreGathered sources.entry.now piece.now codes.items) }
            { codes_at(alloc, sources, piece) },
        )
        .collect::<Result<Vec<Vec<u32>>, AllocError>>(rt, alloc)??;
    join(alloc, lists.as_slice(), olds.len())
}
