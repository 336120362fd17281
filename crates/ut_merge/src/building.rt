//! The new part of a merge, built of its job.
ghost use Rattle.std.specs.Prelude.{◌≡◌, ◌≤◌, length, IfOk};
ghost use Rattle.ut_main.specs.Parts.{first_parts};
ghost use Rattle.ut_merge.specs.Jobs.{new_rows, stay_of, IsBuilt, IsJob};
ghost use Rattle.ut_merge.specs.Columns.{main_before};
ghost use Rattle.ut_merge.specs.NewRows.{AreColumns, AreNewRows};

use crate::arranging::{NewRows, arranged, kept};
use crate::built::Built;
use crate::job::Job;
use crate::keys::keys_in;
use crate::old::Old;
use std::alloc::{AllocError, Global};
use std::sync::Arc;
use std::thread::Threads;
use ut_codes::CodeVec;
use ut_main::{CodedColumn, Main, Part};
use ut_outside::{Hook, Point};

/// The columns of the new part behind the parts that stay, each in its form of least size.
fn columns_of(
    alloc: Global,
    job: &Job,
    staying: &Main,
    rows: &NewRows,
) -> Result<Vec<CodedColumn>, AllocError>
    requires job { IsJob job.now }
    requires staying { staying.now ≡ first_parts (stay_of job.now) (main_before job.now) }
    requires rows { AreNewRows job.now (new_rows job.now) rows.now }
    ensures { IfOk result (λ columns. AreColumns job.now (new_rows job.now) job.now.width columns.items) }
{
    let mut columns = Vec::new(alloc);
    for column in 0..job.main().width() {
        let dict = Arc::try_clone(&rows.dicts[column as usize])?;
        let reach = keys_in(staying, column) + dict.len();
        let codes = rows.codes[column as usize].as_slice();
        let codes = CodeVec::from_codes(alloc, codes, reach)?;
        columns.push(staying.column(alloc, column, dict, codes)?)?;
    }
    Ok(columns)
}

/// Puts the new part of rows behind the parts that stay, and gives the old places of its rows.
fn push_part(
    alloc: Global,
    job: &Job,
    main: &mut Main,
    rows: NewRows,
) -> Result<Vec<Old>, AllocError>
    requires job { IsJob job.now }
    requires few { length job.now.parts ≤ 8 }
    requires staying { main.old ≡ first_parts (stay_of job.now) (main_before job.now) }
    requires rows { AreNewRows job.now (new_rows job.now) rows }
    ensures { IfOk result (λ olds. IsBuilt job.now main.new olds.items) }
{
    let columns = columns_of(alloc, job, main, &rows)?;
    let part = Part::of(rows.ids, columns);
    main.push(Arc::new(alloc, part)?)?;
    Ok(rows.olds)
}

/// What is built of a job, of the parts that stay and of the rows of the new one.
fn built_of(alloc: Global, job: &Job, staying: Main, rows: NewRows) -> Result<Built, AllocError>
    requires job { IsJob job.now }
    requires few { length job.now.parts ≤ 8 }
    requires staying { staying ≡ first_parts (stay_of job.now) (main_before job.now) }
    requires rows { AreNewRows job.now (new_rows job.now) rows }
    ensures { IfOk result (λ built. built ≡ job.now) }
{
    let mut main = staying;
    let olds = push_part(alloc, job, &mut main, rows)?;
    let stamps = Vec::with_capacity(alloc, olds.len())?;
    let job = job.again(alloc)?;
    Ok(Built::of(job, main, olds, stamps))
}

/// Builds the new part of a job, and with it main as it is behind the merge. The answer is the
/// same for every number of pieces. It waits for nobody.
pub fn build<R: Threads + Sync, H: Hook>(
    rt: &R,
    alloc: Global,
    job: &Job,
    pieces: u32,
    hook: &H,
) -> Result<Built, AllocError>
    requires { (1 ≤ pieces) × (pieces ≤ 64) }
    ensures { IfOk result (λ built. built ≡ job.now) }
{
    let staying = job.main().first(alloc, job.stay())?;
    let rows = kept(rt, alloc, job, &staying, pieces)?;
    let rows = arranged(alloc, job, rows)?;
    let built = built_of(alloc, job, staying, rows)?;
    hook.reach(Point::BuildDone);
    Ok(built)
}
