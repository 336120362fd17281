//! Which pages a savepoint writes: the chains of the parts in the order of their tables, and then the directory's.
ghost use Rattle.std.specs.Prelude.{◌≡◌, ◌<◌, ◌≤◌, ◌+◌, ◌++◌, ◌^◌, [], List, length, IfOk, IfSome, IfNone, OnOk, SomeIff};
ghost use Rattle.ut_plain.specs.Capture.{Directory};
ghost use Rattle.ut_durable.specs.Bytes.{image_pages, pages_for};
ghost use Rattle.ut_savepoint.specs.Captured.{Captures};
ghost use Rattle.ut_durable.specs.Plans.{planned_of, reached_of};
ghost use Rattle.ut_savepoint.specs.Planning.{pages_of, spelled_all, directory_of, drafts_of, Plans, PlansOn};

use crate::captured::CapturedTable;
use crate::cut::pages_for;
use crate::directory::{directory_of, spell_parts};
use crate::savepoint::Savepoint;
use std::alloc::{AllocError, Global};
use ut_durable::Durable;
use ut_pages::Root;
use ut_value::Seq;

// How many pages these parts and so many more take. None where there are 2^32 or more.
fn pages_of(parts: &[Seq<u8>], more: usize) -> Option<u32>
    ensures { SomeIff result (more + pages_of parts.now < 2 ^ 32) (more + pages_of parts.now) }
{
    let mut count = u32::try_from(more).ok()?;
    for part in parts {
        let len = u32::try_from(pages_for(part.len())).ok()?;
        count = count.checked_add(len)?;
    }
    Some(count)
}

// How many pages the directory takes, which is as long wherever the parts stand.
fn own_pages(
    alloc: Global,
    tables: &[CapturedTable],
    parts: &[Seq<u8>],
) -> Result<usize, AllocError>
    requires few { length tables.now < 2 ^ 32 }
    requires spelled { parts.now ≡ spelled_all tables.now }
    ensures { IfOk result (λ n. n ≡ pages_for (length (directory_of [] tables.now))) }
{
    let unplaced = directory_of(alloc, tables, parts, &[])?;
    Ok(pages_for(unplaced.len()))
}

// Adds the chains of parts on these pages.
fn add_parts(
    alloc: Global,
    parts: &[Seq<u8>],
    pages: &[u32],
    savepoint: &mut Savepoint,
) -> Result<(), AllocError>
    requires { pages_of parts.now ≤ length pages.now }
    ensures { OnOk result (savepoint.new ≡ record savepoint.old {
      planned = savepoint.old.planned ++ planned_of (drafts_of pages.now parts.now);
      reached = savepoint.old.reached ++ reached_of (drafts_of pages.now parts.now);
    }) }
{
    let mut left = pages;
    for part in parts {
        let (mine, rest) = left.split_at(pages_for(part.len()));
        savepoint.add(alloc, mine, part.as_slice())?;
        left = rest;
    }
    Ok(())
}

// The savepoint of a root and of what is captured, whose parts and directory stand on these pages.
fn placed(
    alloc: Global,
    tables: &[CapturedTable],
    parts: &[Seq<u8>],
    first: &[u32],
    own: &[u32],
    root: Root,
) -> Result<Savepoint, AllocError>
    requires few { length tables.now < 2 ^ 32 }
    requires spelled { parts.now ≡ spelled_all tables.now }
    requires parts { length first.now ≡ pages_of parts.now }
    requires own { length own.now ≡ pages_for (length (directory_of [] tables.now)) }
    ensures { IfOk result (λ s. PlansOn root tables.now first.now own.now s) }
{
    let directory = directory_of(alloc, tables, parts, first)?;
    let root = Root {
        image_len: directory.len() as u64,
        first_page: own[0],
        ..root
    };
    let mut savepoint = Savepoint::new(alloc, root);
    add_parts(alloc, parts, first, &mut savepoint)?;
    savepoint.add(alloc, own, &directory)?;
    Ok(savepoint)
}

/// The savepoint of a root and of what is captured, on the least pages that the selected root doesn't reach.
/// There is none where page numbers would pass their limit.
pub fn plan(
    alloc: Global,
    files: &Durable,
    tables: &[CapturedTable],
    root: Root,
) -> Result<Option<Savepoint>, AllocError>
    requires { length tables.now < 2 ^ 32 }
    ensures planned { IfOk result (λ o. IfSome o (λ s. (d : Directory) → Captures tables.now d → Plans root files.now.reached d s)) }
    ensures none { IfOk result (λ o. IfNone o ((d : Directory) → Captures tables.now d
        → 2 ^ 32 ≤ 3 + image_pages d + length files.now.reached)) }
{
    let parts = spell_parts(alloc, tables)?;
    let own = own_pages(alloc, tables, parts.as_slice())?;
    let Some(count) = pages_of(parts.as_slice(), own) else {
        return Ok(None);
    };
    let Some(pages) = files.free_pages(alloc, count)? else {
        return Ok(None);
    };
    let (first, own) = pages.split_at(pages.len() - own);
    let savepoint = placed(alloc, tables, parts.as_slice(), first, own, root)?;
    Ok(Some(savepoint))
}
