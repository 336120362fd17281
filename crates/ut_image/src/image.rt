//! Reads a directory.
ghost use Rattle.std.specs.Prelude.{◌≡◌, ◌↔◌, List, IsTrue, IfOk, IfSome, IfNone};
ghost use Rattle.ut_image.specs.declared.drawn.Drawn.{Drawn};
ghost use Rattle.ut_image.specs.Bytes.{image_bytes};
ghost use Rattle.ut_image.specs.Rules.{AreDrawn, AreOwnIds, has_drawn, drawn_differ, ids_of};

use crate::Drawn;
use crate::ids::{are_own_ids, ids_of};
use std::alloc::{AllocError, Global};
use ut_entry::{read_list, read_u32};
use ut_value::{Seq, TABLES_LIMIT, same_bytes};

/// The tables of a directory, where `next` is the next row id and there were so many commits.
pub fn image_from(
    alloc: Global,
    bytes: &[u8],
    next: u32,
    commits: u32,
) -> Result<Option<Seq<Drawn>>, AllocError>
    ensures found { IfOk result (λ o. IfSome o (λ v. (bytes.now ≡ image_bytes v) × AreDrawn next commits v)) }
    ensures none { IfOk result (λ o. IfNone o ((v : List Drawn) → AreDrawn next commits v → bytes.now ≡ image_bytes v → ⊥)) }
{
    let Some((count, rest)) = read_u32(bytes) else {
        return Ok(None);
    };
    if count > TABLES_LIMIT.min(commits) {
        return Ok(None);
    }
    let Some((tables, behind)) = read_list(alloc, &(), count as usize, rest)? else {
        return Ok(None);
    };
    if !behind.is_empty() {
        return Ok(None);
    }
    if !drawn_differ(tables.as_slice()) {
        return Ok(None);
    }
    if !have_own_ids(alloc, tables.as_slice(), next)? {
        return Ok(None);
    }
    Ok(Some(tables))
}

// Whether the ids of all rows are below the next one, and no two are equal.
fn have_own_ids(alloc: Global, tables: &[Drawn], next: u32) -> Result<bool, AllocError>
    ensures { IfOk result (λ b. IsTrue b ↔ AreOwnIds next (ids_of tables.now)) }
{
    let ids = ids_of(alloc, tables)?;
    are_own_ids(alloc, &ids, next)
}

fn has_drawn(tables: &[Drawn], name: &[u8]) -> bool
    ensures { result ≡ has_drawn tables.now name.now }
{
    tables
        .iter()
        .any(|drawn| same_bytes(drawn.table.name.as_slice(), name))
}

fn drawn_differ(tables: &[Drawn]) -> bool
    ensures { result ≡ drawn_differ tables.now }
{
    match tables {
        [] => true,
        [first, rest @ ..] => !has_drawn(rest, first.table.name.as_slice()) && drawn_differ(rest),
    }
}
