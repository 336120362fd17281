//! Bytes cut into pages.
ghost use Rattle.std.specs.Prelude.{◌≡◌, ◌++◌, OnOk};
ghost use Rattle.ut_durable.specs.Bytes.{pages_for};
ghost use Rattle.ut_durable.specs.Plans.{Fills, plan, first_of};
ghost use Rattle.ut_savepoint.specs.Writes.{planned_in};

use std::alloc::{AllocError, Global};
use ut_pages::PAYLOAD_LEN;

/// A page that is to be written: its number, the next one's in its chain, and its bytes.
#[derive(Drop)]
pub struct PageWrite {
    pub page: u32,
    pub next: u32,
    pub bytes: Vec<u8>,
}

/// How many pages so many bytes take.
pub(crate) fn pages_for(len: usize) -> usize
    ensures { result ≡ pages_for len }
{
    len / PAYLOAD_LEN + usize::from(len % PAYLOAD_LEN > 0)
}

/// The first of these pages, 0 where there is none.
pub(crate) fn first_of(pages: &[u32]) -> u32
    ensures { result ≡ first_of pages.now }
{
    match pages {
        [] => 0,
        [page, ..] => *page,
    }
}

/// Adds the pages of a chain with these bytes.
pub(crate) fn cut(
    alloc: Global,
    pages: &[u32],
    bytes: &[u8],
    out: &mut Vec<PageWrite>,
) -> Result<(), AllocError>
    requires { Fills pages.now bytes.now }
    ensures { OnOk result (planned_in out.new.items ≡ planned_in out.old.items ++ plan pages.now bytes.now) }
{
    let mut left = pages;
    let mut rest = bytes;
    while !left.is_empty() {
        let (first, more) = left.split_at(1);
        let len = rest.len().min(PAYLOAD_LEN);
        let (payload, behind) = rest.split_at(len);
        let bytes = Vec::from_slice(alloc, payload)?;
        out.push(PageWrite {
            page: first[0],
            next: first_of(more),
            bytes,
        })?;
        left = more;
        rest = behind;
    }
    Ok(())
}
