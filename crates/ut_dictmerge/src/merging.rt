//! The merge of two key lists.
ghost use Rattle.std.specs.Prelude.{◌≡◌, ◌+◌, ◌^◌, ◌<◌, ◌≤◌, length, IfOk};
ghost use Rattle.ut_dictmerge.specs.Merge.{AreSources, IsMerge};

use crate::cut::{Cut, cuts};
use crate::joining::join_pieces;
use crate::parallel::{bases_of, write_at};
use crate::piece::{Merged, write_piece};
use std::alloc::{AllocError, Global};
use std::thread;
use std::thread::Threads;
use ut_key::KeyList;

/// With fewer keys than this a thread costs more than it saves.
const FEW_KEYS: usize = 100_000;

/// Merges two lists into one of the used keys of both, and says where each of them went.
///
/// With many keys the lists are cut into so many pieces, each of which is first counted and then
/// written on a thread of its own. The answer is the same for every number of pieces.
pub fn merge<R: Threads + Sync>(
    rt: &R,
    alloc: Global,
    a: &KeyList,
    used_a: &[bool],
    b: &KeyList,
    used_b: &[bool],
    pieces: u32,
) -> Result<Merged, AllocError>
    requires lists { AreSources a.now used_a.now b.now used_b.now }
    requires room { length a.now + length b.now < 2 ^ 31 }
    requires pieces { (1 ≤ pieces) × (pieces ≤ 64) }
    ensures { IfOk result (λ m. IsMerge a.now used_a.now b.now used_b.now m.keys m.from_a.items m.from_b.items) }
{
    if pieces == 1 || a.len() + b.len() < FEW_KEYS {
        return merge_whole(alloc, a, used_a, b, used_b);
    }
    let all = cuts(alloc, a, b, pieces)?;
    let cuts = all.as_slice();
    let count = pieces as usize;
    let sums = bases_of(rt, alloc, a, used_a, b, used_b, cuts, count)?;
    let bases = sums.as_slice();
    let parts = thread::map_indices(
        rt,
        alloc,
        count,
        &|k: usize| { write_at(alloc, a, used_a, b, used_b, cuts, bases, count, k) },
    )?;
    join_pieces(rt, alloc, a, used_a, b, used_b, cuts, parts.as_slice())
}

// The merge as one piece.
fn merge_whole(
    alloc: Global,
    a: &KeyList,
    used_a: &[bool],
    b: &KeyList,
    used_b: &[bool],
) -> Result<Merged, AllocError>
    requires lists { AreSources a.now used_a.now b.now used_b.now }
    requires room { length a.now + length b.now < 2 ^ 31 }
    ensures { IfOk result (λ m. IsMerge a.now used_a.now b.now used_b.now m.keys m.from_a.items m.from_b.items) }
{
    let from = Cut { a: 0, b: 0 };
    let to = Cut {
        a: a.len() as u32,
        b: b.len() as u32,
    };
    write_piece(alloc, a, used_a, b, used_b, from, to, 0)
}
