//! What an image comes to, before any entry behind it.
ghost use Rattle.std.specs.Prelude.{ℕ, ◌≡◌, IfOk, None};
ghost use Rattle.ut_plain.specs.Capture.{Directory};
ghost use Rattle.ut_plain.specs.State.{State};
ghost use Rattle.ut_restart.specs.Began.{BeginsWith};
ghost use Rattle.ut_restart.specs.Replayed.{IsFirst};
ghost use Rattle.ut_restart.specs.Rows.{position_in};

use crate::filling::fill_all;
use crate::replay::Replay;
use crate::rows::{Position, Rows};
use std::alloc::{AllocError, Global};
use std::collections::HashMap;
use ut_image::Drawn;
use ut_main::Main;
use ut_pages::Root;
use ut_value::Seq;

/// The tables of an image, its rows and its counts.
pub(crate) fn first(
    alloc: Global,
    root: &Root,
    tables: Seq<Drawn>,
    mains: Seq<Main>,
) -> Result<Replay, AllocError>
    requires { (d : Directory) × (s : State) × BeginsWith root.now tables mains d s }
    ensures { IfOk result (IsFirst root.now tables mains) }
{
    let positions = positions_of(alloc, tables.as_slice(), mains.as_slice())?;
    let mut rows = Rows {
        stages: Vec::new(alloc),
        positions,
        next: root.next,
        load: 0,
    };
    rows.note_deltas(tables.as_slice())?;
    rows.note_mains(tables.as_slice(), mains.as_slice())?;
    let (tables, stages) = fill_all(alloc, tables, mains)?;
    rows.stages = stages;
    Ok(Replay {
        tables,
        rows,
        commits: root.commits,
        merges: root.merges,
        entries: root.length,
    })
}

// Room for where each row of an image stands, and none there yet.
fn positions_of(
    alloc: Global,
    tables: &[Drawn],
    mains: &[Main],
) -> Result<HashMap<u32, Position>, AllocError>
    ensures { IfOk result (λ positions. (id : ℕ) → position_in positions id ≡ None) }
{
    let mut places = 0usize;
    for drawn in tables {
        places = places.saturating_add(drawn.l2.as_slice().len());
        places = places.saturating_add(drawn.l1.as_slice().len());
    }
    for main in mains {
        for p in 0..main.parts() {
            places = places.saturating_add(main.part(p).len() as usize);
        }
    }
    HashMap::with_capacity(alloc, places)
}
