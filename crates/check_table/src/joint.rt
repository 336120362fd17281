//! The stamps of a part before one of its rows ends, and then.
ghost use Rattle.std.specs.Prelude.{◌≡◌, length, IfOk};

use std::alloc::{AllocError, Global};
use std::process::Abort;
use ut_scan::Place;
use ut_stamps::{Stamp, StampTable};

/// The stamp of a row that was there at the opening.
const OLD: Stamp = Stamp {
    begin: 0,
    end: None,
};

// The stamps of rows that were there at the opening.
fn stamps(alloc: Global, n: u32) -> Result<Vec<Stamp>, AllocError>
    ensures { IfOk result (λ stamps. length stamps.items ≡ n) }
{
    let mut stamps = Vec::new(alloc);
    for i in 0..n {
        let _ = i;
        stamps.push(OLD)?;
    }
    Ok(stamps)
}

// A part that has as many rows as this, of which one ends.
fn part_of(rt: &impl Abort, alloc: Global, n: u32, ended: u32) -> Result<StampTable, AllocError> {
    assert!(rt; ended < n);
    let stamps = stamps(alloc, n)?;
    let mut table = StampTable::new(alloc)?;
    table.push_part(stamps);
    assert!(rt; table.part(0).joint() == Some(OLD));
    table.set_end(Place::Main(0, ended), 5);
    Ok(table)
}

// The row has its end, and no other one has any.
fn one_ends(rt: &impl Abort, table: &StampTable, n: u32, ended: u32) {
    assert!(rt; table.parts() == 1);
    let stamps = table.part(0);
    assert!(rt; stamps.joint().is_none() && stamps.len() == n as usize);
    for i in 0..stamps.len() {
        let end = if i == ended as usize { Some(5) } else { None };
        assert!(rt; stamps.get(i) == Stamp { begin: 0, end }, "at {i}");
    }
}

// A list of few stamps is emptied in place, one of many makes room for new.
#[test]
fn one_row_ends_where_all_stamps_agreed(rt: HostRuntime) -> Result<(), AllocError> {
    let alloc = rt.alloc();
    for (n, ended) in [(3, 0), (3, 2), (3000, 0), (3000, 1500), (3000, 2999)] {
        let table = part_of(&rt, alloc, n, ended)?;
        one_ends(&rt, &table, n, ended);
        drop(table);
    }
    Ok(())
}
