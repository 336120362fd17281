//! Rows on the slow store of `check_oracle`.
use crate::wrong::say_wrong;
use anyhow::Result;
use check_oracle::Oracle;
use check_run::verdict::{Tally, is_right};
use check_scripts::Answers;
use row_files::{MOST_IDS, Row};
use std::alloc::{AllocError, Global};

/// Ids enough for a row that doesn't say how many.
const AMPLE: u32 = 1000;

/// Runs rows, and says those that are answered otherwise. Rows that aren't plain are the program's alone.
pub(crate) fn tally_of(rt: &impl Print, alloc: Global, rows: &[Row<'_>]) -> Result<Tally> {
    let mut stores = Vec::new(alloc);
    let mut tally = Tally::new();
    for row in rows {
        let mut store = store_for(alloc, stores.as_slice(), row)?;
        if row.is_plain {
            tally.count(check_row(rt, alloc, &mut store, row)?);
        }
        stores.push(store)?;
    }
    Ok(tally)
}

// The store that a row is for: that of the row it stands behind, opened again, or a new one.
fn store_for(alloc: Global, stores: &[Oracle], row: &Row<'_>) -> Result<Oracle, AllocError> {
    let ids = row.ids.map_or(AMPLE, |ids| ids.number).min(MOST_IDS);
    match row.behind {
        Some(place) if place < stores.len() => stores[place].reopened(alloc, ids),
        _ => Oracle::new(alloc, ids),
    }
}

fn check_row(rt: &impl Print, alloc: Global, store: &mut Oracle, row: &Row<'_>) -> Result<bool> {
    let told = told_by(alloc, store, row)?;
    let is_right = is_right(told.as_slice(), row.answers.as_slice());
    if !is_right {
        say_wrong(rt, row, "the slow store", told.as_slice())?;
    }
    Ok(is_right)
}

fn told_by(alloc: Global, store: &mut Oracle, row: &Row<'_>) -> Result<Vec<u8>, AllocError> {
    let mut told = Vec::new(alloc);
    for line in &row.asked {
        store.answer(alloc, line.as_bytes(), &mut told)?;
    }
    Ok(told)
}
