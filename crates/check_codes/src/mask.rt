//! The places of a mask that stand, until they are cleared.
use crate::codes::{same_number, same_place};
use std::alloc::{AllocError, Global};
use std::process::Abort;
use ut_mask::Mask;

// The places of a mask that stand, found one by one.
fn assert_places(rt: &impl Abort, mask: &Mask, places: &[u32]) {
    let mut from = 0;
    for place in places {
        same_place(rt, mask.next(from), Some(*place));
        assert!(rt; *place < u32::MAX);
        from = *place + 1;
    }
    same_place(rt, mask.next(from), None);
    assert!(rt; mask.count() as usize == places.len());
}

// In a new mask each place stands.
fn is_whole(rt: &impl Abort, alloc: Global, rows: u32, places: &[u32]) -> Result<(), AllocError> {
    assert!(rt; rows <= 100);
    let mask = Mask::new(alloc, rows)?;
    assert_places(rt, &mask, places);
    Ok(())
}

// Clears a range that the mask has, unless it stays.
fn keep(rt: &impl Abort, mask: &mut Mask, from: u32, to: u32, stays: bool) {
    assert!(rt; from <= to && to <= mask.len());
    mask.keep_range(from, to, stays);
}

// Clears most places of a new mask.
fn thin(rt: &impl Abort, mask: &mut Mask) {
    same_number(rt, mask.count(), 150);
    mask.keep_word(0, 1 << 63 | 1 << 5);
    keep(rt, mask, 66, 148, false);
    keep(rt, mask, 0, 150, true);
    assert_places(rt, mask, &[5, 63, 64, 65, 148, 149]);
}

// Clears the last places of the second word.
fn clear_word(rt: &impl Abort, mask: &mut Mask) {
    assert!(rt; mask.len() == 150 && !mask.is_word_clear(1));
    mask.clear(60, 66);
    assert!(rt; mask.len() == 150 && mask.is_word_clear(1));
    assert_places(rt, mask, &[5, 148, 149]);
}

#[test]
fn places_stand_until_they_are_cleared(rt: HostRuntime) -> Result<(), AllocError> {
    let alloc = rt.alloc();
    is_whole(&rt, alloc, 0, &[])?;
    is_whole(&rt, alloc, 3, &[0, 1, 2])?;
    let mut mask = Mask::new(alloc, 150)?;
    assert!(rt; mask.len() == 150);
    thin(&rt, &mut mask);
    clear_word(&rt, &mut mask);
    Ok(())
}
