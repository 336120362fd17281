//! A list of more values than any machine has room for.
use std::alloc::{AllocError, Global};
use std::test::Fail;
use ut_entry::read_list;
use ut_value::{Seq, Value};

fn values_in(
    alloc: Global,
    count: usize,
    bytes: &[u8],
) -> Result<Option<(Seq<Value>, &[u8])>, AllocError> {
    read_list(alloc, &(), count, bytes)
}

#[test]
fn a_number_of_items_makes_no_room(rt: HostRuntime) -> Result<(), Fail> {
    let alloc = rt.alloc();
    let spelled = b"\0\x80\0\0\0\0\0\0\x05";
    // for so many values no machine has room
    assert!(rt; values_in(alloc, usize::MAX, spelled)?.is_none());
    Ok(())
}
