//! The stages of a table.
use ut_l1::L1;
use ut_l2::L2;
use ut_main::Main;
use ut_stamps::StampTable;

/// The stages of a table, and the stamps of their rows. While a merge is pending there is a closed
/// L2 beside the one that takes new rows.
#[derive(Clone, Copy)]
pub struct Stages<'a> {
    pub l1: &'a L1,
    pub l2: &'a L2,
    pub closed: Option<&'a L2>,
    pub main: &'a Main,
    pub stamps: &'a StampTable,
}
