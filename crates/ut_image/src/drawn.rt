//! What a directory says of a table.
use ut_plain::Table;
use ut_value::{Row, Seq};

/// Where the bytes of a part stand, and which of its rows are live.
#[derive(Drop)]
pub struct PartRef {
    pub first: u32,
    pub length: u64,
    pub rows: u32,
    pub live: Seq<bool>,
}

/// A table of an image: its parts, and the rows of the second delta and of the first.
#[derive(Drop)]
pub struct Drawn {
    pub table: Table,
    pub parts: Seq<PartRef>,
    pub l2: Seq<Row>,
    pub l1: Seq<Row>,
}
