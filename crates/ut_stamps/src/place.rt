//! The places of a table's rows.

/// Where a row stands: its stage, and its place there. A part of main has a number.
#[derive(Clone, Copy, Debug, PartialEq, Eq)]
pub enum Place {
    L1(u32),
    L2(u32),
    Closed(u32),
    Main(u8, u32),
}
