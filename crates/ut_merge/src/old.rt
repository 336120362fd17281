//! Where the rows of a new part stood.

/// A row's old place: in a part of main, by the part's number, or in the closed stage.
#[derive(Clone, Copy, Debug, PartialEq, Eq)]
pub enum Old {
    Part(u8, u32),
    Closed(u32),
}
