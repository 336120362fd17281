//! When a source was asked for more.

/// A call that asked a source for bytes: how many it had left before, and how many the sink had taken by then.
#[derive(Clone, Copy, Debug, PartialEq, Eq)]
pub struct Ask {
    pub left: u64,
    pub taken: u64,
}
