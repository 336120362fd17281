//! The six comparisons of a key with another, and comparisons of a column's keys.
ghost use Rattle.std.specs.Prelude.{◌≡◌};
ghost use Rattle.ut_key.specs.Keys.{allows, meets};

use crate::key::Key;
use std::cmp::Ordering;

/// A comparison.
#[derive(Clone, Copy, Debug, PartialEq, Eq)]
pub enum Cmp {
    Eq,
    Ne,
    Lt,
    Le,
    Gt,
    Ge,
}

impl Cmp {
    /// Whether the comparison allows an order.
    pub fn allows(self, order: Ordering) -> bool
        ensures { result ≡ allows self order }
    {
        match self {
            Cmp::Eq => order.is_eq(),
            Cmp::Ne => order.is_ne(),
            Cmp::Lt => order.is_lt(),
            Cmp::Le => order.is_le(),
            Cmp::Gt => order.is_gt(),
            Cmp::Ge => order.is_ge(),
        }
    }

    /// Whether a key meets the comparison with another.
    pub fn is_met(self, key: &[u8], with: &[u8]) -> bool
        ensures { result ≡ meets self with.now key.now }
    {
        self.allows(key.cmp(&with))
    }
}

/// A comparison of a column's key with a given one.
#[derive(Drop)]
pub struct ColumnPred {
    pub column: u8,
    pub op: Cmp,
    pub key: Key,
}
