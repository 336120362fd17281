//! Rows divided evenly into shares.
ghost use Rattle.std.specs.Prelude.{◌≡◌, ◌*◌, ◌/◌, ◌≤◌};

/// Where share `k` of the rows begins, and where the one before it ends.
pub fn share(rows: u32, pieces: u32, k: u32) -> u32
    requires pieces { (1 ≤ pieces) × (pieces ≤ 64) }
    requires within { k ≤ pieces }
    ensures share { result ≡ k * rows / pieces }
    ensures small { result ≤ rows }
{
    (u64::from(k) * u64::from(rows) / u64::from(pieces)) as u32
}
