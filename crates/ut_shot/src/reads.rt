//! Which tables a question reads.
ghost use Rattle.std.specs.Prelude.{◌≡◌};
ghost use Rattle.ut_shot.specs.Reads.{is_named, is_read};

use ut_plain::{Query, Table, place_of};

/// Whether the table of a name stands at a place.
fn is_named(tables: &[Table], name: &[u8], n: usize) -> bool
    ensures { result ≡ is_named tables.now name.now n }
{
    match place_of(tables, name) {
        Some(place) => place == n,
        None => false,
    }
}

/// Whether a question reads the table at a place.
pub(crate) fn is_read(tables: &[Table], query: &Query, n: usize) -> bool
    ensures { result ≡ is_read tables.now query.now n }
{
    match query {
        Query::Select { table, .. }
        | Query::Count { table, .. }
        | Query::Sum { table, .. }
        | Query::Min { table, .. }
        | Query::Max { table, .. }
        | Query::Group { table, .. } => is_named(tables, table.as_slice(), n),
        Query::Join { left, right, .. } => {
            is_named(tables, left.as_slice(), n) || is_named(tables, right.as_slice(), n)
        }
    }
}
