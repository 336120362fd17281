//! Whether another transaction is in the way of a change.
ghost use Rattle.std.specs.Prelude.{◌≡◌};
ghost use Rattle.ut_table.specs.Finds.{hits_of};
ghost use Rattle.ut_change.specs.Conflicts.{first_taken_in};
ghost use Rattle.ut_change.specs.Writes.{AreThere};

use ut_scan::Found;
use ut_stamps::Snapshot;
use ut_table::Table as Stages;

/// The id of the first of the rows found that another transaction ended behind the snapshot, or is about to. None where
/// each of them may be changed.
pub fn first_taken_in(table: &Stages, snapshot: Snapshot<'_>, hits: &[Found]) -> Option<u32>
    requires { AreThere table.now.stages (hits_of hits.now) }
    ensures { result ≡ first_taken_in table.now.stages snapshot.entry.fates.now snapshot.entry.at snapshot.entry.own (hits_of hits.now) }
{
    for hit in hits {
        let stamp = table.stamp(hit.place);
        if snapshot.takes(&stamp) {
            return Some(hit.id);
        }
    }
    None
}
