//! The sum of a column by its codes: each number once, times how often its code occurs.
ghost use Rattle.std.specs.Prelude.{◌≡◌, ◌<◌, ◌≤◌, ◌^◌, ℕ, List, length, slice_get, option_map, Some, not, ◌&&◌, nat_lt, IfOk};
ghost use Rattle.ut_value.specs.declared.value.Column.{Column};
ghost use Rattle.ut_plain.specs.Tables.{column_of as place_in};
ghost use Rattle.ut_plain.specs.Query.{column_values, total};
ghost use Rattle.ut_scan.specs.declared.place.Found.{Found};
ghost use Rattle.ut_table.specs.Coded.{coded_values};
ghost use Rattle.ut_table.specs.Finds.{rows_at};
ghost use Rattle.ut_table.specs.Tallied.{IsTally};
ghost use Rattle.ut_ops.specs.Fit.{Fit};

use crate::sums::sum_noted;
use std::alloc::{AllocError, Global};
use ut_scan::CodeTally;
use ut_table::Table;
use ut_value::Kind;

/// Where rows are compared, codes are counted if there are no more of them. Else the rows may be
/// far fewer.
const FEW: usize = 1024;

/// Whether a sum of a column goes by its codes.
pub fn tallied_column(table: &Table, column: usize, is_compared: bool) -> bool
    requires { column < length table.now.stages.columns }
    ensures { result ≡ not (is_compared && nat_lt 1024 (length (coded_values table.now.stages column))) }
{
    !(is_compared && FEW < table.codes(column))
}

/// The sum of a column of numbers over rows, of which those in main are counted by their codes.
/// Of main's dictionaries those keys are read that stand near one of another count.
pub fn sum_tally(
    _alloc: Global,
    table: &Table,
    column: usize,
    tally: &CodeTally,
) -> Result<i128, AllocError>
    requires numbers { option_map (λ (c : Column). c.kind) (slice_get table.now.stages.columns column) ≡ Some Kind.Int }
    requires codes { length tally.now.counts.items < 2 ^ 31 }
    requires few { length tally.now.rest.items ≤ 2 ^ 31 }
    requires fit { Fit table.now.stages tally.now.rest.items }
    ensures { let s = table.now.stages in
        IfOk result (λ sum. (n : ℕ) (name : List ℕ) (found : List Found)
        → place_in s.columns name ≡ Some column → Fit s found
        → IsTally s column found tally.now.counts.items tally.now.rest.items
        → sum ≡ total (column_values s.columns name (rows_at n s found))) }
{
    let counted = table.main_total(column, tally.counts.as_slice());
    Ok(counted + sum_noted(table, column, tally.rest.as_slice()))
}
