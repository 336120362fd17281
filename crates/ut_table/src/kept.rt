//! What the rows and stamps of a stage are when more of them come.
ghost use Rattle.std.specs.Prelude.{◌≡◌, ◌≤◌, ◌++◌, None, All, IsTrue, replicate};
ghost use Rattle.std.specs.List.{list_all};
ghost use Rattle.ut_value.specs.declared.value.Row.{Row};
ghost use Rattle.ut_value.specs.KeyBytes.{is_value};

use ut_stamps::{Stamp, StampTable};
use ut_value::{Row, values_keep_rules};

/// The values of rows keep their rules, as a fact for a caller.
pub fn rows_keep_rules(rows: &[Row])
    ensures { All (λ (r : Row). IsTrue (list_all is_value r.values)) rows.now }
{
    for row in rows {
        values_keep_rules(row.values.as_slice());
    }
}

/// Stamps of so many rows of the second stage that a transaction begins. Takes no memory.
pub fn begin_all(stamps: &mut StampTable, n: u32, t: u64)
    requires { n ≤ stamps.old.l2.room }
    ensures l2 { stamps.new.l2.items ≡ stamps.old.l2.items ++ replicate n (record { begin = t; end = None }) }
    ensures others { stamps.new ≡ record stamps.old { l2 = stamps.new.l2 } }
{
    for _ in 0..n {
        stamps.push_l2(Stamp {
            begin: t,
            end: None,
        });
    }
}
