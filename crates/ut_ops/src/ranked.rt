//! Values as the keys of a map, in the order of values.
ghost use Rattle.std.specs.Prelude.{◌≡◌, Some, refl};
ghost use Rattle.std.specs.Cmp.{po, eq_by_cmp_equiv, partial_equiv_from_equiv};
ghost use Rattle.std.specs.Ordering.{eq_by_cmp};
ghost use Rattle.ut_value.specs.KeyOrder.{value_cmp};
ghost use Rattle.ut_ops.specs.ValueOrder.{value_cmp_total};

use std::cmp::Ordering;
use std::marker::Model;
use ut_plain::value_cmp;
use ut_value::Value;

/// A value that is compared as a column's values are.
#[derive(Drop)]
pub(crate) struct Ranked {
    value: Value,
}

impl Model for Ranked {
    ghost use Rattle.ut_value.specs.declared.value.Value as datum;

    ghost Value = { datum.Value };

    ghost view = { λ k. k.value };
}

impl Ranked {
    pub(crate) fn new(value: Value) -> Self
        ensures { result ≡ value }
    {
        Ranked { value }
    }

    pub(crate) fn into_value(self) -> Value
        ensures { result ≡ self }
    {
        let Ranked { value } = self;
        value
    }
}

impl PartialEq for Ranked {
    ghost eq = { eq_by_cmp value_cmp };

    ghost laws = { partial_equiv_from_equiv (eq_by_cmp_equiv value_cmp_total) };

    fn eq(&self, other: &Ranked) -> bool {
        value_cmp(&self.value, &other.value).is_eq()
    }
}

impl Eq for Ranked {
    ghost laws = { eq_by_cmp_equiv value_cmp_total };
}

impl PartialOrd for Ranked {
    ghost partial_cmp = { λ a b. Some (value_cmp a b) };

    ghost laws = { po value_cmp_total (λ x y. refl) };

    fn partial_cmp(&self, other: &Ranked) -> Option<Ordering> {
        Some(value_cmp(&self.value, &other.value))
    }
}

impl Ord for Ranked {
    ghost cmp = { value_cmp };

    ghost total = { value_cmp_total };

    ghost matches_partial_cmp = { λ a b. refl };

    ghost matches_eq = { λ a b. refl };

    fn cmp(&self, other: &Ranked) -> Ordering {
        value_cmp(&self.value, &other.value)
    }
}
