//! Comparisons of values.
ghost use Rattle.std.specs.Prelude.{◌≡◌};
ghost use Rattle.vo_spec.specs.Conditions.{compares, comparison_truth};
ghost use Rattle.vo_spec.specs.Lent.{value_of};

use crate::value_order::compare_values;
use std::cmp::Ordering;
use vo_spec::{Cmp, ValueRef};

fn compares(op: Cmp, ordering: Ordering) -> bool
    ensures { result ≡ compares op ordering }
{
    match op {
        Cmp::Eq => ordering.is_eq(),
        Cmp::Ne => ordering.is_ne(),
        Cmp::Lt => ordering.is_lt(),
        Cmp::Le => ordering.is_le(),
        Cmp::Gt => ordering.is_gt(),
        Cmp::Ge => ordering.is_ge(),
    }
}

/// Whether the values compare so, which is unknown where one of them is NULL.
pub(crate) fn comparison_truth(op: Cmp, a: ValueRef<'_>, b: ValueRef<'_>) -> Option<bool>
    ensures { result ≡ comparison_truth op (value_of a.entry) (value_of b.entry) }
{
    if a.is_null() || b.is_null() {
        None
    } else {
        Some(compares(op, compare_values(a, b)))
    }
}
