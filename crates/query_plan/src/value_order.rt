//! The order of values.
ghost use Rattle.std.specs.Prelude.{◌≡◌};
ghost use Rattle.vo_spec.specs.Lent.{value_of};
ghost use Rattle.vo_spec.specs.Values.{value_tag, value_cmp};

use std::cmp::Ordering;
use vo_spec::ValueRef;

/// The byte that the value's bytes begin with, by which values of two kinds are compared.
fn value_tag(value: ValueRef<'_>) -> u8
    ensures { result ≡ value_tag (value_of value.entry) }
{
    match value {
        ValueRef::Null => 0,
        ValueRef::Int(_) => 1,
        ValueRef::Text(_) => 2,
        ValueRef::Bool(_) => 3,
    }
}

/// The order of a kind. Values of two kinds go by their kinds, and NULL before all others.
pub(crate) fn compare_values(a: ValueRef<'_>, b: ValueRef<'_>) -> Ordering
    ensures { result ≡ value_cmp (value_of a.entry) (value_of b.entry) }
{
    match (a, b) {
        (ValueRef::Int(a), ValueRef::Int(b)) => a.cmp(&b),
        (ValueRef::Text(a), ValueRef::Text(b)) => a.cmp(b),
        (ValueRef::Bool(a), ValueRef::Bool(b)) => a.cmp(&b),
        _ => value_tag(a).cmp(&value_tag(b)),
    }
}
