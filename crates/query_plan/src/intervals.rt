//! Intervals of keys: those that a comparison lets through, and what two of them share.
ghost use Rattle.std.specs.Prelude.{◌≡◌, IfOk};
ghost use Rattle.vo_spec.specs.Lent.{value_of};
ghost use Rattle.vo_spec.specs.Values.{key_lt as is_less, key_of as key_bytes};
ghost use Rattle.vo_spec.specs.Needs.{all_keys, keys_that, keys_that_compare, higher, lower, intersection};

use row_bytes::key_of;
use std::alloc::{AllocError, Global};
use vo_spec::{Bound, Cmp, Interval, Key, ValueRef};

fn key_lt(a: &Key, b: &Key) -> bool
    ensures { result ≡ is_less a.now b.now }
{
    a.cmp(b).is_lt()
}

/// The interval of all keys.
pub(crate) fn all_keys() -> Interval
    ensures { result ≡ all_keys }
{
    Interval {
        low: Bound::Absent,
        high: Bound::Absent,
    }
}

/// The keys of the values that compare so with this one.
pub(crate) fn keys_that(alloc: Global, op: Cmp, value: ValueRef<'_>) -> Result<Interval, AllocError>
    ensures { IfOk result (λ interval. interval
        ≡ keys_that op (key_bytes (value_of value.entry))) }
{
    let key = key_of(alloc, &value.to_value(alloc)?)?;
    let (low, high) = match op {
        Cmp::Eq => (Bound::Inclusive(key.copy(alloc)?), Bound::Inclusive(key)),
        Cmp::Ne => (Bound::Absent, Bound::Absent),
        Cmp::Lt => (Bound::Absent, Bound::Exclusive(key)),
        Cmp::Le => (Bound::Absent, Bound::Inclusive(key)),
        Cmp::Gt => (Bound::Exclusive(key), Bound::Absent),
        Cmp::Ge => (Bound::Inclusive(key), Bound::Absent),
    };
    Ok(Interval { low, high })
}

/// The keys that such a comparison with the value lets through. One with NULL bounds none.
pub(crate) fn keys_that_compare(
    alloc: Global,
    op: Cmp,
    value: ValueRef<'_>,
) -> Result<Interval, AllocError>
    ensures { IfOk result (λ interval. interval ≡ keys_that_compare op (value_of value.entry)) }
{
    if value.is_null() {
        Ok(all_keys())
    } else {
        keys_that(alloc, op, value)
    }
}

/// The higher one of two lower bounds.
fn higher(a: Bound, b: Bound) -> Bound
    ensures { result ≡ higher a b }
{
    match (a, b) {
        (Bound::Absent, bound) | (bound, Bound::Absent) => bound,
        (Bound::Inclusive(a), Bound::Inclusive(b)) => {
            Bound::Inclusive(if key_lt(&a, &b) { b } else { a })
        },
        (Bound::Inclusive(a), Bound::Exclusive(b)) => {
            if key_lt(&b, &a) {
                Bound::Inclusive(a)
            } else {
                Bound::Exclusive(b)
            }
        },
        (Bound::Exclusive(a), Bound::Inclusive(b)) => {
            if key_lt(&a, &b) {
                Bound::Inclusive(b)
            } else {
                Bound::Exclusive(a)
            }
        },
        (Bound::Exclusive(a), Bound::Exclusive(b)) => {
            Bound::Exclusive(if key_lt(&a, &b) { b } else { a })
        },
    }
}

/// The lower one of two upper bounds.
fn lower(a: Bound, b: Bound) -> Bound
    ensures { result ≡ lower a b }
{
    match (a, b) {
        (Bound::Absent, bound) | (bound, Bound::Absent) => bound,
        (Bound::Inclusive(a), Bound::Inclusive(b)) => {
            Bound::Inclusive(if key_lt(&b, &a) { b } else { a })
        },
        (Bound::Inclusive(a), Bound::Exclusive(b)) => {
            if key_lt(&a, &b) {
                Bound::Inclusive(a)
            } else {
                Bound::Exclusive(b)
            }
        },
        (Bound::Exclusive(a), Bound::Inclusive(b)) => {
            if key_lt(&b, &a) {
                Bound::Inclusive(b)
            } else {
                Bound::Exclusive(a)
            }
        },
        (Bound::Exclusive(a), Bound::Exclusive(b)) => {
            Bound::Exclusive(if key_lt(&b, &a) { b } else { a })
        },
    }
}

/// The keys that are in both intervals. Of equal bounds the exclusive one counts.
pub(crate) fn intersection(a: Interval, b: Interval) -> Interval
    ensures { result ≡ intersection a b }
{
    Interval {
        low: higher(a.low, b.low),
        high: lower(a.high, b.high),
    }
}
