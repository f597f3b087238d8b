//! Whether an interval has a key, and whether a scan of it visits a child.
ghost use Rattle.std.specs.Prelude.{◌≡◌};
ghost use Rattle.std.specs.Option.{option_copied};
ghost use Rattle.vo_spec.specs.Values.{key_lt as is_less};
ghost use Rattle.vo_spec.specs.Scans.{
  is_above,
  is_below,
  in_interval as is_in,
  are_crossed,
  is_empty_interval as leaves_none,
  ends_above,
  begins_below,
  visits as does_visit,
};

use crate::key_order::compare_keys;
use vo_spec::{Bound, Interval};

/// Whether the first key is below the second.
// Inlined: a call would take as long as most of what it does.
#[inline(always)]
pub fn key_lt(a: &[u8], b: &[u8]) -> bool
    ensures { result ≡ is_less a.now b.now }
{
    compare_keys(a, b).is_lt()
}

/// Whether the key is in the interval.
// Inlined: asked of each entry.
#[inline(always)]
pub fn in_interval(interval: &Interval, key: &[u8]) -> bool
    ensures { result ≡ is_in interval.now key.now }
{
    is_above(&interval.low, key) && is_below(&interval.high, key)
}

fn is_above(low: &Bound, key: &[u8]) -> bool
    ensures { result ≡ is_above low.now key.now }
{
    match low {
        Bound::Absent => true,
        Bound::Inclusive(low) => !key_lt(key, low.as_bytes()),
        Bound::Exclusive(low) => key_lt(low.as_bytes(), key),
    }
}

fn is_below(high: &Bound, key: &[u8]) -> bool
    ensures { result ≡ is_below high.now key.now }
{
    match high {
        Bound::Absent => true,
        Bound::Inclusive(high) => !key_lt(high.as_bytes(), key),
        Bound::Exclusive(high) => key_lt(key, high.as_bytes()),
    }
}

/// Whether the bounds leave no key.
pub fn is_empty_interval(interval: &Interval) -> bool
    ensures { result ≡ leaves_none interval.now }
{
    match (&interval.low, &interval.high) {
        (Bound::Absent, _) | (_, Bound::Absent) => false,
        (Bound::Inclusive(low), Bound::Inclusive(high)) => {
            key_lt(high.as_bytes(), low.as_bytes())
        },
        (
            Bound::Inclusive(low) | Bound::Exclusive(low),
            Bound::Inclusive(high) | Bound::Exclusive(high),
        ) => { !key_lt(low.as_bytes(), high.as_bytes()) },
    }
}

/// Whether a scan that visits a node goes on to its child between these separators.
// Asked of each need at each child.
#[inline(always)]
pub fn visits(interval: &Interval, lower: Option<&[u8]>, upper: Option<&[u8]>) -> bool
    ensures { result ≡ does_visit interval.now (option_copied lower.entry)
        (option_copied upper.entry) }
{
    ends_above(&interval.low, upper) && begins_below(&interval.high, lower)
}

/// The same, with that asked first which is likely to be false: whether the child ends above the
/// interval's start, or, past a child that the scan goes on to, whether it begins below its end.
#[inline(always)]
pub fn visits_from(
    is_past: bool,
    interval: &Interval,
    lower: Option<&[u8]>,
    upper: Option<&[u8]>,
) -> bool
    ensures { result ≡ does_visit interval.now (option_copied lower.entry)
        (option_copied upper.entry) }
{
    if is_past {
        begins_below(&interval.high, lower) && ends_above(&interval.low, upper)
    } else {
        visits(interval, lower, upper)
    }
}

fn ends_above(low: &Bound, upper: Option<&[u8]>) -> bool
    ensures { result ≡ ends_above low.now (option_copied upper.entry) }
{
    match (low, upper) {
        (Bound::Absent, _) | (_, None) => true,
        (Bound::Inclusive(low) | Bound::Exclusive(low), Some(upper)) => {
            key_lt(low.as_bytes(), upper)
        },
    }
}

// Inlined as what calls it is: asked of each need at each child.
#[inline(always)]
fn begins_below(high: &Bound, lower: Option<&[u8]>) -> bool
    ensures { result ≡ begins_below high.now (option_copied lower.entry) }
{
    match (high, lower) {
        (Bound::Absent, _) | (_, None) => true,
        (Bound::Inclusive(high), Some(lower)) => !key_lt(high.as_bytes(), lower),
        (Bound::Exclusive(high), Some(lower)) => key_lt(lower, high.as_bytes()),
    }
}
