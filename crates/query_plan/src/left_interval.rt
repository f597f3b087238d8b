//! The interval of keys that a condition leaves of the left table.
ghost use Rattle.std.specs.Prelude.{◌≡◌, map, drop, IfOk};
ghost use Rattle.vo_spec.specs.Needs.{interval_by_all};
ghost use Rattle.query_binding.specs.HeldSources.{place_seen};
ghost use Rattle.query_plan.specs.BoundConditions.{is_left_key, bound_test_interval, bound_interval};
ghost use Rattle.query_plan.specs.BoundViews.{test_seen, parts_seen, condition_seen};

use crate::bound_cond::{BoundCond, BoundOperand, BoundTest};
use crate::intervals::{all_keys, intersection, keys_that_compare};
use query_binding::ColumnPlace;
use std::alloc::{AllocError, Global};
use vo_spec::Interval;

fn is_left_key(key: usize, place: ColumnPlace) -> bool
    ensures { result ≡ is_left_key key (place_seen place) }
{
    place.bound_source == 0 && place.column == key
}

fn test_interval(alloc: Global, key: usize, test: &BoundTest<'_>) -> Result<Interval, AllocError>
    ensures { IfOk result (λ interval. interval
        ≡ bound_test_interval key (test_seen test.now)) }
{
    match test {
        BoundTest::Comparison {
            left,
            op,
            right: BoundOperand::Literal(value),
        } if is_left_key(key, *left) => keys_that_compare(alloc, *op, *value),
        BoundTest::Comparison { .. } | BoundTest::IsNull { .. } => Ok(all_keys()),
    }
}

/// What the conjuncts of the form `key op literal` share, by the number of the left table's key.
#[cycle(interval)]
pub(crate) fn interval_of(
    alloc: Global,
    key: usize,
    cond: &BoundCond<'_>,
) -> Result<Interval, AllocError>
    ensures { IfOk result (λ interval. interval ≡ bound_interval key (condition_seen cond.now)) }
{
    match cond {
        BoundCond::All(parts) => interval_of_all(alloc, key, parts.as_slice()),
        BoundCond::Any(_) | BoundCond::Not(_) => Ok(all_keys()),
        BoundCond::Test(test) => test_interval(alloc, key, test),
    }
}

#[cycle(interval)]
fn interval_of_all(
    alloc: Global,
    key: usize,
    parts: &[BoundCond<'_>],
) -> Result<Interval, AllocError>
    ensures { IfOk result (λ interval. interval
        ≡ interval_by_all (bound_test_interval key) (parts_seen (map condition_seen parts.now))) }
{
    let mut interval = all_keys();
    let mut place = parts.len();
    while place > 0 {
        place -= 1;
        interval = intersection(interval_of(alloc, key, &parts[place])?, interval);
    }
    Ok(interval)
}
