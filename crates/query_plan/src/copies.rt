//! Copies of needs.
ghost use Rattle.std.specs.Prelude.{◌≡◌, IfOk};

use std::alloc::{AllocError, Global};
use vo_spec::{Bound, Interval, Need};

fn copy_bound(alloc: Global, bound: &Bound) -> Result<Bound, AllocError>
    ensures { IfOk result (λ copy. copy ≡ bound.now) }
{
    match bound {
        Bound::Absent => Ok(Bound::Absent),
        Bound::Inclusive(key) => Ok(Bound::Inclusive(key.copy(alloc)?)),
        Bound::Exclusive(key) => Ok(Bound::Exclusive(key.copy(alloc)?)),
    }
}

fn copy_interval(alloc: Global, interval: &Interval) -> Result<Interval, AllocError>
    ensures { IfOk result (λ copy. copy ≡ interval.now) }
{
    let low = copy_bound(alloc, &interval.low)?;
    let high = copy_bound(alloc, &interval.high)?;
    Ok(Interval { low, high })
}

/// The same need once more.
pub fn copy_need(alloc: Global, need: &Need) -> Result<Need, AllocError>
    ensures { IfOk result (λ copy. copy ≡ need.now) }
{
    let interval = copy_interval(alloc, &need.interval)?;
    let columns = need.columns.share()?;
    Ok(Need { interval, columns })
}
