//! A count of faults.
ghost use Rattle.std.specs.Prelude.{◌≡◌, ◌+◌, ◌-◌, ◌^◌, ◌≤◌, min};
ghost use Rattle.outside.specs.FaultRose.{FaultRose};

use outside::Failed;

/// One more, or the last value again.
pub fn raise(faults: &mut u64) -> Failed
    ensures value { faults.new ≡ min (faults.old + 1) (2 ^ 64 - 1) }
    ensures counts { faults.old ≤ faults.new }
    ensures rose { FaultRose faults.old faults.new }
{
    *faults = faults.saturating_add(1);
    Failed
}
