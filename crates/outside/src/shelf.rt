//! Files, each taken whole by its name.
ghost use Rattle.std.specs.Prelude.{◌≡◌, ℕ, ◌≤◌, Option, is_some, length, IfSome, IfOk, IsErrOf};
ghost use Rattle.outside.specs.Miss.{CountsMiss};
ghost use Rattle.outside.specs.FaultRose.{FaultRose};
ghost use Rattle.outside.specs.Shelf.{Files, Takes, UnlessTakeFails};

use crate::faults::TakeFault;
use std::alloc::Global;

/// Files that are only read.
pub trait Shelf {
    /// The bytes under each name, where they are known.
    ghost contents: { Self → Option Files };

    /// How many calls have failed.
    ghost faults: { Self → ℕ };

    /// How many of them asked for a name that isn't there; it means something where the contents
    /// are known.
    ghost misses: { Self → ℕ };

    /// The bytes under this name, if there are at most `limit` of them.
    fn take(&mut self, alloc: Global, name: &str, limit: u64) -> Result<Vec<u8>, TakeFault>
        ensures known { IfSome (contents self.old) (λ files. Takes (files name.now) limit result) }
        ensures fits { IfOk result (λ taken. length taken.items ≤ limit) }
        ensures kept { contents self.new ≡ contents self.old }

        ensures counts { faults self.old ≤ faults self.new }
        ensures cause { IsErrOf result TakeFault.Failed
            → FaultRose (faults self.old) (faults self.new) }
        ensures quiet { UnlessTakeFails result (faults self.new ≡ faults self.old) }
        ensures misses { IfSome (contents self.old)
            (λ files. CountsMiss (is_some (files name.now)) (misses self.old) (misses self.new)) };
}
