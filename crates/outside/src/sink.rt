//! Where output goes.
ghost use Rattle.std.specs.Prelude.{◌≡◌, ℕ, ◌≤◌, Option, List, take, OnOk, IsErrOf};
ghost use Rattle.outside.specs.FaultRose.{FaultRose};
ghost use Rattle.outside.specs.Sink.{UnlessPutFails, append_known};

use crate::faults::PutFault;

/// Output that grows at its end.
pub trait Sink {
    /// The bytes written so far, where that is known.
    ghost written: { Self → Option (List ℕ) };

    /// How many calls have failed.
    ghost faults: { Self → ℕ };

    fn put(&mut self, piece: &[u8]) -> Result<(), PutFault>
        ensures ok { OnOk result (written self.new ≡ append_known (written self.old) piece.now) }
        ensures failed { IsErrOf result PutFault.Failed
            → ((n : ℕ) × (written self.new ≡ append_known (written self.old) (take n piece.now))) }
        ensures memory { IsErrOf result PutFault.Memory → written self.new ≡ written self.old }

        ensures counts { faults self.old ≤ faults self.new }
        ensures cause { IsErrOf result PutFault.Failed
            → FaultRose (faults self.old) (faults self.new) }
        ensures quiet { UnlessPutFails result (faults self.new ≡ faults self.old) };
}
