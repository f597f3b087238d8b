//! Bytes to and from one peer.
ghost use Rattle.std.specs.Prelude.{◌≡◌, ℕ, ◌≤◌, Option, false, length, take, IfSome, IfOk, OnOk, OnErr, IsErr, IsErrOf};
ghost use Rattle.outside.specs.Miss.{CountsMiss};
ghost use Rattle.outside.specs.FaultRose.{FaultRose};
ghost use Rattle.outside.specs.ConnectionModel.{ConnectionModel, Gets, take_known, send_known};
ghost use Rattle.outside.specs.Sink.{UnlessPutFails};

use crate::faults::{Failed, PutFault};

/// The connection that stands. Without one its calls fail.
pub trait Link {
    /// The connections, where they are known.
    ghost wire: { Self → Option ConnectionModel };

    /// How many calls have failed.
    ghost faults: { Self → ℕ };

    /// How many of them wanted a connection that isn't there; it means something where the wire is
    /// known.
    ghost misses: { Self → ℕ };

    /// Takes the next bytes into the front of `into`, and tells how many. None in a buffer that
    /// isn't empty is the end. What the buffer holds after a fault is open.
    fn get(&mut self, into: &mut [u8]) -> Result<usize, Failed>
        ensures some { IfOk result (λ n. n ≤ length into.old) }
        ensures taken { IfOk result
            (λ n. IfSome (wire self.old) (λ wire. Gets n wire.coming into.old into.new)) }
        ensures ok { IfOk result (λ n. wire self.new ≡ take_known n (wire self.old)) }
        ensures err { OnErr result (wire self.new ≡ wire self.old) }
        ensures down { IfSome (wire self.old) (λ wire. wire.stands ≡ false → IsErr result) }

        ensures counts { faults self.old ≤ faults self.new }
        ensures cause { IsErr result → FaultRose (faults self.old) (faults self.new) }
        ensures quiet { OnOk result (faults self.new ≡ faults self.old) }
        ensures misses { IfSome (wire self.old)
            (λ wire. CountsMiss wire.stands (misses self.old) (misses self.new)) };

    fn put(&mut self, piece: &[u8]) -> Result<(), PutFault>
        ensures ok { OnOk result (wire self.new ≡ send_known piece.now (wire self.old)) }
        ensures failed { IsErrOf result PutFault.Failed
            → ((n : ℕ) × (wire self.new ≡ send_known (take n piece.now) (wire self.old))) }
        ensures memory { IsErrOf result PutFault.Memory → wire self.new ≡ wire self.old }
        ensures down { IfSome (wire self.old)
            (λ wire. wire.stands ≡ false → IsErrOf result PutFault.Failed) }
        ensures unheard { IfSome (wire self.old)
            (λ old. old.stands ≡ false → wire self.new ≡ wire self.old) }

        ensures counts { faults self.old ≤ faults self.new }
        ensures cause { IsErrOf result PutFault.Failed
            → FaultRose (faults self.old) (faults self.new) }
        ensures quiet { UnlessPutFails result (faults self.new ≡ faults self.old) }
        ensures misses { IfSome (wire self.old)
            (λ wire. CountsMiss wire.stands (misses self.old) (misses self.new)) };
}
