//! Connections, at most one at a time.
ghost use Rattle.std.specs.Prelude.{◌≡◌, ◌≤◌, [], IfSome, OnOk, OnErr, IsErr};
ghost use Rattle.outside.specs.Miss.{CountsMiss};
ghost use Rattle.outside.specs.FaultRose.{FaultRose};
ghost use Rattle.outside.specs.ConnectionModel.{open_known, close_known, has_next};

use crate::faults::Failed;
use crate::link::Link;

/// A network. A connection that is made ends the one that stood; a call that fails leaves it.
pub trait Net: Link {
    /// Makes a connection to this address.
    fn connect(&mut self, addr: &str) -> Result<(), Failed>
        ensures ok { OnOk result (Self.wire self.new ≡ open_known (Self.wire self.old)) }
        ensures err { OnErr result (Self.wire self.new ≡ Self.wire self.old) }
        ensures none { IfSome (Self.wire self.old) (λ wire. wire.queue ≡ [] → IsErr result) }

        ensures counts { Self.faults self.old ≤ Self.faults self.new }
        ensures cause { IsErr result → FaultRose (Self.faults self.old) (Self.faults self.new) }
        ensures quiet { OnOk result (Self.faults self.new ≡ Self.faults self.old) }
        ensures misses { IfSome (Self.wire self.old)
            (λ wire. CountsMiss (has_next wire) (Self.misses self.old) (Self.misses self.new)) };

    /// Begins to listen at this address, for `next`. Who runs the machine may be told of it, and of
    /// the version that is served there.
    fn listen(&mut self, addr: &str, version: Option<u64>) -> Result<(), Failed>
        ensures kept { Self.wire self.new ≡ Self.wire self.old }

        ensures counts { Self.faults self.old ≤ Self.faults self.new }
        ensures cause { IsErr result → FaultRose (Self.faults self.old) (Self.faults self.new) }
        ensures quiet { OnOk result (Self.faults self.new ≡ Self.faults self.old) }
        ensures misses { IfSome (Self.wire self.old)
            (λ _. Self.misses self.new ≡ Self.misses self.old) };

    /// Takes the next connection that a peer makes.
    fn next(&mut self) -> Result<(), Failed>
        ensures ok { OnOk result (Self.wire self.new ≡ open_known (Self.wire self.old)) }
        ensures err { OnErr result (Self.wire self.new ≡ Self.wire self.old) }
        ensures none { IfSome (Self.wire self.old) (λ wire. wire.queue ≡ [] → IsErr result) }

        ensures counts { Self.faults self.old ≤ Self.faults self.new }
        ensures cause { IsErr result → FaultRose (Self.faults self.old) (Self.faults self.new) }
        ensures quiet { OnOk result (Self.faults self.new ≡ Self.faults self.old) }
        ensures misses { IfSome (Self.wire self.old)
            (λ wire. CountsMiss (has_next wire) (Self.misses self.old) (Self.misses self.new)) };

    /// Ends the connection, if one stands.
    fn close(&mut self)
        ensures closed { Self.wire self.new ≡ close_known (Self.wire self.old) }
        ensures faults { Self.faults self.new ≡ Self.faults self.old }
        ensures misses { IfSome (Self.wire self.old)
            (λ _. Self.misses self.new ≡ Self.misses self.old) };
}
