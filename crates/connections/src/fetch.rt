//! A reply that is asked for over a connection of its own.
ghost use Rattle.std.specs.Prelude.{◌≡◌, ◌+◌, ◌<◌, ◌≤◌, ◌^◌, ◌++◌, length, Some, true, IsTrue, OnOk, IsErrOf};
ghost use Rattle.outside.specs.ConnectionModel.{ConnectionModel, has_next};
ghost use Rattle.link_frames.specs.Reading.{KeepsNetCounts};
ghost use Rattle.link_frames.specs.declared.frame_kind.FrameKind.TheVariants.{Query};
ghost use Rattle.link_frames.specs.Frames.{frame_bytes, max_query};
ghost use Rattle.connections.specs.Fetching.{Fetches};

use crate::answers::answer_into;
use crate::wire_fault::WireFault;
use link_frames::{Awaits, FrameKind, Gathers};
use outside::Net;

/// Adds the store's reply to a query, given as text, to what is gathered, as it comes: a connection
/// is made to this address, and stays as it is afterwards. What is gathered after an error is open.
pub fn fetch_into<N: Net, G: Gathers>(
    net: &mut N,
    address: &str,
    text: &[u8],
    into: &mut G,
) -> Result<(), WireFault>
    requires some { 1 ≤ length text.now }
    requires fits { length text.now ≤ max_query }
    ensures known { (before : ConnectionModel) → N.wire net.old ≡ Some before
        → Fetches (λ added. G.gathered into.new ≡ G.gathered into.old ++ added)
        (frame_bytes Query text.now) result before (N.wire net.new) }
    ensures short { OnOk result
        (length (G.gathered into.new) + 1 < length (G.gathered into.old) + 2 ^ 32) }
    ensures kept { G.kept into.new ≡ G.kept into.old }

    ensures counts { KeepsNetCounts N.wire N.faults N.misses net.old net.new
        (IsErrOf result WireFault.LinkFault) }
{
    match net.connect(address) {
        Ok(()) => answer_into(net, FrameKind::Query, text, Awaits::Reply, into),
        Err(_) => Err(WireFault::LinkFault),
    }
}
