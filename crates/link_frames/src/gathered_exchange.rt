//! Asking, with the body of the answer gathered as it comes.
ghost use Rattle.std.specs.Prelude.{◌≡◌, ◌+◌, ◌<◌, ◌≤◌, ◌^◌, length, Some, OnOk, IsErrOf};
ghost use Rattle.outside.specs.ConnectionModel.{ConnectionModel};
ghost use Rattle.link_frames.specs.Frames.{frame_bytes, first_frame};
ghost use Rattle.link_frames.specs.Reading.{AsksAs, KeepsLinkCounts, Receives};

use crate::awaits::Awaits;
use crate::frame::NoFrame;
use crate::frame_kind::FrameKind;
use crate::gathers::Gathers;
use crate::put::put_frame;
use crate::receive::receive_frame;
use crate::received::Received;
use outside::{Link, PutFault};

/// Puts a frame of this kind, and reads the frame that comes then: its body is added to what is
/// gathered, as it comes, but for that of a refusal. Nothing is read before all of the frame was
/// put. What is gathered after an error is open.
pub fn ask_into<L: Link, G: Gathers>(
    link: &mut L,
    kind: FrameKind,
    body: &[u8],
    awaits: Awaits,
    into: &mut G,
) -> Result<Received, NoFrame>
    requires { length body.now + 1 < 2 ^ 32 }
    ensures known { (before : ConnectionModel) → L.wire link.old ≡ Some before
        → AsksAs (Receives (G.gathered into.old) (G.gathered into.new)) (frame_bytes kind body.now)
        (first_frame awaits before.coming) result before (L.wire link.new) }
    ensures short { OnOk result
        (length (G.gathered into.new) + 1 < length (G.gathered into.old) + 2 ^ 32) }
    ensures kept { G.kept into.new ≡ G.kept into.old }

    ensures counts { KeepsLinkCounts L.wire L.faults L.misses link.old link.new
        (IsErrOf result NoFrame.LinkFault) }
{
    match put_frame(link, kind, body) {
        Ok(()) => receive_frame(link, awaits, into),
        Err(PutFault::Failed) => Err(NoFrame::LinkFault),
        Err(PutFault::Memory) => Err(NoFrame::Memory),
    }
}
