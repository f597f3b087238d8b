//! Asking: one frame is put, and its answer read.
ghost use Rattle.std.specs.Prelude.{◌≡◌, ◌+◌, ◌<◌, ◌≤◌, ◌^◌, ◌&&◌, length, Some, IsTrue, IfOk, IsErrOf};
ghost use Rattle.outside.specs.ConnectionModel.{ConnectionModel};
ghost use Rattle.link_frames.specs.Frames.{frame_bytes, first_frame, may_come, is_length};
ghost use Rattle.link_frames.specs.Reading.{Asks, KeepsLinkCounts};

use crate::awaits::Awaits;
use crate::frame::{Frame, NoFrame};
use crate::frame_kind::FrameKind;
use crate::put::put_frame;
use crate::read::read_frame;
use outside::{Link, PutFault};
use std::alloc::Global;

/// Puts a frame of this kind, and reads the frame that comes then. Nothing is read before all of it
/// was put.
pub fn ask<L: Link>(
    alloc: Global,
    link: &mut L,
    kind: FrameKind,
    body: &[u8],
    awaits: Awaits,
) -> Result<Frame, NoFrame>
    requires { length body.now + 1 < 2 ^ 32 }
    ensures known { (before : ConnectionModel) → L.wire link.old ≡ Some before
        → Asks (frame_bytes kind body.now) (first_frame awaits before.coming) result before
        (L.wire link.new) }
    ensures allowed { IfOk result (λ frame. IsTrue (may_come awaits frame.kind
        && is_length frame.kind (length frame.body.items))) }

    ensures counts { KeepsLinkCounts L.wire L.faults L.misses link.old link.new
        (IsErrOf result NoFrame.LinkFault) }
{
    match put_frame(link, kind, body) {
        Ok(()) => read_frame(alloc, link, awaits),
        Err(PutFault::Failed) => Err(NoFrame::LinkFault),
        Err(PutFault::Memory) => Err(NoFrame::Memory),
    }
}
