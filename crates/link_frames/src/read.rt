//! Reading one frame.
ghost use Rattle.std.specs.Prelude.{◌≡◌, ◌≤◌, ◌&&◌, length, Some, IsTrue, IfOk, IsErrOf};
ghost use Rattle.outside.specs.ConnectionModel.{ConnectionModel};
ghost use Rattle.link_frames.specs.Frames.{first_frame, with_body, may_come, is_length};
ghost use Rattle.link_frames.specs.Reading.{KeepsLinkCounts, Reads};

use crate::awaits::Awaits;
use crate::frame::{Frame, NoFrame};
use crate::head::{FrameHead, read_head};
use crate::receive::gather_body;
use outside::Link;
use std::alloc::Global;

/// Reads the next frame, in whatever pieces the link gives it. One that may not come here is
/// refused before its body is read.
pub fn read_frame<L: Link>(alloc: Global, link: &mut L, awaits: Awaits) -> Result<Frame, NoFrame>
    ensures known { (before : ConnectionModel) → L.wire link.old ≡ Some before
        → Reads 0 (first_frame awaits before.coming) result before (L.wire link.new) }
    ensures allowed { IfOk result (λ frame. IsTrue (may_come awaits frame.kind
        && is_length frame.kind (length frame.body.items))) }

    ensures counts { KeepsLinkCounts L.wire L.faults L.misses link.old link.new
        (IsErrOf result NoFrame.LinkFault) }
{
    let head = read_head(link, awaits)?;
    read_body(alloc, link, head)
}

/// Reads the body behind a head.
pub fn read_body<L: Link>(alloc: Global, link: &mut L, head: FrameHead) -> Result<Frame, NoFrame>
    requires { IsTrue (is_length head.kind head.length) }
    ensures known { (before : ConnectionModel) → L.wire link.old ≡ Some before
        → Reads 5 (with_body head.kind head.length before.coming) result before (L.wire link.new) }
    ensures kind { IfOk result (λ frame. frame.kind ≡ head.kind) }
    ensures whole { IfOk result (λ frame. length frame.body.items ≡ head.length) }

    ensures counts { KeepsLinkCounts L.wire L.faults L.misses link.old link.new
        (IsErrOf result NoFrame.LinkFault) }
{
    let mut body = Vec::new(alloc);
    match gather_body(link, head, &mut body) {
        Ok(()) => Ok(Frame {
            kind: head.kind,
            body,
        }),
        Err(fault) => Err(fault),
    }
}
