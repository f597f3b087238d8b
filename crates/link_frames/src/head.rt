//! The length and the kind of a frame, which come before its body.
ghost use Rattle.std.specs.Prelude.{◌≡◌, ℕ, ◌-◌, ◌<◌, ◌≤◌, ◌&&◌, List, Some, IsTrue, IfOk, IsErrOf};
ghost use Rattle.outside.specs.ConnectionModel.{ConnectionModel};
ghost use Rattle.link_frames.specs.Frames.{kind_of, may_come, is_length, with_kind, behind_length, first_frame};
ghost use Rattle.link_frames.specs.Reading.{IsHeadOf, KeepsLinkCounts, ReadsHead};

use crate::awaits::Awaits;
use crate::fill::fill;
use crate::frame::NoFrame;
use crate::frame_kind::FrameKind;
use outside::Link;

/// How many bytes come before the body.
pub const HEAD: usize = 5;

/// The length is that of the body.
#[derive(Clone, Copy, Debug, PartialEq, Eq)]
pub struct FrameHead {
    pub kind: FrameKind,
    pub length: usize,
}

/// Reads what comes before the body of the next frame, and refuses a frame that may not come here.
pub fn read_head<L: Link>(link: &mut L, awaits: Awaits) -> Result<FrameHead, NoFrame>
    ensures known { (before : ConnectionModel) → L.wire link.old ≡ Some before
        → ReadsHead 0 (first_frame awaits before.coming) result before (L.wire link.new) }
    ensures allowed { IfOk result
        (λ head. IsTrue (may_come awaits head.kind && is_length head.kind head.length)) }

    ensures counts { KeepsLinkCounts L.wire L.faults L.misses link.old link.new
        (IsErrOf result NoFrame.LinkFault) }
{
    let mut length = [0; 4];
    match fill(link, &mut length) {
        Ok(0) => Err(NoFrame::Ended),
        Ok(4) => read_kind(link, awaits, u32::from_be_bytes(length)),
        Ok(got) => Err(NoFrame::Cut { got }),
        Err(_) => Err(NoFrame::LinkFault),
    }
}

/// Reads the kind behind the length.
fn read_kind<L: Link>(link: &mut L, awaits: Awaits, length: u32) -> Result<FrameHead, NoFrame>
    ensures known { (before : ConnectionModel) → L.wire link.old ≡ Some before
        → ReadsHead 4 (behind_length awaits length before.coming) result before (L.wire link.new) }
    ensures allowed { IfOk result
        (λ head. IsTrue (may_come awaits head.kind && is_length head.kind head.length)) }

    ensures counts { KeepsLinkCounts L.wire L.faults L.misses link.old link.new
        (IsErrOf result NoFrame.LinkFault) }
{
    if length == 0 {
        return Err(NoFrame::BadFrame { length });
    }
    let mut code = [0; 1];
    match fill(link, &mut code) {
        Ok(0) => Err(NoFrame::Cut { got: 4 }),
        Ok(_) => head_of(awaits, length, code[0]),
        Err(_) => Err(NoFrame::LinkFault),
    }
}

/// The head that begins with this length and goes on with this byte, if such a frame may come.
fn head_of(awaits: Awaits, length: u32, code: u8) -> Result<FrameHead, NoFrame>
    requires { 0 < length }
    ensures known { (bytes : List ℕ)
        → IsHeadOf (with_kind awaits (kind_of code) (length - 1) bytes) length bytes result }
    ensures allowed { IfOk result
        (λ head. IsTrue (may_come awaits head.kind && is_length head.kind head.length)) }
{
    let Some(kind) = FrameKind::from_code(code) else {
        return Err(NoFrame::BadFrame { length });
    };
    let body = (length - 1) as usize;
    if !awaits.allows(kind, body) {
        return Err(NoFrame::BadFrame { length });
    }
    Ok(FrameHead { kind, length: body })
}
