//! One exchange: a frame, and its answer.
ghost use Rattle.std.specs.Prelude.{◌≡◌, ◌+◌, ◌<◌, ◌≤◌, ◌^◌, length, slice_index, Some, IfErr, IsErrOf};
ghost use Rattle.outside.specs.ConnectionModel.{ConnectionModel};
ghost use Rattle.link_frames.specs.Frames.{frame_bytes, first_frame};
ghost use Rattle.link_frames.specs.Reading.{KeepsLinkCounts};
ghost use Rattle.owner_session.specs.Endings.{IsOfLink};
ghost use Rattle.owner_session.specs.SessionWork.{is_refusal};
ghost use Rattle.owner_session.specs.Runs.{Exchanges, AnswersBody};

use crate::lines::{bad_answer, cut_answer, store_refusal};
use crate::stop::SessionStop;
use link_frames::{Awaits, Frame, FrameKind, NoFrame, ask};
use outside::Link;
use std::alloc::Global;

/// Puts a frame, and gives the body of its answer.
pub fn exchange<L: Link>(
    alloc: Global,
    link: &mut L,
    kind: FrameKind,
    body: &[u8],
    awaits: Awaits,
) -> Result<Vec<u8>, SessionStop>
    requires { length body.now + 1 < 2 ^ 32 }
    ensures known { (before : ConnectionModel) → L.wire link.old ≡ Some before
        → Exchanges (frame_bytes kind body.now) (first_frame awaits before.coming) result before
        (L.wire link.new) }

    ensures counts { KeepsLinkCounts L.wire L.faults L.misses link.old link.new
        (IsErrOf result SessionStop.LinkFault) }
    ensures inside { IfErr result IsOfLink }
{
    match ask(alloc, link, kind, body, awaits) {
        Ok(frame) => answer_body(alloc, frame),
        Err(NoFrame::Ended) => Err(cut_answer(alloc, 0)),
        Err(NoFrame::Cut { got }) => Err(cut_answer(alloc, got)),
        Err(NoFrame::BadFrame { length }) => Err(bad_answer(alloc, length as u64)),
        Err(NoFrame::LinkFault) => Err(SessionStop::LinkFault),
        Err(NoFrame::Memory) => Err(SessionStop::Memory),
    }
}

/// The body of an answer that is no refusal.
fn answer_body(alloc: Global, frame: Frame) -> Result<Vec<u8>, SessionStop>
    ensures body { AnswersBody frame.kind frame.body.items result }
    ensures inside { IfErr result IsOfLink }
{
    if is_refusal(frame.kind) {
        return Err(store_refusal(alloc, first_byte(frame.body.as_slice())));
    }
    Ok(frame.body)
}

fn is_refusal(kind: FrameKind) -> bool
    ensures { result ≡ is_refusal kind }
{
    matches!(kind, FrameKind::Refusal)
}

/// The first byte, or 0 where there is none.
fn first_byte(bytes: &[u8]) -> u8
    ensures { result ≡ slice_index bytes.now 0 }
{
    bytes.first().copied().unwrap_or(0)
}
