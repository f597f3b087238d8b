//! Answers to requests.
ghost use Rattle.std.specs.Prelude.{◌≡◌, ◌+◌, ◌<◌, ◌≤◌, ◌^◌, ◌++◌, length, Some, IfOk, OnOk, IsErrOf};
ghost use Rattle.std.specs.Result.{result_map_both};
ghost use Rattle.outside.specs.ConnectionModel.{ConnectionModel};
ghost use Rattle.link_frames.specs.Frames.{Whole, frame_bytes, first_frame};
ghost use Rattle.link_frames.specs.Reading.{KeepsLinkCounts};
ghost use Rattle.connections.specs.Requesting.{Requests, RequestsInto, answer_in, body_of, received_answer};

use crate::wire_fault::WireFault;
use link_frames::{Awaits, Frame, FrameKind, Gathers, Received, ask, ask_into};
use outside::Link;
use std::alloc::Global;

/// Puts a request of this kind, and takes the answer that is awaited: its body, or the code of a
/// refusal. Nothing is taken before all of the request was put.
pub fn answer_body<L: Link>(
    alloc: Global,
    link: &mut L,
    kind: FrameKind,
    body: &[u8],
    awaits: Awaits,
) -> Result<Vec<u8>, WireFault>
    requires { length body.now + 1 < 2 ^ 32 }
    ensures known { (before : ConnectionModel) → L.wire link.old ≡ Some before
        → Requests (λ bytes. bytes.items) (frame_bytes kind body.now)
        (first_frame awaits before.coming) (answer_in (first_frame awaits before.coming)) result
        before (L.wire link.new) }
    ensures short { IfOk result (λ bytes. length bytes.items + 1 < 2 ^ 32) }

    ensures counts { KeepsLinkCounts L.wire L.faults L.misses link.old link.new
        (IsErrOf result WireFault.LinkFault) }
{
    match ask(alloc, link, kind, body, awaits) {
        Ok(answer) => body_of(answer),
        Err(fault) => Err(WireFault::without_answer(fault)),
    }
}

/// The same with the body of the answer added to what is gathered, as it comes. What is gathered
/// after an error is open.
pub fn answer_into<L: Link, G: Gathers>(
    link: &mut L,
    kind: FrameKind,
    body: &[u8],
    awaits: Awaits,
    into: &mut G,
) -> Result<(), WireFault>
    requires { length body.now + 1 < 2 ^ 32 }
    ensures known { (before : ConnectionModel) → L.wire link.old ≡ Some before
        → RequestsInto (λ added. G.gathered into.new ≡ G.gathered into.old ++ added)
        (frame_bytes kind body.now) (first_frame awaits before.coming) result before
        (L.wire link.new) }
    ensures short { OnOk result
        (length (G.gathered into.new) + 1 < length (G.gathered into.old) + 2 ^ 32) }
    ensures kept { G.kept into.new ≡ G.kept into.old }

    ensures counts { KeepsLinkCounts L.wire L.faults L.misses link.old link.new
        (IsErrOf result WireFault.LinkFault) }
{
    match ask_into(link, kind, body, awaits, into) {
        Ok(received) => received_answer(received),
        Err(fault) => Err(WireFault::without_answer(fault)),
    }
}

/// A refusal is no answer.
fn received_answer(received: Received) -> Result<(), WireFault>
    ensures { result ≡ received_answer received }
{
    match received {
        Received::Body { .. } => Ok(()),
        Received::Refusal { code } => Err(WireFault::Refused { code }),
    }
}

/// The body of an answer that isn't a refusal.
fn body_of(answer: Frame) -> Result<Vec<u8>, WireFault>
    ensures value { result_map_both (λ bytes. bytes.items) (λ why. why) result
        ≡ body_of answer.kind answer.body.items }
    ensures body { IfOk result (λ bytes. bytes ≡ answer.body) }
{
    match answer.kind {
        FrameKind::Refusal => Err(WireFault::Refused {
            code: answer.body.first().copied().unwrap_or(0),
        }),
        _ => Ok(answer.body),
    }
}
