//! Serving one connection.
ghost use Rattle.std.specs.Prelude.{◌≡◌, ◌+◌, ◌<◌, ◌≤◌, ◌^◌, length, Some, IsErrOf};
ghost use Rattle.outside.specs.ConnectionModel.{ConnectionModel};
ghost use Rattle.link_frames.specs.declared.awaits.Awaits.TheVariants.{Request};
ghost use Rattle.link_frames.specs.Frames.{frame_bytes, first_frame};
ghost use Rattle.link_frames.specs.Reading.{KeepsLinkCounts};
ghost use Rattle.link_frames.specs.Serving.{serving_script, max_turns, ServesKnown, ServesOne, AnswersOne, PutsAnswer};

use crate::awaits::Awaits;
use crate::end::End;
use crate::frame::Frame;
use crate::put::put_frame;
use crate::read::read_frame;
use crate::responder::Responder;
use outside::{Link, PutFault};
use std::alloc::Global;

/// How many requests of one connection are answered at most.
pub const MAX_TURNS: u32 = 1_048_576;

/// Answers the requests that come, one after the other, until the link ends or a frame comes that
/// is no request.
pub fn serve_link<A: Responder, L: Link>(alloc: Global, store: &mut A, link: &mut L) -> End
    ensures known { (before : ConnectionModel) → L.wire link.old ≡ Some before
        → ServesKnown
        (serving_script A.reply A.next max_turns (A.state store.old) before.coming) result
        (A.state store.old) (A.state store.new) before (L.wire link.new) }

    ensures counts { KeepsLinkCounts L.wire L.faults L.misses link.old link.new
        (result ≡ End.LinkFault) }
{
    for _turn in 0..MAX_TURNS {
        match serve_request(alloc, store, link) {
            Ok(()) => {}
            Err(end) => return end,
        }
    }
    End::Turns
}

/// Answers the next request, or tells how the serving ends.
fn serve_request<A: Responder, L: Link>(
    alloc: Global,
    store: &mut A,
    link: &mut L,
) -> Result<(), End>
    ensures known { (before : ConnectionModel) → L.wire link.old ≡ Some before
        → ServesOne A.reply A.next (first_frame Request before.coming) result (A.state store.old)
        (A.state store.new) before (L.wire link.new) }

    ensures counts { KeepsLinkCounts L.wire L.faults L.misses link.old link.new
        (IsErrOf result End.LinkFault) }
{
    match read_frame(alloc, link, Awaits::Request) {
        Ok(request) => answer_request(alloc, store, link, &request),
        Err(fault) => Err(End::without_request(fault)),
    }
}

/// Answers a request that was read whole.
fn answer_request<A: Responder, L: Link>(
    alloc: Global,
    store: &mut A,
    link: &mut L,
    request: &Frame,
) -> Result<(), End>
    requires { length request.now.body.items + 1 < 2 ^ 32 }
    ensures known { (before : ConnectionModel) → L.wire link.old ≡ Some before
        → AnswersOne A.reply A.next request.now.kind request.now.body.items result
        (A.state store.old) (A.state store.new) before (L.wire link.new) }

    ensures counts { KeepsLinkCounts L.wire L.faults L.misses link.old link.new
        (IsErrOf result End.LinkFault) }
{
    match store.answer(alloc, request.kind, &request.body) {
        Ok(Some(answer)) => put_answer(link, &answer),
        Ok(None) => Err(End::BadFrame {
            length: request.body.len() as u32 + 1,
        }),
        Err(_) => Err(End::Memory),
    }
}

/// Puts an answer.
fn put_answer<L: Link>(link: &mut L, answer: &Frame) -> Result<(), End>
    requires { length answer.now.body.items + 1 < 2 ^ 32 }
    ensures known { (before : ConnectionModel) → L.wire link.old ≡ Some before
        → PutsAnswer (frame_bytes answer.now.kind answer.now.body.items) result before
        (L.wire link.new) }

    ensures counts { KeepsLinkCounts L.wire L.faults L.misses link.old link.new
        (IsErrOf result End.LinkFault) }
{
    match put_frame(link, answer.kind, &answer.body) {
        Ok(()) => Ok(()),
        Err(PutFault::Failed) => Err(End::LinkFault),
        Err(PutFault::Memory) => Err(End::Memory),
    }
}
