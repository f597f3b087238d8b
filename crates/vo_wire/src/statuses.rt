//! Where a store stands, as an answer.
ghost use Rattle.std.specs.Prelude.{◌≡◌, IfOk};
ghost use Rattle.vo_wire.specs.Answering.{FitsFrame, frame_answer, status_answer};

use link_frames::{Frame, FrameKind};
use std::alloc::{AllocError, Global};
use store_requests::standing_body;
use vo_store::Store;

/// The record that the store stands at; none where the body of the request isn't empty.
pub(crate) fn answer_status(
    alloc: Global,
    store: &Store,
    body: &[u8],
) -> Result<Option<Frame>, AllocError>
    ensures answer { IfOk result
        (λ answer. frame_answer answer ≡ status_answer store.now body.now) }
    ensures fits { IfOk result FitsFrame }
{
    if !body.is_empty() {
        return Ok(None);
    }
    match standing_body(alloc, &store.standing()) {
        Ok(body) => Ok(Some(Frame {
            kind: FrameKind::Standing,
            body,
        })),
        Err(error) => Err(error),
    }
}
