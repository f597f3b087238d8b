//! What answers the requests of a served connection.
ghost use Rattle.std.specs.Prelude.{◌≡◌, ℕ, ◌+◌, ◌<◌, ◌^◌, List, length, Option, None, option_map, IfOk, IfSome, OnErr};
ghost use Rattle.link_frames.specs.declared.frame_kind.FrameKind.{FrameKind};

use crate::frame::Frame;
use crate::frame_kind::FrameKind;
use std::alloc::{AllocError, Global};

/// A state that requests change, each as a whole.
pub trait Responder {
    ghost State: { Type 0 };

    ghost state: { Self → State };

    /// The kind and the body of the answer to a request; none where the body is none of its kind.
    ghost reply: { State → FrameKind → List ℕ → Option (FrameKind × List ℕ) };

    /// The state after a request that is answered.
    ghost next: { State → FrameKind → List ℕ → State };

    /// Answers a request, and goes on to the next state; without an answer the state stays.
    fn answer(
        &mut self,
        alloc: Global,
        kind: FrameKind,
        body: &[u8],
    ) -> Result<Option<Frame>, AllocError>
        ensures reply { IfOk result (λ answer. option_map (λ frame. (frame.kind, frame.body.items))
            answer ≡ reply (state self.old) kind body.now) }
        ensures fits { IfOk result (λ answer. IfSome answer
            (λ frame. length frame.body.items + 1 < 2 ^ 32)) }
        ensures next { IfOk result (λ answer. IfSome answer
            (λ _. state self.new ≡ next (state self.old) kind body.now)) }
        ensures none { IfOk result (λ answer. answer ≡ None → state self.new ≡ state self.old) }
        ensures err { OnErr result (state self.new ≡ state self.old) };
}
