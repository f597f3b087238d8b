//! Putting one frame.
ghost use Rattle.std.specs.Prelude.{◌≡◌, ℕ, ◌≤◌, ◌<◌, ◌+◌, ◌^◌, [], ◌∷◌, ◌++◌, length, take, OnOk, IsErr, IsErrOf};
ghost use Rattle.outside.specs.ConnectionModel.{send_known};
ghost use Rattle.vo_spec.specs.Bytes.{u32_bytes};
ghost use Rattle.link_frames.specs.Frames.{code_of, frame_bytes};
ghost use Rattle.link_frames.specs.Reading.{KeepsLinkCounts};

use crate::frame_kind::FrameKind;
use crate::head::HEAD;
use outside::{Link, PutFault};
use vo_spec::u32_bytes;

/// Puts a frame: first what comes before the body, then the body as it is. A fault or want of
/// memory leaves a front of it there.
pub fn put_frame<L: Link>(link: &mut L, kind: FrameKind, body: &[u8]) -> Result<(), PutFault>
    requires { length body.now + 1 < 2 ^ 32 }
    ensures ok { OnOk result
        (L.wire link.new ≡ send_known (frame_bytes kind body.now) (L.wire link.old)) }
    ensures err { IsErr result → ((n : ℕ)
        × (L.wire link.new ≡ send_known (take n (frame_bytes kind body.now)) (L.wire link.old))) }

    ensures counts { KeepsLinkCounts L.wire L.faults L.misses link.old link.new
        (IsErrOf result PutFault.Failed) }
{
    link.put(&head_bytes(kind, body.len() as u32 + 1))?;
    link.put(body)
}

/// What comes before the body of a frame of this length.
fn head_bytes(kind: FrameKind, length: u32) -> [u8; HEAD]
    ensures { result ≡ u32_bytes length ++ code_of kind ∷ [] }
{
    let [first, second, third, fourth] = u32_bytes(length);
    [first, second, third, fourth, kind.code()]
}
