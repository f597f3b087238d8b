//! Reading one frame, whose body is gathered as it comes.
ghost use Rattle.std.specs.Prelude.{◌≡◌, ◌+◌, ◌<◌, ◌≤◌, ◌^◌, [], ◌∷◌, length, Some, IsTrue, OnOk, IsErrOf};
ghost use Rattle.outside.specs.ConnectionModel.{ConnectionModel};
ghost use Rattle.link_frames.specs.declared.frame_kind.FrameKind.TheVariants.{Refusal};
ghost use Rattle.link_frames.specs.Frames.{Whole, first_frame, with_body, is_length};
ghost use Rattle.link_frames.specs.Reading.{Adds, KeepsLinkCounts, ReadsAs, Receives};

use crate::awaits::Awaits;
use crate::fill::fill;
use crate::frame::NoFrame;
use crate::frame_kind::FrameKind;
use crate::gathers::{Gathers, gather_bytes};
use crate::head::{FrameHead, HEAD, read_head};
use crate::interrupted::Interrupted;
use crate::received::Received;
use outside::Link;

/// Reads the next frame, and adds its body to what is gathered, but for that of a refusal. One that
/// may not come here is refused before its body is read.
pub(crate) fn receive_frame<L: Link, G: Gathers>(
    link: &mut L,
    awaits: Awaits,
    into: &mut G,
) -> Result<Received, NoFrame>
    ensures known { (before : ConnectionModel) → L.wire link.old ≡ Some before
        → ReadsAs (Receives (G.gathered into.old) (G.gathered into.new)) 0
        (first_frame awaits before.coming) result before (L.wire link.new) }
    ensures short { OnOk result
        (length (G.gathered into.new) + 1 < length (G.gathered into.old) + 2 ^ 32) }
    ensures kept { G.kept into.new ≡ G.kept into.old }

    ensures counts { KeepsLinkCounts L.wire L.faults L.misses link.old link.new
        (IsErrOf result NoFrame.LinkFault) }
{
    match read_head(link, awaits) {
        Ok(head) => receive_behind(link, head, into),
        Err(fault) => Err(fault),
    }
}

/// Goes on with what comes behind a head.
fn receive_behind<L: Link, G: Gathers>(
    link: &mut L,
    head: FrameHead,
    into: &mut G,
) -> Result<Received, NoFrame>
    requires { IsTrue (is_length head.kind head.length) }
    ensures known { (before : ConnectionModel) → L.wire link.old ≡ Some before
        → ReadsAs (Receives (G.gathered into.old) (G.gathered into.new)) 5
        (with_body head.kind head.length before.coming) result before (L.wire link.new) }
    ensures short { OnOk result
        (length (G.gathered into.new) + 1 < length (G.gathered into.old) + 2 ^ 32) }
    ensures kept { G.kept into.new ≡ G.kept into.old }

    ensures counts { KeepsLinkCounts L.wire L.faults L.misses link.old link.new
        (IsErrOf result NoFrame.LinkFault) }
{
    match head.kind {
        FrameKind::Refusal => match read_code(link) {
            Ok(code) => Ok(Received::Refusal { code }),
            Err(fault) => Err(fault),
        },
        kind => match gather_body(link, head, into) {
            Ok(()) => Ok(Received::Body { kind }),
            Err(fault) => Err(fault),
        },
    }
}

/// Reads the body of a refusal.
fn read_code<L: Link>(link: &mut L) -> Result<u8, NoFrame>
    ensures known { (before : ConnectionModel) → L.wire link.old ≡ Some before
        → ReadsAs (λ first code. first ≡ Whole Refusal (code ∷ [])) 5
        (with_body Refusal 1 before.coming) result before (L.wire link.new) }

    ensures counts { KeepsLinkCounts L.wire L.faults L.misses link.old link.new
        (IsErrOf result NoFrame.LinkFault) }
{
    let mut code = [0; 1];
    match fill(link, &mut code) {
        Ok(0) => Err(NoFrame::Cut { got: HEAD }),
        Ok(_) => Ok(code[0]),
        Err(_) => Err(NoFrame::LinkFault),
    }
}

/// Adds the body behind a head to what is gathered, in the pieces in which it comes.
pub(crate) fn gather_body<L: Link, G: Gathers>(
    link: &mut L,
    head: FrameHead,
    into: &mut G,
) -> Result<(), NoFrame>
    requires { IsTrue (is_length head.kind head.length) }
    ensures known { (before : ConnectionModel) → L.wire link.old ≡ Some before
        → ReadsAs (λ first _. Adds head.kind (G.gathered into.old) (G.gathered into.new) first) 5
        (with_body head.kind head.length before.coming) result before (L.wire link.new) }
    ensures whole { OnOk result
        (length (G.gathered into.new) ≡ length (G.gathered into.old) + head.length) }
    ensures kept { G.kept into.new ≡ G.kept into.old }

    ensures counts { KeepsLinkCounts L.wire L.faults L.misses link.old link.new
        (IsErrOf result NoFrame.LinkFault) }
{
    match gather_bytes(link, into, head.length) {
        Ok(came) if came < head.length => Err(NoFrame::Cut { got: HEAD + came }),
        Ok(_) => Ok(()),
        Err(Interrupted::LinkFault) => Err(NoFrame::LinkFault),
        Err(Interrupted::Memory) => Err(NoFrame::Memory),
    }
}
