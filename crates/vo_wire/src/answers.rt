//! Answers as frames, and the codes of refusals.
ghost use Rattle.std.specs.Prelude.{◌≡◌, Some, IfOk, IsErr};
ghost use Rattle.vo_store.specs.declared.fault.StoreFault.TheVariants.{Memory};
ghost use Rattle.vo_wire.specs.Answering.{FitsFrame, refusal_answer, code_of, frame_answer, told_code};

use link_frames::{Frame, FrameKind};
use std::alloc::{AllocError, Global};
use vo_store::StoreFault;

/// The code of a text that is no query.
pub(crate) const NO_QUERY: u8 = 1;

/// A refusal with this code.
pub(crate) fn refusal_frame(alloc: Global, code: u8) -> Result<Option<Frame>, AllocError>
    ensures answer { IfOk result (λ answer. frame_answer answer ≡ Some (refusal_answer code)) }
    ensures fits { IfOk result FitsFrame }
{
    let mut body = Vec::new(alloc);
    body.push(code)?;
    Ok(Some(Frame {
        kind: FrameKind::Refusal,
        body,
    }))
}

/// A refusal of a store's, but for want of memory.
pub(crate) fn refusal_by(alloc: Global, fault: StoreFault) -> Result<Option<Frame>, AllocError>
    ensures answer { IfOk result (λ answer. frame_answer answer
        ≡ Some (refusal_answer (code_of fault))) }
    ensures fits { IfOk result FitsFrame }
    ensures memory { fault ≡ Memory → IsErr result }
{
    match told_code(fault) {
        Some(code) => refusal_frame(alloc, code),
        None => Err(AllocError),
    }
}

/// The code of a refusal that is told: any but want of memory.
fn told_code(fault: StoreFault) -> Option<u8>
    ensures { result ≡ told_code fault }
{
    match fault {
        StoreFault::Empty => Some(2),
        StoreFault::TooLarge { .. } => Some(3),
        StoreFault::NothingProposed => Some(4),
        StoreFault::WrongRecord { .. } => Some(5),
        StoreFault::BadSignature => Some(6),
        StoreFault::NoVersion { .. } => Some(7),
        StoreFault::Command { .. } => Some(0),
        StoreFault::Memory => None,
    }
}
