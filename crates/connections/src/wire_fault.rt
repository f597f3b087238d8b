//! Why a request has no answer.
ghost use Rattle.std.specs.Prelude.{◌≡◌};

use link_frames::NoFrame;
use thiserror::Error;

#[derive(Clone, Copy, Debug, PartialEq, Eq, Error)]
pub enum WireFault {
    /// A frame came that isn't the answer.
    #[error("a frame of length {length} that is no answer")]
    BadFrame { length: u32 },
    /// The link ended after so many bytes of the answer, maybe none.
    #[error("the link ended after {got} bytes of the answer")]
    Cut { got: usize },
    /// A call of the link failed, or no connection was made.
    #[error("the link failed")]
    LinkFault,
    /// The store refuses the request, and says why by a code.
    #[error("the store refuses with code {code}")]
    Refused { code: u8 },
    #[error("out of memory")]
    Memory,
}

impl WireFault {
    ghost use Rattle.connections.specs.Requesting.{fault_of};

    /// Why there is no answer where no frame was read.
    pub fn without_answer(fault: NoFrame) -> WireFault
        ensures { result ≡ fault_of fault }
    {
        match fault {
            NoFrame::Ended => WireFault::Cut { got: 0 },
            NoFrame::Cut { got } => WireFault::Cut { got },
            NoFrame::BadFrame { length } => WireFault::BadFrame { length },
            NoFrame::LinkFault => WireFault::LinkFault,
            NoFrame::Memory => WireFault::Memory,
        }
    }
}
