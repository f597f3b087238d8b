//! A frame that was read, or why there is none.
use crate::frame_kind::FrameKind;
use thiserror::Error;

#[derive(Debug, Drop)]
pub struct Frame {
    pub kind: FrameKind,
    pub body: Vec<u8>,
}

/// Why no frame was read.
#[derive(Clone, Copy, Debug, PartialEq, Eq, Error)]
pub enum NoFrame {
    /// The link ended where a frame could have begun.
    #[error("the link ended")]
    Ended,
    /// The link ended after so many bytes of a frame, at least one and not all.
    #[error("the link ended inside a frame, after {got} bytes of it")]
    Cut { got: usize },
    /// The length is 0, or no frame of this length and its kind may come here.
    #[error("a frame of length {length} that may not come here")]
    BadFrame { length: u32 },
    /// A call of the link failed.
    #[error("the link failed")]
    LinkFault,
    #[error("out of memory")]
    Memory,
}
