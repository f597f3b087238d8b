//! What came where the body of an answer was to be gathered.
use crate::frame_kind::FrameKind;

#[derive(Clone, Copy, Debug, PartialEq, Eq)]
pub enum Received {
    /// A frame of this kind. Its body was gathered.
    Body { kind: FrameKind },
    /// A refusal with this code. Nothing was gathered.
    Refusal { code: u8 },
}
