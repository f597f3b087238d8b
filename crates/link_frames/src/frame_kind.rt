//! What a frame is, by the byte behind its length.
ghost use Rattle.std.specs.Prelude.{◌≡◌};

use crate::limits::MAX_QUERY;
use vo_spec::{MAX_BATCH_BYTES, MAX_PROOFS, MAX_REPLY, MAX_SIGNATURE};

/// A client asks a query, of the newest version or of an older one, and an owner the other three; a
/// store answers by the kinds from `Reply` on.
#[derive(Clone, Copy, Debug, PartialEq, Eq)]
pub enum FrameKind {
    Query,
    Status,
    Propose,
    Install,
    QueryAt,
    Reply,
    Standing,
    Proofs,
    Installed,
    Refusal,
}

impl FrameKind {
    ghost use Rattle.link_frames.specs.Frames.{code_of, kind_of, is_length};

    /// The byte that says this kind.
    pub fn code(self) -> u8
        ensures { result ≡ code_of self }
    {
        match self {
            FrameKind::Query => 0x01,
            FrameKind::Status => 0x02,
            FrameKind::Propose => 0x03,
            FrameKind::Install => 0x04,
            FrameKind::QueryAt => 0x05,
            FrameKind::Reply => 0x81,
            FrameKind::Standing => 0x82,
            FrameKind::Proofs => 0x83,
            FrameKind::Installed => 0x84,
            FrameKind::Refusal => 0x8f,
        }
    }

    /// The kind that a byte says.
    pub fn from_code(code: u8) -> Option<FrameKind>
        ensures { result ≡ kind_of code }
    {
        match code {
            0x01 => Some(FrameKind::Query),
            0x02 => Some(FrameKind::Status),
            0x03 => Some(FrameKind::Propose),
            0x04 => Some(FrameKind::Install),
            0x05 => Some(FrameKind::QueryAt),
            0x81 => Some(FrameKind::Reply),
            0x82 => Some(FrameKind::Standing),
            0x83 => Some(FrameKind::Proofs),
            0x84 => Some(FrameKind::Installed),
            0x8f => Some(FrameKind::Refusal),
            _ => None,
        }
    }

    /// Whether a body of this kind may have so many bytes.
    pub fn is_length(self, length: usize) -> bool
        ensures { result ≡ is_length self length }
    {
        match self {
            FrameKind::Query => 1 <= length && length <= MAX_QUERY,
            FrameKind::Status => length == 0,
            FrameKind::Propose => 2 <= length && length <= MAX_BATCH_BYTES,
            FrameKind::Install => 64 <= length && length <= 64 + MAX_SIGNATURE,
            FrameKind::QueryAt => 9 <= length && length <= 8 + MAX_QUERY,
            FrameKind::Reply => length <= MAX_REPLY,
            FrameKind::Standing => length == 1 || length == 61,
            FrameKind::Proofs => length <= MAX_PROOFS,
            FrameKind::Installed => length == 8,
            FrameKind::Refusal => length == 1,
        }
    }
}
