//! Which frames may come at a point of a connection.
ghost use Rattle.std.specs.Prelude.{◌≡◌, ◌&&◌};

use crate::frame_kind::FrameKind;

/// A store awaits a request; who asked it something awaits the answer to that.
#[derive(Clone, Copy, Debug, PartialEq, Eq)]
pub enum Awaits {
    Request,
    Reply,
    Standing,
    Proofs,
    Installed,
}

impl Awaits {
    ghost use Rattle.link_frames.specs.Frames.{is_length, may_come};

    /// Whether a frame of this kind may come, with a body of this length.
    pub fn allows(self, kind: FrameKind, length: usize) -> bool
        ensures { result ≡ (may_come self kind && is_length kind length) }
    {
        self.allows_kind(kind) && kind.is_length(length)
    }

    fn allows_kind(self, kind: FrameKind) -> bool
        ensures { result ≡ may_come self kind }
    {
        match self {
            Awaits::Request => matches!(
                kind,
                FrameKind::Query
                    | FrameKind::Status
                    | FrameKind::Propose
                    | FrameKind::Install
                    | FrameKind::QueryAt
            ),
            Awaits::Reply => matches!(kind, FrameKind::Reply | FrameKind::Refusal),
            Awaits::Standing => matches!(kind, FrameKind::Standing),
            Awaits::Proofs => matches!(kind, FrameKind::Proofs | FrameKind::Refusal),
            Awaits::Installed => matches!(kind, FrameKind::Installed | FrameKind::Refusal),
        }
    }
}
