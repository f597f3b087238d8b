//! Why a session goes no further.
ghost use Rattle.std.specs.Prelude.{◌≡◌, ◌≢◌};

/// The exit statuses of what is refused.
#[derive(Clone, Copy, Debug, PartialEq, Eq)]
pub enum SessionStatus {
    /// The store refuses, stands elsewhere, or its proofs are refused.
    Refused,
    /// A command is refused, or the key is spent.
    RefusedCommand,
    /// An answer is no frame that may come.
    BadAnswer,
}

impl SessionStatus {
    ghost use Rattle.owner_session.specs.Endings.{code_of};

    pub fn code(self) -> u8
        ensures value { result ≡ code_of self }
        ensures own { result ≢ 3 }
    {
        match self {
            SessionStatus::Refused => 1,
            SessionStatus::RefusedCommand => 8,
            SessionStatus::BadAnswer => 9,
        }
    }
}

/// An exit status, and the lines that come with it.
#[derive(Debug, Drop)]
pub struct SessionReport {
    pub status: SessionStatus,
    pub bytes: Vec<u8>,
}

#[derive(Debug, Drop)]
pub enum SessionStop {
    /// It is at its end, which is none that it wants.
    Refused(SessionReport),
    LinkFault,
    /// The disk failed in an append.
    DiskFault,
    OutputFault,
    Memory,
}
