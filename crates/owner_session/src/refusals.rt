//! Why an owner takes no step, or an entry isn't appended.
ghost use Rattle.std.specs.Prelude.{◌≡◌};

use crate::stop::SessionStatus;
use thiserror::Error;

/// What is refused.
#[derive(Clone, Copy, Debug, PartialEq, Eq)]
pub enum RefusalCause {
    /// The store's proofs.
    Proofs,
    /// A command of the batch, or one version more: the key may be spent.
    Command,
}

impl RefusalCause {
    ghost use Rattle.owner_session.specs.Endings.{code_of, status_of};

    /// The exit status.
    pub(crate) fn status(self) -> SessionStatus
        ensures { code_of result ≡ status_of self }
    {
        match self {
            RefusalCause::Proofs => SessionStatus::Refused,
            RefusalCause::Command => SessionStatus::RefusedCommand,
        }
    }
}

/// An owner's refusal, with the lines that say it.
#[derive(Debug, Drop)]
pub struct Refusal {
    pub cause: RefusalCause,
    pub lines: Vec<u8>,
}

/// Why an owner makes no entry of a batch.
#[derive(Debug, Drop, Error)]
pub enum NoStep {
    #[error("the owner refuses")]
    Refused(Refusal),
    #[error("out of memory")]
    Memory,
}

/// Why an entry isn't appended.
#[derive(Clone, Copy, Debug, PartialEq, Eq, Error)]
pub enum NoAppend {
    /// The disk failed, which may hold the entry or not.
    #[error("the disk failed")]
    Disk,
    #[error("out of memory")]
    Memory,
}
