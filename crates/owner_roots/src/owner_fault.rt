//! Why an owner refuses a batch and its proofs.
ghost use Rattle.std.specs.Prelude.{◌≡◌};
ghost use Rattle.owner_roots.specs.declared.owner_fault.OwnerFault.TheVariants.{Memory};

use std::alloc::{AllocError, AllocFailed};
use thiserror::Error;
use vo_spec::{CommandFault, Digest};

/// Why an owner refuses a batch and its proofs. An index is the number of a command of the batch,
/// from 0.
#[derive(Clone, Copy, PartialEq, Eq, Debug, Error)]
pub enum OwnerFault {
    #[error("a refused command")]
    Command {
        index: u64,
        fault: CommandFault,
    },
    /// No proofs, or a tree with keys or rows of another form than its table's.
    #[error("no proofs, or a tree of another form than its table's")]
    ProofForm {
        index: u64,
    },
    /// The tree of another root than the table's.
    #[error("the tree of another root")]
    ProofRoot {
        index: u64,
        want: Digest,
        got: Digest,
    },
    #[error("a proof that lacks something")]
    ProofMissing {
        index: u64,
    },
    /// More is there than the command looks at; of the number behind the last command, a tree too
    /// many.
    #[error("a proof with more than is looked at")]
    ProofSurplus {
        index: u64,
    },
    #[error("no leaf is left to sign with")]
    KeySpent,
    #[error("out of memory")]
    Memory,
}

impl From<AllocError> for OwnerFault {
    ghost from_gives = { λ _ e. e ≡ Memory };

    fn from(_e: AllocError) -> OwnerFault {
        OwnerFault::Memory
    }
}

impl<T: Drop> From<AllocFailed<T>> for OwnerFault {
    ghost from_gives = { λ _ e. e ≡ Memory };

    fn from(_e: AllocFailed<T>) -> OwnerFault {
        OwnerFault::Memory
    }
}
