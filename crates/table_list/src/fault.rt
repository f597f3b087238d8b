//! Why commands and batches are not applied.
ghost use Rattle.std.specs.Prelude.{◌≡◌};
ghost use Rattle.table_list.specs.declared.fault.ApplyFault.TheVariants.{Memory};
ghost use Rattle.table_list.specs.declared.fault.BatchFault.TheVariants.{Memory as BatchMemory};

use std::alloc::{AllocError, AllocFailed};
use thiserror::Error;
use vo_spec::CommandFault;

/// Why a command is not applied.
#[derive(Clone, Copy, PartialEq, Eq, Debug, Error)]
pub enum ApplyFault {
    #[error("a refused command")]
    Refused(CommandFault),
    #[error("out of memory")]
    Memory,
}

impl From<AllocError> for ApplyFault {
    ghost from_gives = { λ _ e. e ≡ Memory };

    fn from(_e: AllocError) -> ApplyFault {
        ApplyFault::Memory
    }
}

impl<T: Drop> From<AllocFailed<T>> for ApplyFault {
    ghost from_gives = { λ _ e. e ≡ Memory };

    fn from(_e: AllocFailed<T>) -> ApplyFault {
        ApplyFault::Memory
    }
}

/// Why a batch is not applied.
#[derive(Clone, Copy, PartialEq, Eq, Debug, Error)]
pub enum BatchFault {
    /// The number of the first command that is refused, from 0.
    #[error("a refused command")]
    Command { index: u64, fault: CommandFault },
    #[error("out of memory")]
    Memory,
}

impl From<AllocError> for BatchFault {
    ghost from_gives = { λ _ e. e ≡ BatchMemory };

    fn from(_e: AllocError) -> BatchFault {
        BatchFault::Memory
    }
}
