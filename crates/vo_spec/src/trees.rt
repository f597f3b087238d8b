//! What calls on trees answer.
ghost use Rattle.std.specs.Prelude.{◌≡◌};

use crate::collision::Collision;
use std::alloc::AllocError;
use thiserror::Error;

/// Why a scan or a test of a proof has no answer.
#[derive(Clone, Copy, PartialEq, Eq, Debug, Error)]
pub enum ScanFault {
    #[error("something is missing")]
    Missing,
    #[error("out of memory")]
    Memory,
}

impl From<AllocError> for ScanFault {
    ghost use Rattle.vo_spec.specs.declared.trees.ScanFault.TheVariants.{Memory as OutOfMemory};

    ghost from_gives = { λ _ fault. fault ≡ OutOfMemory };

    fn from(_: AllocError) -> ScanFault {
        ScanFault::Memory
    }
}

/// Why a tree isn't changed.
#[derive(Clone, Copy, PartialEq, Eq, Debug, Error)]
pub enum UpdateFault {
    #[error("a row of this key is there")]
    DuplicateKey,
    #[error("no row of this key")]
    NoRow,
    /// The work looks at a node or a row that is a digest, in part trees alone.
    #[error("something is missing")]
    Missing,
    #[error("out of memory")]
    Memory,
}

impl From<AllocError> for UpdateFault {
    ghost use Rattle.vo_spec.specs.declared.trees.UpdateFault.TheVariants.{Memory as OutOfMemory};

    ghost from_gives = { λ _ fault. fault ≡ OutOfMemory };

    fn from(_: AllocError) -> UpdateFault {
        UpdateFault::Memory
    }
}

/// Whether a part tree prunes a whole tree of its digest, or what shows that it doesn't.
#[derive(Drop)]
pub enum Agreement {
    Prunes,
    Collides(Collision),
}

/// Whether two part trees of one digest show the same, or what shows that they don't.
#[derive(Drop)]
pub enum Twins {
    Same,
    Collides(Collision),
}
