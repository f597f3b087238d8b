//! Why a store refuses a call.
ghost use Rattle.std.specs.Prelude.{◌≡◌};
ghost use Rattle.vo_store.specs.declared.fault.StoreFault.TheVariants.{Memory};
ghost use Rattle.vo_store.specs.declared.fault.LoadFault.TheVariants.{Memory as LoadMemory};
ghost use Rattle.vo_store.specs.declared.fault.ReplyFault.TheVariants.{Memory as ReplyMemory};

use std::alloc::AllocError;
use thiserror::Error;
use vo_spec::{CommandFault, List, Record};

/// Why a store refuses a call. It stands where it did before.
#[derive(Debug, Drop, Error)]
pub enum StoreFault {
    /// The command of this number in the batch is refused. The proofs, as bytes, are those up to
    /// this command, its own among them where it has one: by them an owner without tables finds the
    /// refusal too.
    #[error("a refused command")]
    Command {
        index: u64,
        fault: CommandFault,
        proofs: List<u8>,
    },
    /// No version is proposed.
    #[error("nothing is proposed")]
    NothingProposed,
    /// The record isn't that of the version that is proposed.
    #[error("another record")]
    WrongRecord {
        want: Record,
        got: Record,
    },
    /// The signature isn't valid, or not by the leaf of the record's version.
    #[error("a bad signature")]
    BadSignature,
    /// The reply has so many bytes, and that is over the limit.
    #[error("a reply over the limit")]
    TooLarge {
        length: u64,
    },
    /// No version is installed.
    #[error("an empty store")]
    Empty,
    /// The version isn't kept: it is before the oldest that is, or behind the newest.
    #[error("no such version")]
    NoVersion {
        version: u64,
        oldest: u64,
        newest: u64,
    },
    #[error("out of memory")]
    Memory,
}

impl From<AllocError> for StoreFault {
    ghost from_gives = { λ _ fault. fault ≡ Memory };

    fn from(_: AllocError) -> StoreFault {
        StoreFault::Memory
    }
}

/// Why a store doesn't load entries.
#[derive(Clone, Copy, Debug, PartialEq, Eq, Error)]
pub enum LoadFault {
    /// The entry of this number is the first that the store's calls refuse.
    #[error("a refused entry")]
    Entry { index: u64 },
    #[error("out of memory")]
    Memory,
}

impl From<AllocError> for LoadFault {
    ghost from_gives = { λ _ fault. fault ≡ LoadMemory };

    fn from(_: AllocError) -> LoadFault {
        LoadFault::Memory
    }
}

/// Why there is no reply by a journal.
#[derive(Clone, Copy, Debug, PartialEq, Eq, Error)]
pub enum ReplyFault {
    /// The store doesn't take the journal's entry of this number, or it can't be read.
    #[error("a bad journal")]
    BadJournal {
        index: u64,
    },
    /// The reply has so many bytes, and that is over the limit.
    #[error("a reply over the limit")]
    TooLarge {
        length: u64,
    },
    /// The store keeps no such version: it is before the oldest that is kept, or behind the newest.
    #[error("no such version")]
    NoVersion {
        version: u64,
        oldest: u64,
        newest: u64,
    },
    #[error("out of memory")]
    Memory,
}

impl From<AllocError> for ReplyFault {
    ghost from_gives = { λ _ fault. fault ≡ ReplyMemory };

    fn from(_: AllocError) -> ReplyFault {
        ReplyFault::Memory
    }
}
