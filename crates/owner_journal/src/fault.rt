//! Why a journal isn't opened, or an entry not appended.
use std::alloc::AllocError;
use thiserror::Error;

/// The disk failed; the slot of this number, whose gate stands at this place, is damaged; or memory
/// ran out.
#[derive(Clone, Copy, Debug, PartialEq, Eq, Error)]
pub enum JournalFault {
    #[error("the disk failed")]
    Disk,
    #[error("a damaged journal")]
    Damaged { index: u64, at: u64 },
    #[error("out of memory")]
    Memory,
}

impl From<AllocError> for JournalFault {
    ghost use Rattle.std.specs.Prelude.{◌≡◌};
    ghost use Rattle.owner_journal.specs.declared.fault.JournalFault.TheVariants.{Memory};

    ghost from_gives = { λ _ fault. fault ≡ Memory };

    fn from(_error: AllocError) -> JournalFault {
        JournalFault::Memory
    }
}
