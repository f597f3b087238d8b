//! Reading whole journals.
ghost use Rattle.std.specs.Prelude.{List, IfOk, IfErr};
ghost use Rattle.vo_spec.specs.declared.records.Entry.{Entry as Plain};
ghost use Rattle.vo_spec.specs.Journals.{Begins, IsJournal, IsDamaged};
ghost use Rattle.owner_state.specs.Endings.{IsFaultOf, Answers, AnswersDamage};

use crate::lent_entry::LentEntry;
use crate::slot_reading::{Ending, read_slots};
use std::alloc::{AllocError, Global};
use thiserror::Error;
use vo_spec::List;

/// Why bytes are no journal: the slot of this number is damaged, whose gate stands at this place;
/// or memory ran out.
#[derive(Clone, Copy, PartialEq, Eq, Debug, Error)]
pub enum EntriesFault {
    #[error("a damaged journal")]
    Damaged { index: u64, at: u64 },
    #[error("out of memory")]
    Memory,
}

impl From<AllocError> for EntriesFault {
    ghost use Rattle.std.specs.Prelude.{◌≡◌};
    ghost use Rattle.owner_state.specs.declared.journal_reading.EntriesFault.TheVariants.{Memory};

    ghost from_gives = { λ _ fault. fault ≡ Memory };

    fn from(_error: AllocError) -> EntriesFault {
        EntriesFault::Memory
    }
}

/// The entries of a journal.
pub fn read_entries(alloc: Global, bytes: &[u8]) -> Result<List<LentEntry<'_>>, EntriesFault>
    // What is read is a journal, and what is refused is damaged just there.
    ensures found { IfOk result (λ entries. IsJournal bytes.now entries) }
    ensures begins { IfOk result (λ entries. Begins bytes.now entries) }
    ensures damaged { IfErr result (λ fault. IsFaultOf bytes.now fault) }

    // A journal is read, and damage is found, unless memory runs out.
    ensures only { (es : List Plain) → IsJournal bytes.now es → Answers result es }
    ensures only_damaged { (es : List Plain) → IsDamaged bytes.now es → AnswersDamage result es }
{
    let slots = read_slots(alloc, bytes)?;
    if let Ending::Damaged { at } = slots.ending {
        let index = slots.entries.len() as u64;
        return Err(EntriesFault::Damaged { index, at });
    }
    Ok(slots.entries)
}
