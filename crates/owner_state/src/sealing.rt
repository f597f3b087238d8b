//! Sealing: the journal of an owner's batches.
ghost use Rattle.std.specs.Prelude.{◌≡◌, ◌≢◌, [], ◌∷◌, IfOk, IfErr, None, Some, flat_map};
ghost use Rattle.vo_spec.specs.Secret.{public_of_secret, secret_leaves};
ghost use Rattle.vo_spec.specs.Journals.{journal_bytes, slot};
ghost use Rattle.vo_spec.specs.Honest.{seal_batches};
ghost use Rattle.vo_spec.specs.Owners.{IsLoadable};
ghost use Rattle.vo_laws.specs.Sealing.{SignsValidly};
ghost use Rattle.owner_roots.specs.Owners.{IsOwned};
ghost use Rattle.owner_state.specs.EntriesOnTrees.{entry_on};
ghost use Rattle.owner_state.specs.SealResults.{IsAt};
ghost use Rattle.owner_state.specs.Sealing.{commands_of, seal_fault, FitEach};

use crate::journal_writing::put_slot;
use crate::next_version::{Sealed, seal_next};
use crate::owner::Owner;
use lms_sign::SecretKey;
use std::alloc::{AllocError, Global};
use stored_tables::StoredTables;
use thiserror::Error;
use vo_spec::{Batch, CommandFault, List};

/// Why batches are not sealed.
#[derive(Clone, Copy, Debug, PartialEq, Eq, Error)]
pub enum SealFault {
    /// The key has no leaf left for another version.
    #[error("a spent key")]
    KeySpent,
    /// The command of this number in its batch is refused.
    #[error("a refused command")]
    Command { index: u64, fault: CommandFault },
    #[error("out of memory")]
    Memory,
}

impl From<AllocError> for SealFault {
    ghost use Rattle.std.specs.Prelude.{◌≡◌};
    ghost use Rattle.owner_state.specs.declared.sealing.SealFault.TheVariants.{Memory};

    ghost from_gives = { λ _ fault. fault ≡ Memory };

    fn from(_error: AllocError) -> SealFault {
        SealFault::Memory
    }
}

/// The journal of these batches, a version for each, behind version 0, which has no commands: a
/// journal of the key's owner, and one that a store of the key takes.
pub fn seal(alloc: Global, key: &SecretKey, batches: List<Batch>) -> Result<Vec<u8>, SealFault>
    requires { FitEach batches }
    ensures journal { IfOk result (λ journal. journal.items
        ≡ journal_bytes (seal_batches key.now (commands_of batches))) }
    ensures owned { IfOk result (λ journal.
        IsOwned (public_of_secret key.now) journal.items
        (seal_batches key.now (commands_of batches))) }
    ensures loaded { IfOk result (λ journal.
        IsLoadable (public_of_secret key.now) journal.items
        (seal_batches key.now (commands_of batches))) }
    ensures sealed { IfOk result (λ _.
        seal_fault (secret_leaves key.now) ([] ∷ []) (commands_of batches) ≡ None) }
    ensures fault { IfErr result (λ fault. fault ≢ SealFault.Memory
        → seal_fault (secret_leaves key.now) ([] ∷ []) (commands_of batches) ≡ Some fault) }
{
    let mut journal = seal_each(alloc, key, batches.as_slice())?;
    journal.extend_from_slice(&[0])?;
    Ok(journal)
}

fn seal_each(alloc: Global, key: &SecretKey, batches: &[Batch]) -> Result<Vec<u8>, SealFault>
    requires { FitEach batches.now }
    ensures signs { IfOk result (λ _. SignsValidly key.now) }
    ensures slots { IfOk result (λ slots. slots.items
        ≡ flat_map slot (seal_batches key.now (commands_of batches.now))) }
    ensures sealed { IfOk result (λ _.
        seal_fault (secret_leaves key.now) ([] ∷ []) (commands_of batches.now) ≡ None) }
    ensures fault { IfErr result (λ fault. fault ≢ SealFault.Memory
        → seal_fault (secret_leaves key.now) ([] ∷ []) (commands_of batches.now) ≡ Some fault) }
{
    let mut sealed = seal_first(alloc, key)?;
    for batch in batches {
        match seal_next(alloc, sealed, batch) {
            Ok(next) => sealed = next,
            Err(fault) => return Err(fault),
        }
    }
    Ok(sealed.slots)
}

/// Version 0, as the owner starts.
fn seal_first(alloc: Global, key: &SecretKey) -> Result<Sealed, SealFault>
    ensures signs { IfOk result (λ _. SignsValidly key.now) }
    ensures at { IfOk result (λ first. IsAt key.now 0 first) }
    ensures tables { IfOk result (λ first. first.tables ≡ []) }
    ensures slots { IfOk result (λ first. first.slots.items ≡ slot (entry_on key.now 0 [] [])) }
    ensures fault { IfErr result (λ fault. fault ≡ SealFault.Memory) }
{
    let (owner, entry) = Owner::start(alloc, key)?;
    let mut slots = Vec::new(alloc);
    put_slot(alloc, &mut slots, &entry)?;
    Ok(Sealed {
        owner,
        tables: StoredTables::new(alloc),
        slots,
    })
}
