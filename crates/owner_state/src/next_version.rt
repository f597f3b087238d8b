//! Sealing one version.
ghost use Rattle.std.specs.Prelude.{ℕ, ◌≡◌, ◌+◌, ◌<◌, ◌≤◌, IfOk, OnOk, length};
ghost use Rattle.std.specs.Result.{result_map_both};
ghost use Rattle.vo_spec.specs.declared.tables.Command.{Command as Plain};
ghost use Rattle.vo_spec.specs.Batches.{FitsBatch};
ghost use Rattle.vo_spec.specs.Journals.{FitsEntry, max_proofs};
ghost use Rattle.vo_spec.specs.Secret.{Secret, secret_leaves};
ghost use Rattle.vo_spec.specs.Replies.{FitsProofs};
ghost use Rattle.vo_spec.specs.Honest.{honest_proofs};
ghost use Rattle.stored_tables.specs.Representation.{IsStanding};
ghost use Rattle.owner_roots.specs.Owners.{honest_roots};
ghost use Rattle.owner_state.specs.Stepping.{signed_entry};
ghost use Rattle.owner_state.specs.SealResults.{IsAt, Seals};

use crate::batch_working::apply_with_proofs;
use crate::copies::copy_batch;
use crate::entry_signing::sign_entry;
use crate::journal_writing::put_slot;
use crate::owner::Owner;
use crate::sealing::SealFault;
use owner_roots::Roots;
use std::alloc::{AllocError, Global};
use std::mem;
use stored_tables::{BatchFault, StoredTables};
use vo_spec::{Batch, Entry};

/// The slots of versions, the owner that wrote them, and the tables behind the last of them.
#[derive(Drop)]
pub(crate) struct Sealed {
    pub owner: Owner,
    pub tables: StoredTables,
    pub slots: Vec<u8>,
}

/// The versions with another one, of the batch: what the owner makes of it on its tables.
pub(crate) fn seal_next(alloc: Global, before: Sealed, batch: &Batch) -> Result<Sealed, SealFault>
    requires owner { IsAt before.owner.key before.owner.roots.version before }
    requires standing { IsStanding before.tables }
    requires fits { FitsBatch batch.now.commands }
    requires proofs { FitsProofs (honest_proofs batch.now.commands before.tables) }
    ensures { Seals before.owner.key (before.owner.roots.version + 1) before batch.now.commands
        result }
{
    let mut sealed = before;
    match seal_version(alloc, &mut sealed, batch) {
        Ok(()) => Ok(sealed),
        Err(fault) => Err(fault),
    }
}

/// The entry of a batch with these proofs, the tables being those behind it. The owner stands at
/// their roots from then on: it has the trees, so it follows no proofs.
fn sign_tables(
    alloc: Global,
    owner: &mut Owner,
    tables: &StoredTables,
    batch: &Batch,
    proofs: Vec<u8>,
) -> Result<Entry, AllocError>
    requires leaf { owner.old.roots.version + 1 < secret_leaves owner.old.key }
    requires few { owner.old.roots.version + 1 < 1048576 }
    requires batch { FitsBatch batch.now.commands }
    requires proofs { length proofs.items ≤ max_proofs }
    ensures entry { IfOk result (λ entry. entry ≡ signed_entry owner.old.key
        (honest_roots (owner.old.roots.version + 1) tables.now) batch.now.commands proofs.items) }
    ensures fits { IfOk result (λ entry. FitsEntry entry) }
    ensures key { owner.new.key ≡ owner.old.key }
    ensures roots { OnOk result (owner.new.roots
        ≡ honest_roots (owner.old.roots.version + 1) tables.now) }
{
    let roots = Roots {
        version: owner.roots.version + 1,
        catalog: tables.catalog(alloc)?,
    };
    let batch = copy_batch(alloc, batch)?;
    let entry = sign_entry(alloc, &owner.key, &roots, batch, proofs)?;
    owner.roots = roots;
    Ok(entry)
}

/// Puts another version behind the others, of the batch. They are lent, so that a fault lets go of
/// none of them here; after one they are good for nothing more.
fn seal_version(alloc: Global, sealed: &mut Sealed, batch: &Batch) -> Result<(), SealFault>
    requires owner { IsAt sealed.old.owner.key sealed.old.owner.roots.version sealed.old }
    requires standing { IsStanding sealed.old.tables }
    requires fits { FitsBatch batch.now.commands }
    requires proofs { FitsProofs (honest_proofs batch.now.commands sealed.old.tables) }
    ensures { Seals sealed.old.owner.key (sealed.old.owner.roots.version + 1) sealed.old
        batch.now.commands (result_map_both (λ done. sealed.new) (λ why. why) result) }
{
    if sealed.owner.is_spent() {
        return Err(SealFault::KeySpent);
    }
    sealed.owner.prepare(alloc)?;
    let mut proofs = Vec::new(alloc);
    let tables = mem::replace(&mut sealed.tables, StoredTables::new(alloc));
    sealed.tables = match apply_with_proofs(alloc, tables, batch.commands.as_slice(), &mut proofs) {
        Ok(after) => after,
        Err(BatchFault::Command { index, fault }) => {
            return Err(SealFault::Command { index, fault });
        }
        Err(BatchFault::Memory) => return Err(SealFault::Memory),
    };
    let entry = sign_tables(alloc, &mut sealed.owner, &sealed.tables, batch, proofs)?;
    put_slot(alloc, &mut sealed.slots, &entry)?;
    Ok(())
}
