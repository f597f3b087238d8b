//! What an owner makes of a batch.
ghost use Rattle.std.specs.Prelude.{◌≡◌, ◌⊎◌, ◌<◌, ◌≤◌, Err, IfOk, length};
ghost use Rattle.vo_spec.specs.Batches.{FitsBatch};
ghost use Rattle.vo_spec.specs.Journals.{FitsEntry, max_proofs};
ghost use Rattle.vo_spec.specs.Records.{FitsCatalog};
ghost use Rattle.vo_spec.specs.Secret.{public_of_secret, secret_leaves};
ghost use Rattle.owner_roots.specs.Owners.{IsNextEntry, IsSignedFor};
ghost use Rattle.owner_state.specs.Stepping.{StepOf, signed_entry};

use crate::copies::copy_batch;
use crate::entry_signing::sign_entry;
use crate::owner::Owner;
use lms_sign::SecretKey;
use owner_roots::{OwnerFault, Roots};
use std::alloc::{AllocError, Global};
use vo_spec::{Batch, Entry};

/// An entry that leads an owner on, and the roots behind it. The owner stays where it is until it
/// takes the step.
#[derive(Debug, Drop)]
pub struct Step {
    pub entry: Entry,
    pub roots: Roots,
}

/// The entry of copies of a batch and its proofs, the roots being those behind it.
fn sign_copy(
    alloc: Global,
    key: &SecretKey,
    roots: &Roots,
    batch: &Batch,
    proofs: &[u8],
) -> Result<Entry, AllocError>
    requires leaf { roots.now.version < secret_leaves key.now }
    requires catalog { FitsCatalog roots.now.catalog }
    requires batch { FitsBatch batch.now.commands }
    requires proofs { length proofs.now ≤ max_proofs }
    ensures value { IfOk result (λ entry. entry
        ≡ signed_entry key.now roots.now batch.now.commands proofs.now) }
    ensures signed { IfOk result (λ entry.
        IsSignedFor (public_of_secret key.now) roots.now entry) }
    ensures fits { IfOk result (λ entry. FitsEntry entry) }
{
    let batch = copy_batch(alloc, batch)?;
    let proofs = Vec::from_slice(alloc, proofs)?;
    sign_entry(alloc, key, roots, batch, proofs)
}

impl Owner {
    /// The entry of a batch by the bytes of its proofs, which may be any: they are checked, and
    /// never trusted.
    pub fn step(&self, alloc: Global, batch: &Batch, proofs: &[u8]) -> Result<Step, OwnerFault>
        requires { FitsBatch batch.now.commands }
        ensures answer { (result ≡ Err OwnerFault.Memory)
            ⊎ StepOf self.now.key self.now.roots batch.now.commands proofs.now result }
        ensures next { IfOk result (λ step. IsNextEntry (public_of_secret self.now.key)
            self.now.roots step.entry step.roots) }
        ensures catalog { IfOk result (λ step. FitsCatalog step.roots.catalog) }
        ensures fits { IfOk result (λ step. FitsEntry step.entry) }
        ensures few { IfOk result (λ step. step.roots.version < 1048576) }
    {
        if self.is_spent() {
            return Err(OwnerFault::KeySpent);
        }
        let roots = match self.roots.next(alloc, batch, proofs) {
            Ok(roots) => roots,
            Err(fault) => return Err(fault),
        };
        let entry = sign_copy(alloc, &self.key, &roots, batch, proofs)?;
        Ok(Step { entry, roots })
    }
}
