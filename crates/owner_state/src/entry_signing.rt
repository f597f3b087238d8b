//! Entries, as their owner signs them.
ghost use Rattle.std.specs.Prelude.{◌≡◌, ◌≤◌, ◌<◌, IfOk, length};
ghost use Rattle.vo_spec.specs.Batches.{FitsBatch};
ghost use Rattle.vo_spec.specs.Records.{FitsCatalog};
ghost use Rattle.vo_spec.specs.Secret.{public_of_secret, secret_leaves};
ghost use Rattle.vo_spec.specs.Journals.{FitsEntry, max_proofs};
ghost use Rattle.owner_roots.specs.Owners.{IsSignedFor};
ghost use Rattle.owner_state.specs.Stepping.{signed_entry};

use crate::recording::record_of_roots;
use lms_sign::{SecretKey, SignFault};
use owner_roots::Roots;
use std::alloc::{AllocError, Global};
use version_record::record_bytes;
use vo_spec::{Batch, Entry, List};

/// The entry of a batch with these proofs, the roots being those behind it.
pub(crate) fn sign_entry(
    alloc: Global,
    key: &SecretKey,
    roots: &Roots,
    batch: Batch,
    proofs: Vec<u8>,
) -> Result<Entry, AllocError>
    requires leaf { roots.now.version < secret_leaves key.now }
    requires catalog { FitsCatalog roots.now.catalog }
    requires batch { FitsBatch batch.commands }
    requires proofs { length proofs.items ≤ max_proofs }
    ensures value { IfOk result (λ entry. entry
        ≡ signed_entry key.now roots.now batch.commands proofs.items) }
    ensures signed { IfOk result (λ entry.
        IsSignedFor (public_of_secret key.now) roots.now entry) }
    ensures fits { IfOk result (λ entry. FitsEntry entry) }
{
    let rec = record_of_roots(&key.public(), roots);
    match key.sign(alloc, roots.version, &record_bytes(&rec)) {
        Ok(signature) => Ok(Entry {
            batch,
            proofs: List::from_vec(proofs),
            rec,
            signature: List::from_vec(signature),
        }),
        Err(SignFault::Leaf) => unreachable!(),
        Err(SignFault::Memory) => Err(AllocError),
    }
}
