//! Whether an entry leads an owner's journal on, and to which roots.
ghost use Rattle.std.specs.Prelude.{◌≡◌, None, Some, IfOk};
ghost use Rattle.vo_spec.specs.Journals.{FitsEntry};
ghost use Rattle.vo_spec.specs.Records.{FitsCatalog};
ghost use Rattle.owner_state.specs.Owning.{FitBehind, Leads};

use crate::lent_entry::LentEntry;
use crate::owner_faults::is_want_of_memory;
use crate::recording::is_signed_for;
use crate::version_zero::{first_roots, no_proofs};
use lms_sign::PublicKey;
use owner_roots::Roots;
use std::alloc::{AllocError, Global};

/// The roots behind an entry that begins a journal, if it is one of an owner of the key.
fn roots_behind_first(
    alloc: Global,
    key: &PublicKey,
    entry: &LentEntry<'_>,
) -> Result<Option<Roots>, AllocError>
    ensures { IfOk result (λ after. Leads key.now None entry.now after) }
{
    if !entry.batch().commands.is_empty() {
        return Ok(None);
    }
    if entry.proofs() != no_proofs(alloc)?.as_slice() {
        return Ok(None);
    }
    let roots = first_roots(alloc);
    if is_signed_for(key, &roots, entry) {
        Ok(Some(roots))
    } else {
        Ok(None)
    }
}

/// The roots behind an entry that stands behind these roots, if the owner has written it there.
fn roots_behind_next(
    alloc: Global,
    key: &PublicKey,
    before: &Roots,
    entry: &LentEntry<'_>,
) -> Result<Option<Roots>, AllocError>
    requires before { FitsCatalog before.now.catalog }
    requires fits { FitsEntry entry.now }
    ensures { IfOk result (λ after. Leads key.now (Some before.now) entry.now after) }
{
    // no version follows the last that a record can have
    if before.version == u64::MAX {
        return Ok(None);
    }
    match before.next(alloc, entry.batch(), entry.proofs()) {
        Ok(after) => {
            if is_signed_for(key, &after, entry) {
                Ok(Some(after))
            } else {
                Ok(None)
            }
        }
        Err(fault) => {
            if is_want_of_memory(&fault) {
                return Err(AllocError);
            }
            Ok(None)
        }
    }
}

/// The roots behind an entry, if the owner has written it behind those before, or as the first.
pub(crate) fn roots_behind(
    alloc: Global,
    key: &PublicKey,
    before: &Option<Roots>,
    entry: &LentEntry<'_>,
) -> Result<Option<Roots>, AllocError>
    requires before { FitBehind before.now }
    requires fits { FitsEntry entry.now }
    ensures { IfOk result (λ after. Leads key.now before.now entry.now after) }
{
    match before {
        None => roots_behind_first(alloc, key, entry),
        Some(roots) => roots_behind_next(alloc, key, roots, entry),
    }
}
