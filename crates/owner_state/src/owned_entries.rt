//! How many of a journal's first entries are an owner's.
ghost use Rattle.std.specs.Prelude.{◌≡◌, ◌+◌, ◌<◌, ◌≤◌, IfOk, length, take};
ghost use Rattle.std.specs.List.{AllByRecursion};
ghost use Rattle.vo_spec.specs.Journals.{FitsEntry};
ghost use Rattle.owner_roots.specs.Owners.{AreOwned};

use crate::leading::roots_behind;
use crate::lent_entry::LentEntry;
use lms_sign::PublicKey;
use std::alloc::{AllocError, Global};

/// How many of the first entries an owner of the key has written, one behind the other from version
/// 0 on.
pub fn owned(alloc: Global, key: &PublicKey, entries: &[LentEntry<'_>]) -> Result<usize, AllocError>
    requires { AllByRecursion FitsEntry entries.now }
    ensures within { IfOk result (λ count. count ≤ length entries.now) }
    ensures owned { IfOk result (λ count. AreOwned key.now (take count entries.now)) }
    ensures most { IfOk result (λ count. count < length entries.now
        → AreOwned key.now (take (count + 1) entries.now) → ⊥) }
{
    let mut roots = None;
    for (index, entry) in entries.iter().enumerate() {
        match roots_behind(alloc, key, &roots, entry)? {
            Some(after) => roots = Some(after),
            None => return Ok(index),
        }
    }
    Ok(entries.len())
}
