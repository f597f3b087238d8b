//! Walks over entries, one after the other: whose they are, and the tables that they lead to.
ghost use Rattle.std.specs.Prelude.{◌≡◌, ◌++◌, ◌∷◌, ◌<◌, ℕ, [], Err, IfOk, IfSome, IsSome, OnOk, None, Some, drop, length};
ghost use Rattle.std.specs.List.{AllByRecursion};
ghost use Rattle.vo_spec.specs.Journals.{FitsEntry, batches_of};
ghost use Rattle.vo_spec.specs.Honest.{honest_trees};
ghost use Rattle.vo_spec.specs.Owners.{AreLoadable};
ghost use Rattle.owner_roots.specs.Owners.{AreOwned};
ghost use Rattle.owner_state.specs.Departing.{Departs, trees_at};
ghost use Rattle.owner_state.specs.Walking.{GivesTreesIf, StopsAt};

use crate::departures::{Departure, HonestTrees, follow_batch};
use crate::entry_checks::{check_record, check_store_entry};
use crate::journals::JournalReadFault;
use crate::leading::roots_behind;
use crate::lent_entry::LentEntry;
use lms_sign::PublicKey;
use owner_roots::Roots;
use std::alloc::{AllocError, Global};
use stored_tables::StoredTables;

/// The tables behind the entry of this number, if it is there, as far as a store takes the entries.
pub(crate) fn walk_loadable(
    alloc: Global,
    key: &PublicKey,
    entries: &[LentEntry<'_>],
    version: u64,
) -> Result<Option<StoredTables>, JournalReadFault>
    requires { AllByRecursion FitsEntry entries.now }
    ensures taken { IfOk result (λ _. AreLoadable key.now entries.now) }
    ensures tables { IfOk result (λ kept.
        IfSome kept (λ tables. tables ≡ trees_at version entries.now)) }
    ensures there { IfOk result (λ kept. version < length entries.now → IsSome kept) }
    ensures only { IfOk result (λ kept. IsSome kept → version < length entries.now) }
    ensures bad { (index : ℕ) → result ≡ Err (JournalReadFault.BadAt index)
        → StopsAt (AreLoadable key.now) entries.now index }
{
    let mut tables = StoredTables::new(alloc);
    let mut kept = None;
    for (index, entry) in entries.iter().enumerate() {
        match check_next_of_store(alloc, key, &entries[..index], tables, entry)? {
            Some(after) => tables = after,
            None => {
                let index = index as u64;
                return Err(JournalReadFault::BadAt { index });
            }
        }
        keep_tables(alloc, &mut kept, &tables, index as u64, version)?;
    }
    Ok(kept)
}

/// The tables behind an entry, if a store takes it behind those before.
pub fn check_next_of_store(
    alloc: Global,
    key: &PublicKey,
    earlier: &[LentEntry<'_>],
    tables: StoredTables,
    entry: &LentEntry<'_>,
) -> Result<Option<StoredTables>, AllocError>
    requires earlier_fit { AllByRecursion FitsEntry earlier.now }
    requires fits { FitsEntry entry.now }
    requires taken { AreLoadable key.now earlier.now }
    requires tables { tables ≡ honest_trees (batches_of (drop 1 earlier.now)) }
    ensures { IfOk result (λ after.
        GivesTreesIf (AreLoadable key.now (earlier.now ++ entry.now ∷ []))
        (honest_trees (batches_of (drop 1 (earlier.now ++ entry.now ∷ [])))) after) }
{
    if earlier.is_empty() {
        Ok(check_record(key, 0, tables, entry))
    } else {
        check_store_entry(alloc, key, earlier.len() as u64, tables, entry)
    }
}

/// What a walk over an owner's entries finds beside the roots: the honest tables at a version, if
/// the entries reach it, and where the roots depart from such tables.
#[derive(Drop)]
pub(crate) struct Walked {
    pub tables: Option<StoredTables>,
    pub departure: Option<Departure>,
}

/// Where a walk over an owner's entries has come to: the roots, the honest trees beside them, and
/// those of the version that was asked for, once it has come there.
#[derive(Drop)]
struct Walk {
    roots: Option<Roots>,
    honest: HonestTrees,
    kept: Option<StoredTables>,
}

/// Keeps the tables if they are those of the version that was asked for.
fn keep_tables(
    alloc: Global,
    kept: &mut Option<StoredTables>,
    tables: &StoredTables,
    index: u64,
    version: u64,
) -> Result<(), AllocError>
    ensures there { index ≡ version → OnOk result (kept.new ≡ Some tables.now) }
    ensures other { (index ≡ version → ⊥) → kept.new ≡ kept.old }
{
    if index == version {
        *kept = Some(tables.share(alloc)?);
    }
    Ok(())
}

/// Walks over all entries, from their begin on. The walk is lent, so that a fault lets go of none
/// of it here.
fn walk_each(
    alloc: Global,
    key: &PublicKey,
    entries: &[LentEntry<'_>],
    version: u64,
    walk: &mut Walk,
) -> Result<(), JournalReadFault>
    requires fits { AllByRecursion FitsEntry entries.now }
    requires roots { walk.old.roots ≡ None }
    requires tables { walk.old.honest.tables ≡ [] }
    requires departure { walk.old.honest.departure ≡ None }
    requires kept { walk.old.kept ≡ None }
    ensures owned { OnOk result (AreOwned key.now entries.now) }
    ensures tables { OnOk result (IfSome walk.new.kept (λ tables.
        tables ≡ trees_at version entries.now)) }
    ensures there { OnOk result (version < length entries.now → IsSome walk.new.kept) }
    ensures only { OnOk result (IsSome walk.new.kept → version < length entries.now) }
    ensures departure { OnOk result (Departs key.now entries.now walk.new.honest.departure) }
    ensures bad { (index : ℕ) → result ≡ Err (JournalReadFault.BadAt index)
        → StopsAt (AreOwned key.now) entries.now index }
{
    for (index, entry) in entries.iter().enumerate() {
        let index = index as u64;
        match roots_behind(alloc, key, &walk.roots, entry)? {
            Some(after) => {
                follow_batch(
                    alloc,
                    &mut walk.honest,
                    index,
                    entry.batch(),
                    &after.catalog,
                )?;
                walk.roots = Some(after);
            }
            None => return Err(JournalReadFault::BadAt { index }),
        }
        keep_tables(alloc, &mut walk.kept, &walk.honest.tables, index, version)?;
    }
    Ok(())
}

/// Walks over an owner's entries by roots, with the honest tables beside.
pub(crate) fn walk_owned(
    alloc: Global,
    key: &PublicKey,
    entries: &[LentEntry<'_>],
    version: u64,
) -> Result<Walked, JournalReadFault>
    requires { AllByRecursion FitsEntry entries.now }
    ensures owned { IfOk result (λ _. AreOwned key.now entries.now) }
    ensures tables { IfOk result (λ walked.
        IfSome walked.tables (λ tables. tables ≡ trees_at version entries.now)) }
    ensures there { IfOk result (λ walked. version < length entries.now → IsSome walked.tables) }
    ensures only { IfOk result (λ walked. IsSome walked.tables → version < length entries.now) }
    ensures departure { IfOk result (λ walked.
        Departs key.now entries.now walked.departure) }
    ensures bad { (index : ℕ) → result ≡ Err (JournalReadFault.BadAt index)
        → StopsAt (AreOwned key.now) entries.now index }
{
    let mut walk = Walk {
        roots: None,
        honest: HonestTrees {
            tables: StoredTables::new(alloc),
            departure: None,
        },
        kept: None,
    };
    match walk_each(alloc, key, entries, version, &mut walk) {
        Ok(()) => {
            let honest = walk.honest;
            Ok(Walked {
                tables: walk.kept,
                departure: honest.departure,
            })
        }
        Err(fault) => Err(fault),
    }
}
