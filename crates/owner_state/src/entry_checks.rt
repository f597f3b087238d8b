//! Whether an entry may stand behind trees.
ghost use Rattle.std.specs.Prelude.{IfOk, IsOk};
ghost use Rattle.vo_spec.specs.Batches.{FitsBatch};
ghost use Rattle.vo_spec.specs.Honest.{after_work, work_all};
ghost use Rattle.owner_state.specs.EntriesOnTrees.{IsRecorded, IsLoadableOn};
ghost use Rattle.owner_state.specs.Walking.{GivesTreesIf};

use crate::lent_entry::LentEntry;
use crate::recording::is_recorded;
use lms_sign::PublicKey;
use std::alloc::{AllocError, Global};
use stored_tables::{BatchFault, StoredTables};
use vo_spec::Batch;

/// The tables behind an entry of no matter which batch, if its record is that of these tables as
/// this version.
pub(crate) fn check_record(
    key: &PublicKey,
    version: u64,
    tables: StoredTables,
    entry: &LentEntry<'_>,
) -> Option<StoredTables>
    ensures { GivesTreesIf (IsRecorded key.now version tables entry.now) tables result }
{
    if is_recorded(key, version, &tables, entry) {
        Some(tables)
    } else {
        None
    }
}

/// The tables behind an entry that a store takes as this version.
pub(crate) fn check_store_entry(
    alloc: Global,
    key: &PublicKey,
    version: u64,
    tables: StoredTables,
    entry: &LentEntry<'_>,
) -> Result<Option<StoredTables>, AllocError>
    requires { FitsBatch entry.now.batch.commands }
    ensures { IfOk result (λ after.
        GivesTreesIf (IsLoadableOn key.now version tables entry.now)
        (after_work tables entry.now.batch.commands) after) }
{
    match tables_behind(alloc, tables, entry.batch())? {
        Some(after) => Ok(check_record(key, version, after, entry)),
        None => Ok(None),
    }
}

/// The tables behind a batch, if it is accepted.
fn tables_behind(
    alloc: Global,
    mut tables: StoredTables,
    batch: &Batch,
) -> Result<Option<StoredTables>, AllocError>
    requires { FitsBatch batch.now.commands }
    ensures { IfOk result (λ after.
        GivesTreesIf (IsOk (work_all batch.now.commands tables))
        (after_work tables batch.now.commands) after) }
{
    match tables.apply_batch(alloc, batch) {
        Ok(()) => Ok(Some(tables)),
        Err(BatchFault::Command { .. }) => Ok(None),
        Err(BatchFault::Memory) => Err(AllocError),
    }
}
