//! The honest trees beside an owner's roots, and where the roots depart from them.
ghost use Rattle.std.specs.Prelude.{◌≡◌, ◌↔◌, IfOk, IsTrue, OnOk};
ghost use Rattle.vo_spec.specs.Batches.{FitsBatch};
ghost use Rattle.vo_spec.specs.Records.{FitsCatalog};
ghost use Rattle.vo_spec.specs.Honest.{after_work, catalog_of};
ghost use Rattle.owner_state.specs.NextDeparture.{DepartsNext};

use std::alloc::{AllocError, Global};
use std::mem;
use stored_tables::{BatchFault, StoredTables};
use version_record::catalog_bytes;
use vo_spec::{Batch, Catalog};

/// The least entry behind which the owner's roots have another catalog than the honest trees.
#[derive(Drop)]
pub struct Departure {
    pub index: u64,
    /// The honest trees before the entry's batch.
    pub tables: StoredTables,
}

/// The honest trees behind some entries, and whether the roots have departed from them by then.
#[derive(Drop)]
pub(crate) struct HonestTrees {
    pub(crate) tables: StoredTables,
    pub(crate) departure: Option<Departure>,
}

/// The tables after a batch; one that is refused leaves them.
fn tables_after_batch(
    alloc: Global,
    tables: &StoredTables,
    batch: &Batch,
) -> Result<StoredTables, AllocError>
    requires { FitsBatch batch.now.commands }
    ensures { IfOk result (λ after. after ≡ after_work tables.now batch.now.commands) }
{
    let mut after = tables.share(alloc)?;
    match after.apply_batch(alloc, batch) {
        Ok(()) => Ok(after),
        Err(BatchFault::Command { .. }) => Ok(after),
        Err(BatchFault::Memory) => Err(AllocError),
    }
}

fn has_catalog(alloc: Global, tables: &StoredTables, catalog: &Catalog) -> Result<bool, AllocError>
    requires { FitsCatalog catalog.now }
    ensures { IfOk result (λ has. IsTrue has ↔ (catalog.now ≡ catalog_of tables.now)) }
{
    let honest = tables.catalog(alloc)?;
    let honest = catalog_bytes(alloc, &honest)?;
    let bytes = catalog_bytes(alloc, catalog)?;
    Ok(bytes.as_slice() == honest.as_slice())
}

/// Goes on to the honest trees behind one entry more, of this number and with this batch, whose
/// roots have this catalog.
pub(crate) fn follow_batch(
    alloc: Global,
    honest: &mut HonestTrees,
    index: u64,
    batch: &Batch,
    catalog: &Catalog,
) -> Result<(), AllocError>
    requires batch { FitsBatch batch.now.commands }
    requires catalog { FitsCatalog catalog.now }
    ensures tables { OnOk result (honest.new.tables
        ≡ after_work honest.old.tables batch.now.commands) }
    ensures departure { OnOk result (DepartsNext honest.old.departure index honest.old.tables
        catalog.now honest.new.tables honest.new.departure) }
{
    let after = tables_after_batch(alloc, &honest.tables, batch)?;
    if honest.departure.is_some() || has_catalog(alloc, &after, catalog)? {
        honest.tables = after;
        return Ok(());
    }
    let tables = mem::replace(&mut honest.tables, after);
    honest.departure = Some(Departure { index, tables });
    Ok(())
}
