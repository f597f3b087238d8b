//! What an owner that holds no tables knows of them.
ghost use Rattle.std.specs.Prelude.{◌≡◌, ◌⊎◌, ◌<◌, ◌^◌, ◌-◌, Err, IfOk};
ghost use Rattle.vo_spec.specs.Batches.{FitsBatch};
ghost use Rattle.vo_spec.specs.Records.{FitsCatalog};
ghost use Rattle.owner_roots.specs.Next.{NextOf};
ghost use Rattle.owner_roots.specs.declared.owner_fault.OwnerFault.TheVariants.{Memory};

use crate::commands::apply_commands;
use crate::copies::copy_tables;
use crate::owner_fault::OwnerFault;
use std::alloc::Global;
use vo_format::{ReadFault, read_proofs};
use vo_spec::{Batch, Catalog, List};

/// A version of tables, and what its catalog says of them: among it the digest of each table's
/// tree.
#[derive(Debug, Drop)]
pub struct Roots {
    pub version: u64,
    pub catalog: Catalog,
}

impl Roots {
    /// The roots after a batch, by the bytes of its proofs, which may be any: a proof is checked
    /// against the root of its table, and what comes after it is computed of the change of its tree
    /// alone.
    pub fn next(&self, alloc: Global, batch: &Batch, proofs: &[u8]) -> Result<Roots, OwnerFault>
        requires version { self.now.version < 2 ^ 64 - 1 }
        requires catalog { FitsCatalog self.now.catalog }
        requires batch { FitsBatch batch.now.commands }
        ensures answer { (result ≡ Err Memory)
            ⊎ NextOf self.now batch.now.commands proofs.now result }
        ensures fits { IfOk result (λ next. FitsCatalog next.catalog) }
    {
        let trees = match read_proofs(alloc, proofs) {
            Ok(trees) => trees,
            Err(ReadFault::BadForm) => return Err(OwnerFault::ProofForm { index: 0 }),
            Err(ReadFault::Memory) => return Err(OwnerFault::Memory),
        };
        let mut tables = copy_tables(alloc, self.catalog.tables.as_slice())?;
        match apply_commands(
            alloc,
            &mut tables,
            batch.commands.as_slice(),
            trees.as_slice(),
        ) {
            Ok(()) => Ok(Roots {
                version: self.version + 1,
                catalog: Catalog {
                    tables: List::from_vec(tables),
                },
            }),
            Err(fault) => Err(fault),
        }
    }
}
