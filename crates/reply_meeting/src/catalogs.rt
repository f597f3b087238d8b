//! The catalogs of two replies of one record.
ghost use Rattle.std.specs.Prelude.{◌≡◌, IfOk};
ghost use Rattle.vo_spec.specs.Records.{FitsCatalog, catalog_digest};
ghost use Rattle.tree_collide.specs.Agreements.{HoldsOrCollides};
ghost use Rattle.tree_collide.specs.Preimages.{AreCatalogs};

use std::alloc::{AllocError, Global};
use version_record::catalog_preimage;
use vo_spec::{Catalog, Collision};

/// None where the catalogs are the same, else two byte strings of their one digest.
pub(crate) fn compare_catalogs(
    alloc: Global,
    first: &Catalog,
    second: &Catalog,
) -> Result<Option<Collision>, AllocError>
    requires fits { FitsCatalog first.now }
    requires second_fits { FitsCatalog second.now }
    requires same { catalog_digest first.now ≡ catalog_digest second.now }
    ensures { IfOk result (λ found. HoldsOrCollides found (first.now ≡ second.now)
        (AreCatalogs first.now second.now)) }
{
    let one = catalog_preimage(alloc, first)?;
    let other = catalog_preimage(alloc, second)?;
    if one.as_slice() == other.as_slice() {
        Ok(None)
    } else {
        Ok(Some(Collision::new(one, other)))
    }
}
