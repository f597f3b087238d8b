//! What stands at version 0: no tables, and the proofs of no commands.
ghost use Rattle.std.specs.Prelude.{◌≡◌, [], IfOk};
ghost use Rattle.vo_spec.specs.Records.{FitsCatalog};
ghost use Rattle.vo_spec.specs.Replies.{proofs_bytes};
ghost use Rattle.owner_roots.specs.Owners.{first_roots};

use owner_roots::Roots;
use std::alloc::{AllocError, Global};
use vo_format::begin_proofs;
use vo_spec::{Catalog, List};

pub(crate) fn first_roots(alloc: Global) -> Roots
    ensures value { result ≡ first_roots }
    ensures fits { FitsCatalog result.catalog }
{
    Roots {
        version: 0,
        catalog: Catalog {
            tables: List::new(alloc),
        },
    }
}

#[tactic(auto, unfolding(vo_spec::specs::Replies::proofs_bytes))]
pub(crate) fn no_proofs(alloc: Global) -> Result<Vec<u8>, AllocError>
    ensures { IfOk result (λ bytes. bytes.items ≡ proofs_bytes []) }
{
    let mut bytes = Vec::new(alloc);
    begin_proofs(&mut bytes, 0)?;
    Ok(bytes)
}
