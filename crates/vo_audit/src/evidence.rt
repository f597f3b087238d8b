//! A reply against tables of the digests that it has.
ghost use Rattle.std.specs.Prelude.{◌≡◌, IfOk};
ghost use Rattle.vo_spec.specs.Conditions.{query_of};
ghost use Rattle.vo_spec.specs.Records.{FitsCatalog, catalog_digest};
ghost use Rattle.vo_spec.specs.Replies.{FitsReply};
ghost use Rattle.vo_spec.specs.Honest.{catalog_of};
ghost use Rattle.vo_format.specs.View.{reply_of};
ghost use Rattle.vo_audit.specs.Auditing.{CollidesOr, HasPassed, IsPartOf};
ghost use Rattle.vo_audit.specs.Showing.{AreOfReply};
ghost use Rattle.tree_collide.specs.Preimages.{AreCatalogs};

use crate::tree_evidence::compare_trees;
use std::alloc::{AllocError, Global};
use stored_tables::StoredTables;
use version_record::catalog_preimage;
use vo_format::Reply;
use vo_spec::{Catalog, Collision, QueryText};

/// Two byte strings of one digest, unless the catalog is that of the tables.
fn compare_catalogs(
    alloc: Global,
    tables: &StoredTables,
    catalog: &Catalog,
) -> Result<Option<Collision>, AllocError>
    requires fits { FitsCatalog catalog.now }
    requires same { catalog_digest catalog.now ≡ catalog_digest (catalog_of tables.now) }
    ensures { IfOk result (λ found. CollidesOr found (catalog.now ≡ catalog_of tables.now)
        (AreCatalogs catalog.now (catalog_of tables.now))) }
{
    let kept = tables.catalog(alloc)?;
    let first = catalog_preimage(alloc, catalog)?;
    let second = catalog_preimage(alloc, &kept)?;
    if first.as_slice() == second.as_slice() {
        Ok(None)
    } else {
        Ok(Some(Collision::new(first, second)))
    }
}

/// Two byte strings of one digest, unless the reply shows parts of these very tables.
pub(crate) fn evidence(
    alloc: Global,
    tables: &StoredTables,
    query: &QueryText,
    reply: &Reply<'_>,
) -> Result<Option<Collision>, AllocError>
    requires fits { FitsReply (reply_of reply.now) }
    requires passed { HasPassed (query_of query.now) (reply_of reply.now) }
    requires held { reply.now.rec.catalog ≡ catalog_digest (catalog_of tables.now) }
    ensures { IfOk result (λ found.
        CollidesOr found (IsPartOf (query_of query.now) (reply_of reply.now) tables.now)
        (AreOfReply (query_of query.now) (reply_of reply.now) tables.now)) }
{
    let found = compare_catalogs(alloc, tables, &reply.catalog)?;
    if found.is_some() {
        return Ok(found);
    }
    compare_trees(alloc, tables, query, &reply.trees)
}
