//! The trees of a reply against the whole trees of their tables.
ghost use Rattle.std.specs.Prelude.{◌≡◌, map, IfOk};
ghost use Rattle.std.specs.List.{AllZip};
ghost use Rattle.vo_spec.specs.Conditions.{query_of};
ghost use Rattle.vo_spec.specs.Trees.{Prunes};
ghost use Rattle.vo_spec.specs.Checks.{tables_wanted};
ghost use Rattle.vo_spec.specs.Honest.{catalog_of, trees_for};
ghost use Rattle.mb_tree.specs.View.{part_of};
ghost use Rattle.vo_audit.specs.Evidence.{HasRoot};
ghost use Rattle.vo_audit.specs.Auditing.{CollidesOr};
ghost use Rattle.vo_audit.specs.Showing.{AreHashedInOne};
ghost use Rattle.vo_audit.specs.WantedTables.{table_at};

use crate::departures::compare_with_table;
use mb_tree::PartTree;
use std::alloc::{AllocError, Global};
use stored_tables::StoredTables;
use vo_spec::{Collision, QueryText};

/// The table of the tree at this place of a reply.
fn table_at(query: &QueryText, place: usize) -> &[u8]
    ensures { result.now ≡ table_at (query_of query.now) place }
{
    match &query.join {
        Some(join) if place > 0 => join.right.table.as_bytes(),
        _ => query.left.table.as_bytes(),
    }
}

/// Two byte strings of one digest, unless each tree prunes the whole one.
pub(crate) fn compare_trees(
    alloc: Global,
    tables: &StoredTables,
    query: &QueryText,
    trees: &[PartTree<'_>],
) -> Result<Option<Collision>, AllocError>
    requires { AllZip (HasRoot tables.now)
        (tables_wanted (query_of query.now) (catalog_of tables.now)) (map part_of trees.now) }
    ensures { IfOk result (λ found.
        let names = tables_wanted (query_of query.now) (catalog_of tables.now) in
        CollidesOr found
        (AllZip Prunes (map part_of trees.now) (trees_for (query_of query.now) tables.now))
        (AreHashedInOne tables.now names (map part_of trees.now))) }
{
    for (place, tree) in trees.iter().enumerate() {
        let found = compare_with_table(alloc, tables, table_at(query, place), tree)?;
        if found.is_some() {
            return Ok(found);
        }
    }
    Ok(None)
}
