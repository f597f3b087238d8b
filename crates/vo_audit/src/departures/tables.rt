//! A part against the whole tree of a table.
ghost use Rattle.std.specs.Prelude.{IfOk};
ghost use Rattle.mb_tree.specs.View.{part_of};
ghost use Rattle.tree_collide.specs.Agreements.{HoldsOrCollides};
ghost use Rattle.root_laws.specs.Following.{PrunesTable};
ghost use Rattle.vo_audit.specs.Evidence.{AreHashedIn, HasRoot};

use mb_tree::PartTree;
use std::alloc::{AllocError, Global};
use stored_tables::StoredTables;
use tree_collide::{Agreement, agree};
use vo_spec::Collision;

/// Two byte strings of one digest, unless the tree prunes that of the table of this name, whose
/// digest it has.
pub fn compare_with_table(
    alloc: Global,
    tables: &StoredTables,
    name: &[u8],
    tree: &PartTree<'_>,
) -> Result<Option<Collision>, AllocError>
    requires { HasRoot tables.now name.now (part_of tree.now) }
    ensures { IfOk result (λ found.
        HoldsOrCollides found (PrunesTable tables.now name.now (part_of tree.now))
        (AreHashedIn tables.now name.now (part_of tree.now))) }
{
    match tables.find(name) {
        Some(table) => match agree(alloc, tree, &table.tree)? {
            Agreement::Prunes => Ok(None),
            Agreement::Collides(found) => Ok(Some(found)),
        },
        None => unreachable!(),
    }
}
