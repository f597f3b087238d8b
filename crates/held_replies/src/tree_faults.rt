//! The tests of a reply's trees against their tables: their shape and their roots.
ghost use Rattle.std.specs.Prelude.{◌≡◌, length, map, option_map};
ghost use Rattle.std.specs.List.{AllByRecursion, list_all};
ghost use Rattle.vo_spec.specs.Firsts.{first_some};
ghost use Rattle.vo_spec.specs.Fits.{FitsTree};
ghost use Rattle.vo_spec.specs.Checks.{has_table_shape, root_fault};
ghost use Rattle.mb_tree.specs.View.{part_of};
ghost use Rattle.query_plan.specs.UsedTables.{lent_name};
ghost use Rattle.held_replies.specs.Testing.{PassesTests, digest_fault, with_tables};

use crate::named_table::table_named;
use crate::shape::has_shape;
use mb_tree::PartTree;
use std::alloc::Global;
use vo_spec::{CatalogTable, CheckFault, Digest, Name};

fn has_table_shape(table: Option<&CatalogTable>, tree: &PartTree<'_>) -> bool
    ensures { result ≡ has_table_shape (option_map (λ t. t.now) table.entry, part_of tree.now) }
{
    match table {
        Some(table) => has_shape(&table.schema, tree),
        None => true,
    }
}

/// Whether each tree is of the schema of the table of its name.
pub(crate) fn have_table_shapes(
    names: &[&Name],
    tables: &[CatalogTable],
    trees: &[PartTree<'_>],
) -> bool
    requires { length names.now ≡ length trees.now }
    ensures { result ≡ list_all has_table_shape
        (with_tables (map lent_name names.now) tables.now (map part_of trees.now)) }
{
    for (place, tree) in trees.iter().enumerate() {
        if !has_table_shape(table_named(tables, names[place]), tree) {
            return false;
        }
    }
    true
}

/// Refuses a digest that isn't the table's root. It wants memory only for the name of the table
/// that it then tells.
pub fn test_digest(alloc: Global, table: &CatalogTable, got: Digest) -> Result<(), CheckFault>
    ensures { PassesTests result (digest_fault table.now got) }
{
    let want = table.root;
    if want == got {
        return Ok(());
    }
    match table.name.copy(alloc) {
        Ok(table) => Err(CheckFault::WrongRoot { table, want, got }),
        Err(_) => Err(CheckFault::Memory),
    }
}

/// Refuses another tree than the one of the catalog's root.
fn test_root(
    alloc: Global,
    table: Option<&CatalogTable>,
    tree: &PartTree<'_>,
) -> Result<(), CheckFault>
    requires { FitsTree (part_of tree.now) }
    ensures { PassesTests result
        (root_fault (option_map (λ t. t.now) table.entry, part_of tree.now)) }
{
    match table {
        Some(table) => test_digest(alloc, table, tree.node_digest()),
        None => Ok(()),
    }
}

/// Refuses trees of which one has another root than the table of its name.
pub(crate) fn test_roots(
    alloc: Global,
    names: &[&Name],
    tables: &[CatalogTable],
    trees: &[PartTree<'_>],
) -> Result<(), CheckFault>
    requires count { length names.now ≡ length trees.now }
    requires fits { AllByRecursion FitsTree (map part_of trees.now) }
    ensures { PassesTests result (first_some (map root_fault
        (with_tables (map lent_name names.now) tables.now (map part_of trees.now)))) }
{
    for (place, tree) in trees.iter().enumerate() {
        match test_root(alloc, table_named(tables, names[place]), tree) {
            Ok(()) => {}
            Err(fault) => return Err(fault),
        }
    }
    Ok(())
}
