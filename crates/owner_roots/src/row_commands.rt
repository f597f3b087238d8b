//! Commands on rows of a catalog's tables, by their proofs.
ghost use Rattle.std.specs.Prelude.{◌≡◌, ◌+◌, ◌<◌, ◌^◌, length, map, None, IfOk, OnOk};
ghost use Rattle.std.specs.List.{AllByRecursion};
ghost use Rattle.vo_spec.specs.Batches.{FitsCommand};
ghost use Rattle.vo_spec.specs.Fits.{FitsTree};
ghost use Rattle.vo_spec.specs.Records.{FitsCatalogTable};
ghost use Rattle.vo_spec.specs.Tables.{refusal};
ghost use Rattle.mb_tree.specs.View.{part_of};
ghost use Rattle.owner_roots.specs.Next.{table_header, rows_changed, table_by_command};
ghost use Rattle.owner_roots.specs.Seen.{table_with};
ghost use Rattle.owner_roots.specs.Working.{FitCatalog, Gives, IsReady};

use crate::owner_fault::OwnerFault;
use crate::places::table_number;
use crate::root_changes::{RootAfter, root_after};
use mb_tree::PartTree;
use row_works::operation;
use std::alloc::Global;
use table_list::command_name;
use vo_spec::{CatalogTable, Command};

/// The root of the command's table after it, by the first of the trees.
fn root_by_command(
    alloc: Global,
    index: u64,
    table: &CatalogTable,
    command: &Command,
    trees: &[PartTree<'_>],
) -> Result<RootAfter, OwnerFault>
    requires table { FitsCatalogTable table.now }
    requires ready { IsReady command.now table.now }
    requires trees { AllByRecursion FitsTree (map part_of trees.now) }
    ensures answer { Gives (table_with table.now) result
        (table_by_command index command.now (map part_of trees.now) table.now) }
    ensures fits { IfOk result (λ after. FitsCatalogTable (table_with table.now after)) }
{
    match operation(alloc, &table.schema, command)? {
        None => Ok(RootAfter {
            rows: table.rows,
            root: table.root,
        }),
        Some(op) => root_after(alloc, index, table, &op, trees),
    }
}

fn set_root(table: &mut CatalogTable, after: RootAfter)
    ensures { table.new ≡ table_with table.old after }
{
    table.rows = after.rows;
    table.root = after.root;
}

/// Changes the rows of the command's table, by the first of the trees.
pub(crate) fn change_rows(
    alloc: Global,
    index: u64,
    tables: &mut Vec<CatalogTable>,
    command: &Command,
    trees: &[PartTree<'_>],
) -> Result<(), OwnerFault>
    requires within { FitCatalog tables.old.items }
    requires fits { FitsCommand command.now }
    requires trees { AllByRecursion FitsTree (map part_of trees.now) }
    requires allowed { refusal command.now (map table_header tables.old.items) ≡ None }
    ensures answer { Gives (λ _. tables.new.items) result
        (rows_changed index command.now (map part_of trees.now) tables.old.items) }
    ensures within { OnOk result (FitCatalog tables.new.items) }
{
    let place = table_number(tables.as_slice(), command_name(command));
    if place >= tables.len() {
        return Ok(());
    }
    match root_by_command(alloc, index, &tables[place], command, trees) {
        Ok(after) => {
            set_root(&mut tables[place], after);
            Ok(())
        },
        Err(fault) => Err(fault),
    }
}
