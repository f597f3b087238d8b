//! Tables with one of their rows new, changed or gone.
ghost use Rattle.std.specs.Prelude.{◌≡◌, Result};
ghost use Rattle.std.specs.Result.{result_map_both};
ghost use Rattle.vo_spec.specs.declared.trees.UpdateFault.{UpdateFault as TreeFault};
ghost use Rattle.vo_spec.specs.Trees.{RowTree};
ghost use Rattle.vo_spec.specs.Honest.{row_refusal};
ghost use Rattle.mb_update.specs.ChangeResults.{ChangesTo};
ghost use Rattle.table_list.specs.Changes.{Returns};
ghost use Rattle.stored_tables.specs.View.{stored_of};
ghost use Rattle.stored_tables.specs.Working.{table_after, with_new_tree};
ghost use Rattle.stored_tables.specs.Ready.{IsReady};

use crate::table::StoredTable;
use mb_tree::Tree;
use row_works::{UpdateFault, apply_to_tree, operation};
use std::alloc::Global;
use table_list::ApplyFault;
use vo_spec::{Command, CommandFault};

/// The table with what a change has made of its tree, or why the change is refused.
fn with_tree(
    alloc: Global,
    table: &StoredTable,
    change: Result<Tree, UpdateFault>,
) -> Result<StoredTable, ApplyFault>
    ensures { (after : Result RowTree TreeFault) → ChangesTo (λ tree. tree) change after
        → Returns stored_of result (result_map_both
        (with_new_tree (stored_of table.now)) row_refusal after) }
{
    match change {
        Ok(tree) => Ok(StoredTable {
            name: table.name.clone()?,
            schema: table.schema.clone()?,
            tree,
        }),
        Err(UpdateFault::DuplicateKey) => Err(ApplyFault::Refused(CommandFault::DuplicateKey)),
        Err(UpdateFault::Memory) => Err(ApplyFault::Memory),
        Err(UpdateFault::NoRow | UpdateFault::Missing) => Err(ApplyFault::Refused(
            CommandFault::NoRow,
        )),
    }
}

/// The table with what the command changes of its rows.
#[tactic(auto, using(row_works::proofs::OperationLaws::same_tree))]
pub(crate) fn change_table(
    alloc: Global,
    table: &StoredTable,
    command: &Command,
) -> Result<StoredTable, ApplyFault>
    requires { IsReady command.now (stored_of table.now) }
    ensures { Returns stored_of result (table_after command.now (stored_of table.now)) }
{
    match operation(alloc, &table.schema, command)? {
        Some(op) => {
            let change = apply_to_tree(alloc, &table.tree, op);
            with_tree(alloc, table, change)
        },
        None => unreachable!(),
    }
}
