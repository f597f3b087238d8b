//! Commands on a catalog's tables, in their order.
ghost use Rattle.std.specs.Prelude.{◌≡◌, ◌≤◌, ◌+◌, drop, length, map, remove, None, IfOk, OnOk};
ghost use Rattle.std.specs.List.{AllByRecursion};
ghost use Rattle.vo_spec.specs.Batches.{FitsCommand, max_columns, max_commands};
ghost use Rattle.vo_spec.specs.Fits.{FitsTree};
ghost use Rattle.vo_spec.specs.Tables.{refusal};
ghost use Rattle.mb_tree.specs.View.{part_of};
ghost use Rattle.owner_roots.specs.Next.{table_header, table_number, catalog_after, tables_changed, tables_from, trees_taken};
ghost use Rattle.owner_roots.specs.Next.{new_table as made_table};
ghost use Rattle.owner_roots.specs.Working.{FitCatalog, Gives};

use crate::owner_fault::OwnerFault;
use crate::places::{place_for, refusal, table_number};
use crate::row_commands::change_rows;
use mb_tree::PartTree;
use std::alloc::{AllocError, Global};
use table_list::new_schema;
use vo_spec::{CatalogTable, Column, Command, List, Name};

/// The table that a CREATE makes.
fn new_table(
    alloc: Global,
    name: &Name,
    columns: &[Column],
    key: &Name,
) -> Result<CatalogTable, AllocError>
    requires { length columns.now ≤ max_columns }
    ensures { IfOk result (λ table. table ≡ made_table name.now columns.now key.now) }
{
    Ok(CatalogTable {
        name: name.copy(alloc)?,
        schema: new_schema(alloc, columns, key.as_bytes())?,
        rows: 0,
        root: PartTree::Leaf(List::new(alloc)).node_digest(),
    })
}

/// Takes the table of this name out.
#[tactic(auto, using(crate::proofs::CatalogLaws::removed_nowhere))]
fn drop_table(tables: &mut Vec<CatalogTable>, name: &[u8])
    ensures { tables.new.items ≡ remove tables.old.items (table_number name.now tables.old.items) }
{
    let place = table_number(tables.as_slice(), name);
    if place < tables.len() {
        tables.remove(place);
    }
}

/// What a command that the catalog doesn't refuse makes of its tables.
#[tactic(auto, unfolding(vo_spec::specs::Batches::FitsCommand))]
fn change_tables(
    alloc: Global,
    index: u64,
    tables: &mut Vec<CatalogTable>,
    command: &Command,
    trees: &[PartTree<'_>],
) -> Result<(), OwnerFault>
    requires within { FitCatalog tables.old.items }
    requires fits { FitsCommand command.now }
    requires trees { AllByRecursion FitsTree (map part_of trees.now) }
    requires allowed { refusal command.now (map table_header tables.old.items) ≡ None }
    ensures answer { Gives (λ _. tables.new.items) result
        (tables_changed index command.now (map part_of trees.now) tables.old.items) }
    ensures within { OnOk result (FitCatalog tables.new.items) }
{
    match command {
        Command::Create { name, columns, key } => {
            let place = place_for(tables.as_slice(), name.as_bytes());
            tables.insert(place, new_table(alloc, name, columns.as_slice(), key)?)?;
            Ok(())
        },
        Command::Drop { name } => {
            drop_table(tables, name.as_bytes());
            Ok(())
        },
        Command::Insert { .. } | Command::Update { .. } | Command::Delete { .. } => {
            change_rows(alloc, index, tables, command, trees)
        },
    }
}

/// What the command of this number makes of the tables, by the trees that are left.
fn apply_command(
    alloc: Global,
    index: u64,
    tables: &mut Vec<CatalogTable>,
    command: &Command,
    trees: &[PartTree<'_>],
) -> Result<(), OwnerFault>
    requires within { FitCatalog tables.old.items }
    requires fits { FitsCommand command.now }
    requires trees { AllByRecursion FitsTree (map part_of trees.now) }
    ensures answer { Gives (λ _. tables.new.items) result
        (catalog_after index command.now (map part_of trees.now) tables.old.items) }
    ensures within { OnOk result (FitCatalog tables.new.items) }
{
    match refusal(tables.as_slice(), command) {
        Some(fault) => Err(OwnerFault::Command { index, fault }),
        None => change_tables(alloc, index, tables, command, trees),
    }
}

/// How many trees a command takes.
fn trees_taken(command: &Command) -> usize
    ensures { result ≡ trees_taken command.now }
{
    match command {
        Command::Create { .. } | Command::Drop { .. } => 0,
        Command::Insert { .. } | Command::Update { .. } | Command::Delete { .. } => 1,
    }
}

/// The trees but for the first of them.
fn trees_from<'p, 'b>(trees: &'p [PartTree<'b>], first: usize) -> &'p [PartTree<'b>]
    ensures { result.now ≡ drop first trees.now }
{
    &trees[first.min(trees.len())..]
}

/// What the commands of a batch make of the tables, by these trees, of which none is left over.
pub(crate) fn apply_commands(
    alloc: Global,
    tables: &mut Vec<CatalogTable>,
    commands: &[Command],
    trees: &[PartTree<'_>],
) -> Result<(), OwnerFault>
    requires within { FitCatalog tables.old.items }
    requires fits { AllByRecursion FitsCommand commands.now }
    requires count { length commands.now ≤ max_commands }
    requires trees { AllByRecursion FitsTree (map part_of trees.now) }
    ensures answer { Gives (λ _. tables.new.items) result
        (tables_from 0 commands.now (map part_of trees.now) tables.old.items) }
    ensures within { OnOk result (FitCatalog tables.new.items) }
{
    let mut taken = 0;
    for (index, command) in commands.iter().enumerate() {
        let left = trees_from(trees, taken);
        match apply_command(alloc, index as u64, tables, command, left) {
            Ok(()) => taken += trees_taken(command),
            Err(fault) => return Err(fault),
        }
    }
    if taken < trees.len() {
        let index = commands.len() as u64;
        return Err(OwnerFault::ProofSurplus { index });
    }
    Ok(())
}
